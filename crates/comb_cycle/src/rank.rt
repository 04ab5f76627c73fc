// A report as one number, its rank: the lesser is the stronger, so that a walk over the edges carries and compares numbers alone.
// specs/Rank.antt says which report a rank is.
ghost use Rattle.std.specs.Prelude.{◌≡◌, ◌<◌};
ghost use Rattle.places.specs.Places.{edge_in, far_in};
ghost use Rattle.comb_cycle.specs.On.{report_from_on};
ghost use Rattle.comb_cycle.specs.Rank.{report_in};
ghost use Rattle.comb_cycle.specs.Strongest as Strongest;

use crate::report::Report;
use crate::settled::Settled;
use board::PlaceWord;
use comb_edge::length::less;
use comb_edge::respond::{is_idle, meeting};
use rules::finding::{Finding, Length, OddRemaining};
use rules::index::{EdgeIndex, VertexIndex};
use rules::registers::at;

// No limit: the weakest report has the greatest rank.
pub(crate) const NO_LIMIT: u64 = 12_884_901_888;

#[tactic(auto, using(crate::proofs::Ranks::ranks))]
fn rank_of_length(length: Length) -> u64
    ensures { report_in result ≡ Report.Length length }
{
    match length {
        Length::NoLimit => NO_LIMIT,
        Length::Ahead(n) => 8_589_934_592 + u64::from(n),
        Length::Behind(n) => 8_589_934_591 - u64::from(n),
    }
}

// The rank of what edge e reports with a response.
#[tactic(auto, using(crate::proofs::Ranks::ranks))]
fn rank_of(e: EdgeIndex, response: Result<Finding, OddRemaining>) -> u64
    ensures { report_in result ≡ Strongest.report_of e.0 response }
{
    match response {
        Err(OddRemaining) => 0,
        Ok(Finding::Conflict(_, _)) => 4_294_901_760 + u64::from(e.0),
        Ok(Finding::GrowLength(length)) => rank_of_length(length),
    }
}

impl<'a> Settled<'a> {
    // The rank of what is heard at v of the edge at one of its places: what v shows and has grown is then looked up once for all of them.
    #[tactic(auto, using(crate::proofs::Sides::hearing), unfolding(rules::specs::Registers::at))]
    pub(crate) fn rank_at(&self, v: u8, place: PlaceWord) -> u64
        ensures { report_in result ≡ report_from_on self.now v (edge_in place.0) (far_in place.0) }
    {
        let e = place.edge();
        let w = place.far();
        let near = at(self.shadows, v);
        let far = at(self.shadows, w);
        if is_idle(near, far) {
            return rank_of_length(Length::NoLimit);
        }
        let grown = at(self.registers, v).grown + at(self.registers, w).grown;
        let remaining = less(self.stage.fetch().weight(e), grown);
        let response = meeting(
            near,
            far,
            VertexIndex(u16::from(v)),
            VertexIndex(u16::from(w)),
            remaining,
        );
        rank_of(EdgeIndex(e as u16), response)
    }
}

#[tactic(auto, unfolding(crate::specs::Rank::report_in, laws::specs::Choice::pick))]
pub(crate) fn report_in(rank: u64) -> Report
    ensures { result ≡ report_in rank }
{
    match rank {
        ..4_294_901_760 => Report::Odd,
        4_294_901_760..4_294_967_296 => {
            Report::Conflict(EdgeIndex((rank - 4_294_901_760) as u16))
        }
        4_294_967_296..8_589_934_592 => {
            Report::Length(Length::Behind((8_589_934_591 - rank) as u32))
        }
        8_589_934_592..NO_LIMIT => { Report::Length(Length::Ahead((rank - 8_589_934_592) as u32)) }
        NO_LIMIT.. => Report::Length(Length::NoLimit),
    }
}
