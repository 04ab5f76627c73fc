// What an edge reports, for choosing: the strongest report decides, in whatever order they come and however often one does.
ghost use Rattle.std.specs.Prelude.{◌≡◌, ◌<◌};
ghost use Rattle.comb_cycle.specs.On.{edge_response_on};

use crate::settled::Settled;
use rules::finding::{Finding, Length, OddRemaining};
use rules::index::EdgeIndex;

#[derive(Clone, Copy, Debug, PartialEq, Eq)]
pub enum Report {
    Odd,
    Conflict(EdgeIndex),
    Length(Length),
}

impl<'a> Settled<'a> {
    // What edge e responds in stage 7. The edges have their fetch weights by the registers before the instruction.
    #[tactic(auto, using(laws::specs::Tests::tests, comb_edge::specs::Tables::response_by))]
    pub(crate) fn response(&self, e: usize) -> Result<Finding, OddRemaining>
        requires { e < 1_024 }
        ensures { result ≡ edge_response_on self.now e }
    {
        let fetch = self.stage.fetch();
        let edge = fetch.edge(e);
        if edge.is_idle(self.shadows) {
            return Ok(Finding::GrowLength(Length::NoLimit));
        }
        edge.meeting(fetch.weight(e), self.registers, self.shadows)
    }
}
