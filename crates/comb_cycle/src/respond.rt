// Stages 7 and 8: 16 where an edge is odd, else the finding.
ghost use Rattle.std.specs.Prelude.{◌≡◌};
ghost use Rattle.comb_cycle.specs.On.{responded_on};

use crate::rank::report_in;
use crate::report::Report;
use crate::settled::Settled;
use interface::reduce;
use rules::finding::{Finding, OddRemaining};

impl<'a> Settled<'a> {
    // What the strongest report of the edges says, with what the vertices found.
    #[tactic(auto, using(crate::proofs::Responds::responds))]
    pub(crate) fn respond(&self, start: Finding) -> Result<Finding, OddRemaining>
        ensures { result ≡ responded_on self.now start }
    {
        match report_in(self.strongest()) {
            Report::Odd => Err(OddRemaining),
            Report::Conflict(e) => Ok(reduce(start, self.response(usize::from(e.0))?)),
            Report::Length(length) => Ok(reduce(start, Finding::GrowLength(length))),
        }
    }
}
