// The strongest report of all edges, by its rank. An edge that is not idle has an end whose shadow grows, and few shadows do, so only the edges
// of these are looked at.
ghost use Rattle.std.specs.Prelude.{◌≡◌};
ghost use Rattle.comb_cycle.specs.On.{strongest_on, strongest_at_on};
ghost use Rattle.comb_cycle.specs.Rank.{report_in};
ghost use Rattle.comb_cycle.specs.Strongest as Strongest;

use crate::growing::list_growing;
use crate::rank::NO_LIMIT;
use crate::settled::Settled;

impl<'a> Settled<'a> {
    // The rank of the strongest of a report and those of the edges of one vertex.
    #[tactic(auto, using(crate::proofs::Responds::walks, board::specs::Board::few))]
    fn strongest_at(&self, v: u8, start: u64) -> u64
        ensures { report_in result ≡ Strongest.stronger (report_in start) (strongest_at_on self.now v) }
    {
        let table = &self.stage.board.table;
        let mut strongest = start;
        for k in 0..board::degree(table, v) {
            strongest = strongest.min(self.rank_at(v, board::place(table, v, k)));
        }
        strongest
    }

    #[tactic(auto, using(crate::proofs::Responds::walks))]
    pub(crate) fn strongest(&self) -> u64
        ensures { report_in result ≡ strongest_on self.now }
    {
        let reach = board::reach(&self.stage.board.table);
        let mut vertices = [0u8; 256];
        let n = list_growing(self.shadows, reach, &mut vertices);
        let mut strongest = NO_LIMIT;
        for &v in &vertices[..n] {
            strongest = self.strongest_at(v, strongest);
        }
        strongest
    }
}
