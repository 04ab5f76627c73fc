// An edge, by its number.
ghost use Rattle.std.specs.Prelude.{◌≡◌, ◌<◌, ◌%◌, get_or};
ghost use Rattle.rules.specs.Graph.{left_of, right_of, far_end};
ghost use Rattle.board.specs.Board.{edges_on};
ghost use Rattle.comb_offloading.specs.On.{tight_on};

use board::Board;
use comb_edge::Edge;
use comb_edge::stage::Stage;
use rules::index::VertexIndex;

// A number that the table of edges has.
#[derive(Clone, Copy, Debug, PartialEq, Eq)]
pub(crate) struct EdgeAt {
    pub(crate) number: usize,
    ghost in_table: { number < 1_024 },
}

impl EdgeAt {
    // The lowest 10 bits of a unit's word.
    pub(crate) fn of(word: u32) -> Self
        ensures { result.number ≡ word % 1_024 }
    {
        EdgeAt {
            number: (word % 1_024) as usize,
        }
    }

    fn entry(self, board: &Board) -> Edge
        ensures { result.0 ≡ get_or (edges_on board.now.table) self.number 0 }
    {
        Edge(board::edge(&board.table, self.number))
    }

    // The left end, and the right.
    #[tactic(auto, unfolding(rules::specs::Graph::left_of, rules::specs::Graph::right_of))]
    pub(crate) fn ends(self, board: &Board) -> (u8, u8)
        ensures { (result.0 ≡ left_of (edges_on board.now.table) self.number) × (result.1 ≡ right_of (edges_on board.now.table) self.number) }
    {
        let entry = self.entry(board);
        (entry.left().0 as u8, entry.right().0 as u8)
    }

    // The end that is not the vertex.
    #[tactic(auto, using(comb_edge::specs::Tables::far_end_by_lem))]
    pub(crate) fn far_end(self, v: u8, board: &Board) -> u8
        ensures { result ≡ far_end (edges_on board.now.table) v self.number }
    {
        self.entry(board).far_end(VertexIndex(u16::from(v))).0 as u8
    }

    #[tactic(auto, using(comb_edge::specs::Tables::tight_by_lem))]
    pub(crate) fn is_tight(self, stage: &Stage) -> bool
        ensures { result ≡ tight_on stage.now.board.now.table stage.now.before.now stage.now.weights.now self.number }
    {
        let fetched = stage.fetch().weight(self.number);
        self.entry(stage.board)
            .post_fetch_is_tight(fetched, stage.before)
    }
}
