// "DefectMatch: edge tight, both ends defects, growing, each with tight count 1; stalls both"
ghost use Rattle.std.specs.Prelude.{◌≡◌};
ghost use Rattle.rules.specs.Graph.{left_of, right_of};
ghost use Rattle.rules.specs.Units as Units;
ghost use Rattle.board.specs.Board.{edges_on};
ghost use Rattle.comb_offloading.specs.On.{defect_match_on};

use crate::edge::EdgeAt;
use crate::vertex::{is_eager, raise, tight_count};
use board::Board;
use comb_edge::stage::Stage;
use rules::tables::VertexFlags;

#[tactic(auto, using(laws::specs::Tests::tests, crate::proofs::Ends::defect_ends))]
pub(crate) fn defect_match(edge: EdgeAt, stage: &Stage) -> bool
    ensures { result ≡ defect_match_on stage.now.board.now.table stage.now.before.now stage.now.weights.now edge.number }
{
    let (left, right) = edge.ends(stage.board);
    is_eager(left, stage.before)
        && is_eager(right, stage.before)
        && edge.is_tight(stage)
        && tight_count(left, stage) == 1
        && tight_count(right, stage) == 1
}

pub(crate) fn stall_ends(edge: EdgeAt, board: &Board, vertices: &mut VertexFlags)
    ensures { vertices.new ≡ Units.raise (Units.raise vertices.old (left_of (edges_on board.now.table) edge.number)) (right_of (edges_on board.now.table) edge.number) }
{
    let (left, right) = edge.ends(board);
    raise(left, vertices);
    raise(right, vertices);
}
