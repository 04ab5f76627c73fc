// "FusionMatch: edge tight, conditioned vertex virtual, other end a growing defect with tight count 0; stalls that end"
ghost use Rattle.std.specs.Prelude.{◌≡◌};
ghost use Rattle.rules.specs.Graph.{far_end};
ghost use Rattle.rules.specs.Units as Units;
ghost use Rattle.board.specs.Board.{edges_on};
ghost use Rattle.comb_offloading.specs.On.{fusion_match_on};

use crate::boundary::meets_virtual;
use crate::edge::EdgeAt;
use crate::vertex::{raise, tight_count};
use board::Board;
use comb_edge::stage::Stage;
use rules::tables::VertexFlags;

#[tactic(auto, using(laws::specs::Tests::tests, crate::proofs::Ends::fusion_ends))]
pub(crate) fn fusion_match(edge: EdgeAt, conditioned: u8, stage: &Stage) -> bool
    ensures { result ≡ fusion_match_on stage.now.board.now.table stage.now.before.now stage.now.weights.now edge.number conditioned }
{
    let regular = edge.far_end(conditioned, stage.board);
    meets_virtual(edge, conditioned, regular, stage) && tight_count(regular, stage) == 0
}

pub(crate) fn stall_peer(edge: EdgeAt, conditioned: u8, board: &Board, vertices: &mut VertexFlags)
    ensures { vertices.new ≡ Units.raise vertices.old (far_end (edges_on board.now.table) conditioned edge.number) }
{
    raise(edge.far_end(conditioned, board), vertices);
}
