// A VirtualMatch "stalls that end and the far end of each tight other edge".
ghost use Rattle.std.specs.Prelude.{◌≡◌};
ghost use Rattle.comb_offloading.specs.On.{stalls_around_on};

use crate::edge::EdgeAt;
use crate::other::is_tight_other;
use crate::vertex::raise;
use comb_edge::stage::Stage;
use rules::tables::VertexFlags;

#[tactic(auto, using(board::specs::Board::few, crate::proofs::Turns::stalling))]
pub(crate) fn stall_around(edge: EdgeAt, regular: u8, stage: &Stage, vertices: &mut VertexFlags)
    ensures { vertices.new ≡ stalls_around_on stage.now.board.now.table stage.now.before.now stage.now.weights.now edge.number regular vertices.old }
{
    raise(regular, vertices);
    let table = &stage.board.table;
    let n = board::degree(table, regular);
    for k in 0..n {
        let place = board::place(table, regular, k);
        if is_tight_other(place, edge, stage) {
            raise(place.far(), vertices);
        }
    }
}
