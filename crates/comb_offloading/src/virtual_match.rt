// "VirtualMatch: edge tight, named end virtual, other end a growing defect, and each other edge of that end untight or leading to a non-defect
// with tight count 1"
ghost use Rattle.std.specs.Prelude.{◌≡◌};
ghost use Rattle.places.specs.Places.{edge_in, far_in};
ghost use Rattle.comb_offloading.specs.On.{others_permit_on, permits_on, virtual_match_on};

use crate::boundary::meets_virtual;
use crate::edge::EdgeAt;
use crate::other::is_tight_other;
use crate::vertex::tight_count;
use board::PlaceWord;
use comb_edge::stage::Stage;
use rules::registers::at;

#[tactic(auto, using(laws::specs::Tests::tests), unfolding(crate::specs::Around::permits_by))]
fn permits(place: PlaceWord, edge: EdgeAt, stage: &Stage) -> bool
    ensures { result ≡ permits_on stage.now.board.now.table stage.now.before.now stage.now.weights.now edge.number (edge_in place.0) (far_in place.0) }
{
    let far = place.far();
    !is_tight_other(place, edge, stage)
        || !at(stage.before, far).is_defect && tight_count(far, stage) == 1
}

fn all_permit(edge: EdgeAt, regular: u8, stage: &Stage) -> bool
    ensures { result ≡ others_permit_on stage.now.board.now.table stage.now.before.now stage.now.weights.now edge.number regular }
{
    let table = &stage.board.table;
    (0..board::degree(table, regular)).all(|k| {
        let place = board::place(table, regular, k);
        permits(place, edge, stage)
    })
}

#[tactic(auto, using(laws::specs::Tests::tests, crate::proofs::Ends::virtual_ends))]
pub(crate) fn virtual_match(edge: EdgeAt, vertex: u8, stage: &Stage) -> bool
    ensures { result ≡ virtual_match_on stage.now.board.now.table stage.now.before.now stage.now.weights.now edge.number vertex }
{
    let regular = edge.far_end(vertex, stage.board);
    meets_virtual(edge, vertex, regular, stage) && all_permit(edge, regular, stage)
}
