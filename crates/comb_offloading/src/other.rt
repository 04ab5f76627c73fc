// The other edges of a vertex, place by place.
ghost use Rattle.std.specs.Prelude.{◌≡◌};
ghost use Rattle.places.specs.Places.{edge_in};
ghost use Rattle.comb_offloading.specs.On.{tight_other_on};

use crate::edge::EdgeAt;
use board::PlaceWord;
use comb_edge::stage::Stage;

// Other by number: a parallel edge is an other one.
#[tactic(auto, using(laws::specs::Tests::tests), unfolding(crate::specs::Around::tight_other))]
pub(crate) fn is_tight_other(place: PlaceWord, edge: EdgeAt, stage: &Stage) -> bool
    ensures { result ≡ tight_other_on stage.now.board.now.table stage.now.before.now stage.now.weights.now edge.number (edge_in place.0) }
{
    let other = EdgeAt {
        number: place.edge(),
    };
    other != edge && other.is_tight(stage)
}
