// The vertices that may have a propagating peer. Few vertices propagate, and their tight edges lead to few others: no other vertex needs the
// walk that finds its peer.
ghost use Rattle.std.specs.Prelude.{◌≡◌};
ghost use Rattle.places.specs.Places.{edge_in, far_in};
ghost use Rattle.comb_settle.specs.On.{mark_far_on, mark_around_on, marked_on};

use board::PlaceWord;
use comb_edge::stage::{Fetch, Stage};
use rules::registers::at;
use rules::tables::{Registers, VertexFlags, no_flags};

// The far end at a place, where the edge there is tight: `grown` is that of the vertex that propagates, and it alone decides, since a vertex
// that is led has itself grown 0. No branch, since which edges are tight is hard to predict.
#[tactic(auto, using(crate::proofs::Marking::far_marked))]
fn mark_far(place: PlaceWord, grown: u32, fetch: &Fetch, marks: &mut VertexFlags)
    ensures { marks.new ≡ mark_far_on fetch.now.table.now fetch.now.before.now fetch.now.weights.now grown (edge_in place.0) (far_in place.0) marks.old }
{
    let tight = fetch.weight(place.edge()) <= grown;
    marks[usize::from(place.far())] |= tight;
}

// What a vertex that propagates leads.
#[tactic(auto, using(board::specs::Board::few, crate::proofs::Marking::around))]
fn mark_around(v: u8, stage: &Stage, executed: &Registers, marks: &mut VertexFlags)
    ensures { marks.new ≡ mark_around_on stage.now.board.now.table stage.now.before.now stage.now.weights.now executed.now v marks.old }
{
    let registers = at(executed, v);
    if registers.is_propagating() {
        let table = &stage.board.table;
        let fetch = stage.fetch();
        for k in 0..board::degree(table, v) {
            let place = board::place(table, v, k);
            mark_far(place, registers.grown, &fetch, marks);
        }
    }
}

// No end of an edge in use stands at the reach or beyond.
#[tactic(auto, using(crate::proofs::Marking::marking))]
pub(crate) fn mark_led(stage: &Stage, executed: &Registers) -> VertexFlags
    ensures { result ≡ marked_on stage.now.board.now.table stage.now.before.now stage.now.weights.now executed.now }
{
    let mut marks = no_flags();
    for v in 0..board::reach(&stage.board.table) {
        mark_around(v as u8, stage, executed, &mut marks);
    }
    marks
}
