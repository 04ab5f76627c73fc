// Stage 4: the propagating peer. What is fetched are the fetch weights by the registers before the instruction; `executed` are those after stage 3.
ghost use Rattle.std.specs.Prelude.{◌≡◌};
ghost use Rattle.std.proofs.Math.Option.{some};
ghost use Rattle.rules.specs.Peer.{lead_by};
ghost use Rattle.places.specs.Places.{edge_in, far_in};
ghost use Rattle.comb_vertex.specs.Led.{serves_on, led_on, peer_on};

use crate::degree_of;
use board::PlaceWord;
use comb_edge::stage::Fetch;
use rules::registers::{Lead, at};
use rules::tables::Registers;

// Whether the edge at a place leads to a vertex that propagates.
#[tactic(auto, using(crate::proofs::Walks::serving), unfolding(crate::specs::Led::serves_to))]
fn serves(place: PlaceWord, fetch: &Fetch, executed: &Registers) -> bool
    ensures { result ≡ serves_on fetch.now.table.now fetch.now.before.now fetch.now.weights.now executed.now (edge_in place.0) (far_in place.0) }
{
    let e = place.edge();
    at(executed, place.far()).is_propagating()
        && fetch.edge(e).post_fetch_is_tight(fetch.weight(e), executed)
}

fn lead(executed: &Registers, far: u8) -> Option<Lead>
    ensures { result ≡ lead_by executed.now (some far) }
{
    let peer = at(executed, far);
    Some(Lead {
        node: peer.node,
        root: peer.root,
    })
}

// "the first edge by index that .."
#[tactic(auto, using(crate::proofs::Walks::walks))]
fn first_peer(v: u8, fetch: &Fetch, executed: &Registers) -> Option<Lead>
    ensures { result ≡ led_on fetch.now.table.now fetch.now.before.now fetch.now.weights.now executed.now v }
{
    for k in 0..degree_of(fetch.table, v) {
        let place = board::place(fetch.table, v, k);
        if serves(place, fetch, executed) {
            return lead(executed, place.far());
        }
    }
    None
}

// "for new grown amount 0"
#[tactic(auto, using(laws::specs::Tests::tests), unfolding(crate::specs::Led::peer_at))]
pub fn propagating_peer(v: u8, fetch: &Fetch, executed: &Registers) -> Option<Lead>
    ensures { result ≡ peer_on fetch.now.table.now fetch.now.before.now fetch.now.weights.now executed.now v }
{
    if at(executed, v).grown == 0 {
        first_peer(v, fetch, executed)
    } else {
        None
    }
}
