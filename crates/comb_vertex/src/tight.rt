// A vertex's tight edges: one bit for each of its places, and the tight count is the number of ones.
ghost use Rattle.std.specs.Prelude.{◌≡◌, ◌+◌, ◌*◌, ◌^◌, ◌<◌};
ghost use Rattle.laws.specs.Fold.{bit, count_to};
ghost use Rattle.laws.specs.Mask.{mask_of};
ghost use Rattle.board.specs.Board.{degrees_on};
ghost use Rattle.comb_vertex.specs.Walked.{degree_of};
ghost use Rattle.comb_vertex.specs.Tight.{tight_on};

use crate::degree_of;
use comb_edge::stage::Fetch;

#[tactic(auto, using(comb_edge::specs::Tables::counted_tight_by_lem), unfolding(crate::specs::Tight::tight_at))]
fn tight_at(v: u8, k: u32, fetch: &Fetch) -> bool
    requires { k < 16 }
    ensures { result ≡ tight_on fetch.now.table.now fetch.now.before.now fetch.now.weights.now v k }
{
    let e = board::place(fetch.table, v, k).edge();
    fetch
        .edge(e)
        .post_fetch_count_tight(fetch.weight(e), fetch.before)
}

// The mask with bit k besides, where it is on: the mask is below that bit. By a branch, which is mostly taken as at the place before: with a shift
// of the flag a cycle with many units took half as long again.
fn with_bit(mask: u16, k: u32, on: bool) -> u16
    requires { (k < 16) × (mask < 2 ^ k) }
    ensures { result ≡ bit on * 2 ^ k + mask }
{
    if on { mask | 1 << k } else { mask }
}

// Bit k is set where place k holds a counted-tight edge.
#[tactic(auto, using(laws::specs::Mask::masks))]
pub fn tight_mask(v: u8, fetch: &Fetch) -> u16
    ensures { result ≡ mask_of (degree_of (degrees_on fetch.now.table.now) v) (tight_on fetch.now.table.now fetch.now.before.now fetch.now.weights.now v) }
{
    let mut mask = 0;
    for k in 0..degree_of(fetch.table, v) {
        mask = with_bit(mask, k, tight_at(v, k, fetch));
    }
    mask
}

#[tactic(auto, using(laws::specs::Mask::ones_mask))]
pub fn tight_count(v: u8, fetch: &Fetch) -> u32
    ensures { result ≡ count_to (tight_on fetch.now.table.now fetch.now.before.now fetch.now.weights.now v) (degree_of (degrees_on fetch.now.table.now) v) }
{
    tight_mask(v, fetch).count_ones()
}
