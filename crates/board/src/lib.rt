// A graph and what is worked out from it, in one table: made by `lay`, and read by these functions alone (specs/Board.antt says where each part
// stands).
#![tactic(auto, using(crate::specs::Board::entries), unfolding(crate::specs::Board::vertices_on, crate::specs::Board::degrees_on, crate::specs::Board::edges_on, crate::specs::Board::units_on, crate::specs::Board::places_on))]

ghost use Rattle.std.specs.Prelude.{◌≡◌, ◌+◌, ◌*◌, ◌<◌, get_or};
ghost use Rattle.places.specs.Places.{edge_in, far_in};
ghost use Rattle.board.specs.Board.{vertices_on, degrees_on, edges_on, units_on, places_on, defaults_on, nv_on, ne_on, nu_on, reach_on, Laid};

use rules::tables::Weights;

pub type Table = [u32; 8720];

// Of these functions `edge` and `place` ask for an index in range. Most callers count up to a bound, so a type for it would be made at each call;
// where a number is kept, it has one (`EdgeAt` in comb_offloading).

// A table whose places are those of its edges.
#[derive(Clone, Copy)]
pub struct Board {
    pub table: Table,
    ghost laid: { Laid table },
}

pub fn vertex(table: &Table, v: u8) -> u32
    ensures { result ≡ get_or (vertices_on table.now) v 0 }
{
    table[v as usize + 16]
}

// How many places of a vertex are in use.
pub fn degree(table: &Table, v: u8) -> u32
    ensures { result ≡ get_or (degrees_on table.now) v 0 }
{
    table[v as usize + 272]
}

pub fn edge(table: &Table, e: usize) -> u32
    requires { e < 1_024 }
    ensures { result ≡ get_or (edges_on table.now) e 0 }
{
    table[e + 528]
}

pub fn unit(table: &Table, u: usize) -> u32
    ensures { result ≡ get_or (units_on table.now) u 0 }
{
    if u < 2_048 { table[u + 1_552] } else { 0 }
}

// A place's word: an edge, and its end that is not the place's vertex.
#[derive(Clone, Copy, Debug, PartialEq, Eq)]
pub struct PlaceWord(pub u32);

impl PlaceWord {
    pub fn edge(self) -> usize
        ensures { result ≡ edge_in self.0 }
    {
        (self.0 % 1_024) as usize
    }

    pub fn far(self) -> u8
        ensures { result ≡ far_in self.0 }
    {
        (self.0 / 1_024 % 256) as u8
    }
}

// Place k of a vertex. A test of k would cost 3 % of all instructions.
pub fn place(table: &Table, v: u8, k: u32) -> PlaceWord
    requires { k < 16 }
    ensures { result.0 ≡ get_or (places_on table.now) (v * 16 + k) 0 }
{
    PlaceWord(table[v as usize * 16 + k as usize + 3_600])
}

// Counts go no further than their tables: the bounds are seen by the compiler, and save it work in the loops. Four functions, since one would have
// each caller name a place and a bound; so it is with `vertex` and `degree`.
pub fn nv(table: &Table) -> usize
    ensures { result ≡ nv_on table.now }
{
    (table[0] as usize).min(256)
}

pub fn ne(table: &Table) -> usize
    ensures { result ≡ ne_on table.now }
{
    (table[1] as usize).min(1_024)
}

pub fn nu(table: &Table) -> usize
    ensures { result ≡ nu_on table.now }
{
    (table[2] as usize).min(2_048)
}

// No end of an edge in use stands there or beyond.
pub fn reach(table: &Table) -> usize
    ensures { result ≡ reach_on table.now }
{
    (table[3] as usize).min(256)
}

// The weights that a reset leaves.
pub fn defaults(table: &Table) -> Weights
    ensures { result ≡ defaults_on table.now }
{
    let mut weights = [0u32; 1024];
    weights.copy_from_slice(&table[7_696..]);
    weights
}
