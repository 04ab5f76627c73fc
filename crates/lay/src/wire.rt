// The places of a table's edges, made in the table itself.
ghost use Rattle.std.specs.Prelude.{true, ◌≡◌, ◌<◌};
ghost use Rattle.rules.specs.Graph.{in_use};
ghost use Rattle.places.specs.Ends.{left, right, beyond};
ghost use Rattle.board.specs.Board.{graph_on, Laid};
ghost use Rattle.lay.specs.Put.{has_room, put_on};
ghost use Rattle.lay.specs.Placing.{Cleared, PlacedAll};

use board::Table;

// How many edges are in use, and how far their ends reach.
#[derive(Clone, Copy, Debug, PartialEq, Eq)]
struct Placed {
    ne: usize,
    reach: usize,
}

// The left end stands in the lowest 8 bits, the right end in the next 8.
fn ends(edge: u32) -> (usize, usize)
    ensures { (result.0 ≡ left edge) × (result.1 ≡ right edge) }
{
    ((edge % 256) as usize, (edge / 256 % 256) as usize)
}

// Whether an edge is no loop and finds a place at each end.
#[tactic(auto, using(laws::specs::Tests::tests), unfolding(crate::specs::Put::has_room))]
fn has_room(table: &Table, edge: u32) -> bool
    ensures { result ≡ has_room table.now edge }
{
    let (left, right) = ends(edge);
    left != right && table[left + 272] < 16 && table[right + 272] < 16
}

// The edge e at the next place of each end, with the other end.
#[tactic(auto, using(crate::proofs::Room::rooms), unfolding(crate::specs::Put::put_on))]
fn put(table: &mut Table, e: usize, edge: u32)
    requires { (e < 1_024) × (has_room table.old edge ≡ true) }
    ensures { table.new ≡ put_on table.old e edge }
{
    let (left, right) = ends(edge);
    let at_left = table[left + 272] as usize;
    let at_right = table[right + 272] as usize;
    table[left * 16 + at_left + 3_600] = (e + right * 1024) as u32;
    table[right * 16 + at_right + 3_600] = (e + left * 1024) as u32;
    table[left + 272] = (at_left + 1) as u32;
    table[right + 272] = (at_right + 1) as u32;
}

// The reach that takes in an edge too.
fn reach_to(reach: usize, edge: u32) -> usize
    ensures { result ≡ beyond reach edge }
{
    let (left, right) = ends(edge);
    reach.max(left + 1).max(right + 1)
}

// Up to an edge that is a loop or some end's 17th.
#[tactic(auto, using(crate::proofs::Wiring::placings))]
fn place_edges(table: &mut Table) -> Placed
    requires { Cleared table.old }
    ensures { PlacedAll table.old table.new result.ne result.reach }
{
    let n = board::ne(table);
    let mut reach: usize = 0;
    for e in 0..n {
        let edge = board::edge(table, e);
        if !has_room(table, edge) {
            return Placed { ne: e, reach };
        }
        put(table, e, edge);
        reach = reach_to(reach, edge);
    }
    Placed { ne: n, reach }
}

// Whatever the table held, its places are then those of its edges in use, and all of its graph is in use.
pub fn wire(table: &mut Table)
    ensures { Laid table.new × (graph_on table.new ≡ in_use (graph_on table.old)) }
{
    let nv = board::nv(table);
    let nu = board::nu(table);
    table[272..528].fill(0);
    table[3_600..7_696].fill(0);
    let placed = place_edges(table);
    table[0] = nv as u32;
    table[1] = placed.ne as u32;
    table[2] = nu as u32;
    table[3] = placed.reach as u32;
}
