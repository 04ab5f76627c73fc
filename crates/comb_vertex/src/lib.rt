// Stages 3 to 7 over a graph's vertices.
#![tactic(auto)]

pub mod execute;
pub mod peer;
pub mod tight;

ghost use Rattle.std.specs.Prelude.{◌≡◌, ◌≤◌};
ghost use Rattle.board.specs.Board.{degrees_on};
ghost use Rattle.comb_vertex.specs.Walked.{degree_of};

use board::Table;

// How many places of a vertex are in use: no more than it has.
#[tactic(auto, unfolding(crate::specs::Walked::degree_of))]
fn degree_of(table: &Table, v: u8) -> u32
    ensures { (result ≡ degree_of (degrees_on table.now) v) × (result ≤ 16) }
{
    board::degree(table, v).min(16)
}
