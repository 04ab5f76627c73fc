// The registers that a reset leaves.
ghost use Rattle.std.specs.Prelude.{◌≡◌};
ghost use Rattle.rules.specs.Graph as Graph;
ghost use Rattle.rules.specs.State as State;
ghost use Rattle.board.specs.Board.{vertices_on, nv_on};
ghost use Rattle.comb_lent.specs.Fresh.{fresh_word};

use board::{Board, Table};
use comb_vertex::execute::has_layer;
use rules::registers::VertexRegisters;
use rules::tables::Registers;

#[tactic(auto, unfolding(rules::specs::Graph::is_default_virtual))]
fn is_default_virtual(table: &Table, v: u8) -> bool
    ensures { result ≡ Graph.is_default_virtual (vertices_on table.now) v }
{
    board::vertex(table, v) / 65_536 % 2 == 1
}

// "With fusion on, every vertex with a layer starts virtual"
#[tactic(auto, using(laws::specs::Tests::tests))]
fn fresh_word(table: &Table, v: u8) -> u64
    ensures { result ≡ fresh_word (vertices_on table.now) v }
{
    let is_virtual = has_layer(table, v) || is_default_virtual(table, v);
    VertexRegisters::fresh(is_virtual).keep()
}

#[tactic(auto, using(laws::specs::Table::fills, crate::proofs::Blank::fresh_all))]
pub fn fresh_registers(board: &Board) -> Registers
    ensures { result ≡ State.fresh_registers (vertices_on board.now.table) (nv_on board.now.table) }
{
    let mut registers = [0; 256];
    for v in 0..board::nv(&board.table) {
        registers[v] = fresh_word(&board.table, v as u8);
    }
    registers
}
