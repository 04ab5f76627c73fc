// Stage 3 over all vertices.
#![tactic(auto, using(laws::specs::Tests::tests), unfolding(rules::specs::Graph::layer_of, rules::specs::Graph::has_layer, rules::specs::Execute::waits, rules::specs::Execute::still, rules::specs::Execute::execute_at))]

ghost use Rattle.std.specs.Prelude.{false, ◌≡◌, get_or};
ghost use Rattle.laws.specs.Choice.{◌or◌};
ghost use Rattle.rules.specs.Execute as Execute;
ghost use Rattle.rules.specs.Graph as Graph;
ghost use Rattle.rules.specs.Registers as Registers;
ghost use Rattle.board.specs.Board.{vertices_on, nv_on};
ghost use Rattle.comb_vertex.specs.Execution as Stage;
ghost use Rattle.comb_vertex.specs.Execution.{execution, executed_into};

use board::{Board, Table};
use rules::index::{LayerId, VertexIndex};
use rules::instruction::Instruction;
use rules::refusal::Refusal;
use rules::registers::{MoveError, VertexRegisters, at};
use rules::tables::{Registers, VertexFlags};

fn layer_of(table: &Table, v: u8) -> LayerId
    ensures { result.0 ≡ Graph.layer_of (vertices_on table.now) v }
{
    LayerId((board::vertex(table, v) % 65_536) as u16)
}

pub fn has_layer(table: &Table, v: u8) -> bool
    ensures { result ≡ Graph.has_layer (vertices_on table.now) v }
{
    layer_of(table, v).0 < 32_768
}

// "virtual with a layer"
pub fn waits(table: &Table, v: u8, registers: VertexRegisters) -> bool
    ensures { result ≡ Execute.waits (vertices_on table.now) v registers }
{
    has_layer(table, v) && registers.is_virtual
}

fn is_still(table: &Table, registers: &Registers, stalled: &VertexFlags, v: u8) -> bool
    ensures { result ≡ (get_or stalled.now v false or Execute.waits (vertices_on table.now) v (Registers.at registers.now v)) }
{
    stalled[v as usize] || waits(table, v, at(registers, v))
}

fn execute_at(
    table: &Table,
    registers: &Registers,
    stalled: &VertexFlags,
    instruction: Instruction,
    v: u8,
) -> Result<VertexRegisters, MoveError>
    ensures { result ≡ Execute.execute_at (vertices_on table.now) registers.now stalled.now instruction v }
{
    at(registers, v).execute(
        instruction,
        VertexIndex(u16::from(v)),
        layer_of(table, v),
        is_still(table, registers, stalled, v),
    )
}

fn is_moving(registers: VertexRegisters) -> bool
    ensures { result ≡ (Registers.growing registers.speed or Registers.shrinking registers.speed) }
{
    let speed = registers.speed;
    speed.is_growing() || speed.is_shrinking()
}

// Whether the instruction may change the vertex v with these registers: most it does not, and their words stand as they are.
fn concerns(instruction: Instruction, v: u8, registers: VertexRegisters) -> bool
    ensures { result ≡ Stage.concerns instruction v registers }
{
    match instruction {
        Instruction::SetSpeed { node, .. } => registers.node == node,
        Instruction::SetBlossom { node, .. } => registers.belongs_to(node),
        Instruction::AddDefectVertex { vertex, .. } => vertex == VertexIndex(u16::from(v)),
        Instruction::FindObstacle => false,
        Instruction::Grow { .. } => is_moving(registers),
        Instruction::LoadDefectsExternal { .. } => registers.is_virtual,
    }
}

// The registers of the vertices after the instruction, into a lent table; "lowest vertex decides", and it and those after it are not written.
#[tactic(auto, using(crate::proofs::Executing::executing))]
pub fn execute(
    board: &Board,
    registers: &Registers,
    stalled: &VertexFlags,
    instruction: Instruction,
    out: &mut Registers,
) -> Result<(), Refusal>
    ensures value { result ≡ execution (Execute.execute_refusal (vertices_on board.now.table) registers.now stalled.now instruction (nv_on board.now.table)) }
    ensures out_after { out.new ≡ executed_into (vertices_on board.now.table) registers.now stalled.now instruction (nv_on board.now.table) out.old }
{
    let table = &board.table;
    for v in 0..board::nv(table) {
        if concerns(instruction, v as u8, at(registers, v as u8)) {
            out[v] = execute_at(table, registers, stalled, instruction, v as u8)?.keep();
        } else {
            out[v] = registers[v];
        }
    }
    Ok(())
}
