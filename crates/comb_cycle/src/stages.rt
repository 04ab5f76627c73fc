// The stages of one cycle, each a table made from the ones before it.
ghost use Rattle.std.specs.Prelude.{false, ◌≡◌, replicate};
ghost use Rattle.comb_cycle.specs.On.{stalled_vertices_on, stalled_edges_on, RanOn};

use comb_edge::stage::Stage;
use comb_offloading::offload;
use comb_vertex::execute::execute;
use rules::instruction::Instruction;
use rules::refusal::Refusal;
use rules::tables::{Registers, Stalls, VertexFlags};

// Stage 2, into blank tables.
pub(crate) fn stall_units(stage: &Stage, vertices: &mut VertexFlags, stalled: &mut Stalls)
    requires { (vertices.old ≡ replicate 256 false) × (stalled.old ≡ replicate 1_024 false) }
    ensures vertices_after { vertices.new ≡ stalled_vertices_on stage.now }
    ensures stalled_after { stalled.new ≡ stalled_edges_on stage.now }
{
    offload(stage, vertices, stalled)
}

// The flags that stage 2 raised, into the lent table. Without units there are none, and a table is cleared faster than copied.
pub(crate) fn keep_flags(nu: usize, held: &Stalls, stalled: &mut Stalls)
    requires { nu ≡ 0 → held.now ≡ replicate 1_024 false }
    ensures { stalled.new ≡ held.now }
{
    if nu == 0 {
        *stalled = [false; 1024];
    } else {
        *stalled = *held;
    }
}

// Stage 3, into a table that holds the registers before it. "FindObstacle: none"
#[tactic(auto, using(crate::proofs::Staging::ran))]
pub(crate) fn execute_all(
    stage: &Stage,
    stalled: &VertexFlags,
    instruction: Instruction,
    executed: &mut Registers,
) -> Result<(), Refusal>
    requires { executed.old ≡ stage.now.before.now }
    ensures { RanOn stage.now stalled.now instruction result executed.new }
{
    match instruction {
        Instruction::FindObstacle => Ok(()),
        _ => execute(stage.board, stage.before, stalled, instruction, executed),
    }
}
