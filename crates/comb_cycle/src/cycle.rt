// One instruction's cycle on a lent state: stages 1 to 8.
ghost use Rattle.std.specs.Prelude.{◌≡◌};
ghost use Rattle.board.specs.Board.{graph_on};
ghost use Rattle.rules.specs.Instruct.{step};

use crate::settled::Settled;
use crate::stages;
use board::Board;
use comb_edge::stage::Stage;
use comb_settle::settle;
use rules::finding::Finding;
use rules::instruction::Instruction;
use rules::refusal::Refusal;
use rules::state::State;
use rules::tables::{Stalls, VertexFlags, no_flags};

// Units stall (stages 1 and 2), vertices execute (3) and settle, reporting (4 to 7), edges report, and all is reduced (7 and 8). A cycle that is
// refused leaves the state as it was.
#[tactic(auto, using(crate::proofs::Cycling::cycles))]
pub fn run_cycle(
    board: &Board,
    state: &mut State,
    instruction: Instruction,
) -> Result<Finding, Refusal>
    ensures { record { state = state.new; answer = result } ≡ step (graph_on board.now.table) state.old instruction }
{
    let before = state.registers;
    let stage = Stage {
        board,
        weights: &state.weights,
        before: &before,
    };
    let mut still: VertexFlags = no_flags();
    let mut held: Stalls = no_flags();
    stages::stall_units(&stage, &mut still, &mut held);
    let mut executed = before;
    stages::execute_all(&stage, &still, instruction, &mut executed)?;
    let mut shadows = executed;
    let found = settle(
        &stage,
        &executed,
        &still,
        &mut state.registers,
        &mut shadows,
    );
    let settled = Settled {
        stage,
        registers: &state.registers,
        shadows: &shadows,
    };
    let Ok(finding) = settled.respond(found) else {
        state.registers = before;
        return Err(Refusal::OddRemaining);
    };
    stages::keep_flags(board::nu(&board.table), &held, &mut state.stalled);
    Ok(finding)
}
