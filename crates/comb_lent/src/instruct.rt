// An instruction: 13, or the cycle.
ghost use Rattle.std.specs.Prelude.{◌≡◌};
ghost use Rattle.rules.specs.Instruct as Instruct;
ghost use Rattle.board.specs.Board.{graph_on};

use crate::bounds::in_bounds;
use board::Board;
use comb_cycle::cycle::run_cycle;
use rules::finding::Finding;
use rules::instruction::Instruction;
use rules::refusal::Refusal;
use rules::state::State;

#[tactic(auto, using(crate::proofs::Ends::ends_in, crate::proofs::Ends::ends_out))]
pub fn instruct(
    board: &Board,
    state: &mut State,
    instruction: Instruction,
) -> Result<Finding, Refusal>
    ensures { record { state = state.new; answer = result } ≡ Instruct.instruct (graph_on board.now.table) state.old instruction }
{
    if in_bounds(instruction) {
        return run_cycle(board, state, instruction);
    }
    Err(Refusal::OutOfBounds)
}
