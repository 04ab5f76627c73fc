// A word: 12, a reset, or the instruction that it carries.
ghost use Rattle.std.specs.Prelude.{◌≡◌};
ghost use Rattle.rules.specs.Instruct as Instruct;
ghost use Rattle.board.specs.Board.{graph_on};

use crate::instruct::instruct;
use crate::reset::fresh_registers;
use board::Board;
use instruction::unpack;
use rules::finding::Carried;
use rules::instruction::Asked;
use rules::refusal::Refusal;
use rules::state::State;
use rules::tables::no_flags;

#[tactic(auto, using(crate::proofs::Ends::words))]
pub fn carry_word(board: &Board, state: &mut State, word: u32) -> Result<Carried, Refusal>
    ensures { record { state = state.new; answer = result } ≡ Instruct.word_run (graph_on board.now.table) state.old word }
{
    match unpack(word)? {
        Asked::Says(instruction) => Ok(Carried::Found(instruct(board, state, instruction)?)),
        Asked::Reset => {
            state.weights = board::defaults(&board.table);
            state.registers = fresh_registers(board);
            state.stalled = no_flags();
            Ok(Carried::Reset)
        }
    }
}
