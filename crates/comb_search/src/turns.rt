// A turn of a search, and how many more steps repeat it.
ghost use Rattle.std.specs.Prelude.{◌≡◌, ◌≤◌};
ghost use Rattle.rules.specs.Search.{begun, turn};
ghost use Rattle.board.specs.Board.{graph_on};
ghost use Rattle.comb_search.specs.Repeats.{Repeats, RepeatsTurn};
ghost use Rattle.comb_search.specs.Turn.{once, took};

use crate::turn::{Turn, take_turn};
use board::Board;
use rules::refusal::Refusal;
use rules::state::State;
use rules::tables::Registers;

// A step that leaves the registers as they were is found again while its length is left: such steps are taken together.
fn repeats(before: &Registers, after: &Registers, left: u32, length: u32) -> u32
    requires { 1 ≤ length }
    ensures { Repeats before.now after.now left length result }
{
    if before == after { left / length } else { 0 }
}

// The registers before the turn are kept, to see whether it left them as they were.
fn take_watched(board: &Board, state: &mut State) -> Result<Turn, Refusal>
    ensures turn_after { record { state = state.new; turn = once result } ≡ took (turn (graph_on board.now.table) (begun state.old)) }
    ensures repeats_turn { RepeatsTurn state.old state.new result }
{
    let before = state.registers;
    let turn = take_turn(board, state)?;
    let Turn::Grew { length, .. } = turn else {
        return Ok(turn);
    };
    let more = repeats(&before, &state.registers, state.maximum, length);
    Ok(Turn::Grew { length, more })
}

// Most searches end within a few steps: the first 16 are not watched, since that takes a copy of the registers.
pub(crate) fn take_turns(board: &Board, state: &mut State, steps: u32) -> Result<Turn, Refusal>
    ensures turn_after { record { state = state.new; turn = once result } ≡ took (turn (graph_on board.now.table) (begun state.old)) }
    ensures repeats_turn { RepeatsTurn state.old state.new result }
{
    if steps >= 16 {
        return take_watched(board, state);
    }
    take_turn(board, state)
}
