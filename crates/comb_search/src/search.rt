// Document 01, "Search".
ghost use Rattle.std.specs.Prelude.{◌≡◌, suc};
ghost use Rattle.rules.specs.Search.{begun, told, walked};
ghost use Rattle.board.specs.Board.{graph_on};

use crate::turn::Turn;
use crate::turns::take_turns;
use board::Board;
use rules::finding::{Sought, Tally};
use rules::state::State;

pub fn find_obstacle(board: &Board, state: &mut State) -> Sought
    ensures { record { state = state.new; answer = result } ≡ told (walked (graph_on board.now.table) (suc state.old.maximum) (begun state.old)) }
{
    let maximum = state.maximum;
    let mut steps = 0;
    // No `for`: a turn ends the search by what it finds, and one turn may stand for many steps.
    loop {
        let growth = maximum - state.maximum;
        let tally = Tally { growth, steps };
        match take_turns(board, state, steps) {
            Ok(Turn::Found(finding)) => return Sought::Found(finding, tally),
            Err(refusal) => return Sought::Stopped(refusal, tally),
            Ok(Turn::Grew { length, more }) => {
                state.maximum -= more * length;
                steps += 1 + more;
            }
        }
    }
}
