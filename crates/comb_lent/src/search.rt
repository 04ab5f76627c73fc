// The searches.
ghost use Rattle.std.specs.Prelude.{◌≡◌};
ghost use Rattle.rules.specs.Search as Rules;
ghost use Rattle.board.specs.Board.{graph_on};

use board::Board;
use comb_search::search::find_obstacle;
use rules::finding::Sought;
use rules::refusal::Refusal;
use rules::state::State;

// Search with what is left.
#[tactic(auto, using(crate::proofs::Ends::ends_sought))]
pub fn search_on(board: &Board, state: &mut State) -> Sought
    ensures { record { state = state.new; answer = result } ≡ Rules.search_on (graph_on board.now.table) state.old }
{
    find_obstacle(board, state)
}

// Search with a new maximum. "13: .. negative maximum; decoder as before"
#[tactic(auto, using(crate::proofs::Ends::ends_to, crate::proofs::Ends::ends_negative))]
pub fn search_to(board: &Board, state: &mut State, value: u32) -> Sought
    ensures { record { state = state.new; answer = result } ≡ Rules.search_to (graph_on board.now.table) state.old value }
{
    if value < 2_147_483_648 {
        state.maximum = value;
        return search_on(board, state);
    }
    Sought::NotBegun(Refusal::OutOfBounds)
}
