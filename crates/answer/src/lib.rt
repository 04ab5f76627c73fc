// A session record answered: its call is made, and no text.
#![tactic(auto)]

ghost use Rattle.std.specs.Prelude.{◌≡◌};
ghost use Rattle.records.specs.Answered as Records;
ghost use Rattle.board.specs.Board.{graph_on};

use board::Board;
use comb_lent::search::{search_on, search_to};
use comb_lent::word::carry_word;
use records::Answered;
use rules::state::State;

// "0: instruction word. 1: search with the value as new maximum. 2: search with what is left. 3: list pairs."
// An enum of the kinds would be made of its number only to be matched here, where each stands once.
#[tactic(auto, using(crate::proofs::ByKind::kinds))]
pub fn answer_record(board: &Board, state: &mut State, kind: u8, value: u32) -> Answered
    ensures { record { state = state.new; answered = result } ≡ Records.answer (graph_on board.now.table) state.old kind value }
{
    match kind {
        0 => Answered::Word(carry_word(board, state, value)),
        1 => Answered::Search(search_to(board, state, value), state.maximum),
        2 => Answered::Search(search_on(board, state), state.maximum),
        3 => Answered::Pairs,
        _ => Answered::Unknown,
    }
}
