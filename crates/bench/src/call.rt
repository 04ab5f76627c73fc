// The calls that a session's records ask, on one decoder's state, and what each counts for: its findings, growth steps or pairs.
use answer::answer_record;
use board::Board;
use comb_lent::pairs::list_pairs;
use records::{Answered, value_at};
use rules::finding::{Carried, Sought};
use rules::state::State;

fn of_search(answer: Sought) -> u64 {
    match answer {
        Sought::NotBegun(_) => 0,
        Sought::Found(_, tally) => 1 + u64::from(tally.steps),
        Sought::Stopped(_, tally) => u64::from(tally.steps),
    }
}

fn of_pairs(state: &State) -> u64 {
    let mut pairs = [0; 1024];
    list_pairs(&state.stalled, &mut pairs).map_or(0, |n| n as u64)
}

fn count_of(answered: Answered, state: &State) -> u64 {
    match answered {
        Answered::Word(answer) => u64::from(matches!(answer, Ok(Carried::Found(_)))),
        Answered::Search(answer, _) => of_search(answer),
        Answered::Pairs => of_pairs(state),
        Answered::Unknown => 0,
    }
}

// The whole records, from the first maximum on. Counted to 2^64, and then anew.
pub(crate) fn run_records(board: &Board, state: &mut State, records: &[u8]) -> u64 {
    state.maximum = 2_147_483_647;
    let mut sum = 0u64;
    for record in records.chunks_exact(5) {
        let answered = answer_record(board, state, record[0], value_at(record, 1));
        sum = sum.wrapping_add(count_of(answered, state));
    }
    sum
}
