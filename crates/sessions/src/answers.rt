// A session's listing, from the decoder's calls by value: graph and state are handed on as these take them.
use crate::line::Line;
use crate::output::Output;
use crate::registers::show_registers;
use listing::{answer_line, bad_line, first_line, record_line};
use records::Answered;
use rules::graph::{Accepted, Graph};
use rules::state::{Searched, State};
use text_out::count;

fn show_answer(out: &mut Output<impl Print>, answered: Answered, state: &State) {
    out.line(|bytes, at| answer_line(bytes, at, answered, &state.stalled));
}

fn show_word(out: &mut Output<impl Print>, graph: Graph, state: State, word: u32) -> State {
    let cycle = comb::execute_word(graph, state, word);
    show_answer(out, Answered::Word(cycle.answer), &cycle.state);
    cycle.state
}

fn show_search(out: &mut Output<impl Print>, searched: Searched) -> State {
    let answered = Answered::Search(searched.answer, searched.state.maximum);
    show_answer(out, answered, &searched.state);
    searched.state
}

fn put_pairs(bytes: &mut [u8], at: usize, edges: &[u16]) -> usize {
    let mut line = Line { bytes, at };
    line.byte(b'p');
    for edge in edges {
        line.number(u32::from(*edge));
    }
    line.byte(b'\n');
    line.at
}

fn show_pairs(out: &mut Output<impl Print>, state: State) {
    let mut edges = [0u16; 1024];
    let Ok(n) = comb::list_pairs(state, &mut edges) else {
        return;
    };
    let pairs = &edges[..n.min(edges.len())];
    out.line(|bytes, at| put_pairs(bytes, at, pairs));
}

// A record's kind as it stands in the file; `show_records` lets 0 to 3 through.
fn show_record(
    out: &mut Output<impl Print>,
    graph: Graph,
    state: State,
    kind: u8,
    value: u32,
) -> State {
    match kind {
        0 => show_word(out, graph, state, value),
        1 => show_search(out, comb::search_to(graph, state, value)),
        2 => show_search(out, comb::search_on(graph, state)),
        _ => {
            show_pairs(out, state);
            state
        }
    }
}

fn show_records(out: &mut Output<impl Print>, graph: Graph, first: State, records: &[u8]) {
    let mut state = first;
    for record in records.chunks(5) {
        // A record that is cut short or of another kind is the last.
        let [kind @ 0..=3, a, b, c, d] = *record else {
            out.line(record_line);
            return;
        };
        state = show_record(out, graph, state, kind, u32::from_le_bytes([a, b, c, d]));
        show_registers(out, graph.nv, &state);
    }
}

pub(crate) fn show_session(out: &mut Output<impl Print>, session: &[u8]) {
    let decoder = comb::open(session);
    let graph = decoder.graph;
    match decoder.opening {
        Ok(Accepted { units, start }) => {
            out.line(|bytes, at| {
                first_line(bytes, at, count(graph.nv), count(graph.ne), count(units))
            });
            let records = &session[start.min(session.len())..];
            show_records(out, graph, decoder.state, records);
        }
        Err(why) => out.line(|bytes, at| bad_line(bytes, at, why)),
    }
}
