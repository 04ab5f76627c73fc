// Replays each session of standard input in chunks of 1 to 17 bytes, so that records are cut at every place, and writes the listings with a line
// `=` between them.
#![tactic(auto)]

use batch::{buffer, each_session};
use rules::graph::{Accepted, Graph};
use rules::state::State;
use session::run_chunk;
use std::io::Input;
use text_out::{gets_on, put, show_end, show_head, show_refusal};

// Each chunk is longer than the one before it, up to 17 bytes, so the records get on. The turns are counted, up to a number that no run reaches.
// Runtime and buffer are handed on apart, as `text_out` takes them.
fn show_records(
    rt: &(impl Print + Eprint),
    graph: Graph,
    first: State,
    records: &[u8],
    out: &mut [u8],
) {
    let mut state = first;
    let mut left = records;
    for turn in 0..usize::MAX {
        let piece = turn % 17 + 1;
        let done = run_chunk(graph, state, &left[..piece.min(left.len())], out);
        state = done.state;
        left = &left[done.used..];
        put(rt, out, done.written);
        if !gets_on(rt, done.stop, done.used) {
            return;
        }
        if piece == 17 && done.used == 0 {
            show_end(rt, out, left.len());
            return;
        }
    }
}

fn show(rt: &(impl Print + Eprint), session: &[u8], out: &mut [u8]) {
    let decoder = comb::open(session);
    match decoder.opening {
        Err(why) => {
            show_refusal(rt, out, why);
        }
        Ok(Accepted { units, start }) => {
            show_head(rt, out, decoder.graph, units);
            let records = &session[start.min(session.len())..];
            show_records(rt, decoder.graph, decoder.state, records, out);
        }
    }
}

fn main(rt: HostRuntime) {
    let mut out = buffer::<65_536>();
    each_session(&rt, |number, session| {
        if 0 < number {
            let _ = rt.print("=\n");
        }
        show(&rt, session, &mut out);
    });
}
