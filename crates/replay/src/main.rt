// Reads an image and its session records from standard input, and writes the listing to standard output.
#![tactic(auto)]

mod input;

use crate::input::Held;
use batch::buffer;
use records::Stop;
use rules::graph::{Accepted, Graph};
use rules::state::State;
use session::run_chunk;
use std::io::Input;
use text_out::{gets_on, put, show_end, show_head, show_refusal};

// The input may never end, so the turns are counted, up to a number that no run reaches. Runtime and buffer are handed on apart, as `text_out` takes
// them.
fn replay(
    rt: &(impl Input + Print + Eprint),
    graph: Graph,
    first: State,
    input: &mut Held,
    out: &mut [u8],
) {
    let mut state = first;
    for _ in 0..u64::MAX {
        let done = run_chunk(graph, state, input.unused(), out);
        state = done.state;
        input.pass(done.used);
        if !put(rt, out, done.written) || !gets_on(rt, done.stop, done.used) {
            return;
        }
        if matches!(done.stop, Stop::WantsBytes) && !input.refill(rt) {
            show_end(rt, out, input.unused().len());
            return;
        }
    }
}

fn main(rt: HostRuntime) {
    let mut input = Held::read(&rt);
    let mut out = buffer::<65_536>();
    let decoder = comb::open(input.unused());
    match decoder.opening {
        Err(why) => {
            show_refusal(&rt, &mut out, why);
        }
        Ok(Accepted { units, start }) => {
            input.pass(start);
            if show_head(&rt, &mut out, decoder.graph, units) {
                replay(&rt, decoder.graph, decoder.state, &mut input, &mut out);
            }
        }
    }
}
