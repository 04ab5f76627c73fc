// Answers a session from memory, on one decoder, as often as the first four bytes of standard input say, the low byte first, and writes how many
// findings, growth steps and pairs that gave in all. The session comes after them. bench/run times it: meanwhile no line is made, and nothing is
// read or written.
#![tactic(auto)]

mod call;

use crate::call::run_records;
use batch::{buffer, read_full};
use lay::lay;
use rules::graph::{Accepted, Graph};
use rules::state::State;
use std::io::Input;

fn run_all(graph: Graph, first: State, records: &[u8], times: u32) -> u64 {
    let board = lay(graph);
    let mut state = first;
    let mut sum = 0u64;
    for _ in 0..times {
        sum = sum.wrapping_add(run_records(&board, &mut state, records));
    }
    sum
}

fn show(rt: &impl Print, session: &[u8], times: u32) {
    let decoder = comb::open(session);
    let _ = match decoder.opening {
        Err(_) => rt.println("bad"),
        Ok(Accepted { units: _, start }) => {
            let records = &session[start.min(session.len())..];
            rt.println(run_all(decoder.graph, decoder.state, records, times))
        }
    };
}

fn main(rt: HostRuntime) {
    let mut reader = rt.reader();
    let mut times = [0; 4];
    read_full(&mut reader, &mut times);
    let mut session = buffer::<1_048_576>();
    let n = read_full(&mut reader, &mut session);
    show(&rt, &session[..n], u32::from_le_bytes(times));
}
