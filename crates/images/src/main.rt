// Opens each image of standard input, and writes a line for it: `DCT`, V, E, the number of units, where its session records start and a
// checksum of its graph, or `bad` and the refusal's number. Each image comes after its length in four bytes, the low byte first.
#![tactic(auto)]

use batch::each_session;
use listing::refusal_number;
use rules::graph::{Accepted, Graph, Opened};

fn mixed(sum: u32, words: &[u32]) -> u32 {
    words.iter().fold(sum, |sum, word| {
        sum.wrapping_mul(1_000_003).wrapping_add(*word)
    })
}

// Table by table: over a chain of the four a checksum took seven times as many instructions.
fn checksum(graph: &Graph, units: u32) -> u32 {
    let sum = mixed(mixed(units, &graph.vertices), &graph.edges);
    mixed(mixed(sum, &graph.weights), &graph.units)
}

fn show(rt: &impl Print, opened: Opened) {
    let graph = opened.graph;
    let _ = match opened.opening {
        Ok(Accepted { units, start }) => {
            let sum = checksum(&graph, (units % 65_536) as u32);
            println!(rt; "DCT {} {} {} {start} {sum}", graph.nv, graph.ne, graph.nu)
        }
        Err(why) => println!(rt; "bad {}", refusal_number(why)),
    };
}

fn main(rt: HostRuntime) {
    each_session(&rt, |_, image| show(&rt, image::open(image)));
}
