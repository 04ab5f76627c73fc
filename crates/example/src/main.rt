// The decoder as a library: an image, two defects, a search and the pairs, and what each call answers.
#![tactic(auto)]

use listing::refusal_number;
use rules::finding::{Finding, Length, Sought};
use rules::index::{NodeIndex, VertexIndex};
use rules::instruction::Instruction;
use std::fmt::{Display, Formatter, Result, Write};

// Offloading; two vertices, one edge, one unit. Both vertices plain; edge 0-1 of weight 4; a DefectMatch on it.
const IMAGE: [u8; 33] =
    *b"DCT\x01\x00\x02\x02\x00\x01\x00\x01\x00\x00\xff\xff\x00\xff\xff\x00\x00\x01\x00\x04\x00\x00\x00\xff\xff\x00\x00\x00\xff\xff";

// What this program says of a finding.
#[derive(Clone, Copy)]
struct Told(Finding);

impl Display for Told {
    fn fmt<W: Write>(&self, f: &mut Formatter<W>) -> Result {
        match self.0 {
            Finding::GrowLength(Length::NoLimit) => f.write_str("no limit"),
            Finding::GrowLength(Length::Ahead(n)) => write!(f, "may grow by {n}"),
            Finding::GrowLength(Length::Behind(n)) => write!(f, "overgrown by {n}"),
            Finding::Conflict(left, _) => write!(f, "conflict at vertex {}", left.vertex.0),
        }
    }
}

fn add_defect(n: u16) -> Instruction {
    Instruction::AddDefectVertex {
        vertex: VertexIndex(n),
        node: NodeIndex(n),
    }
}

fn main(rt: HostRuntime) {
    let decoder = comb::open(&IMAGE);
    let graph = decoder.graph;
    let one = comb::execute(graph, decoder.state, add_defect(0));
    let two = comb::execute(graph, one.state, add_defect(1));
    let _ = match two.answer {
        Ok(finding) => println!(rt; "{}", Told(finding)),
        Err(why) => println!(rt; "refused: {}", refusal_number(why)),
    };
    let searched = comb::search_to(graph, two.state, 1_000);
    let _ = match searched.answer {
        Sought::Found(finding, tally) => {
            println!(rt; "search: {}, after growth {}", Told(finding), tally.growth)
        }
        Sought::Stopped(why, _) | Sought::NotBegun(why) => println!(rt;
            "search: refused: {}",
            refusal_number(why)
        ),
    };
    let mut edges = [0u16; 1];
    let listed = comb::list_pairs(searched.state, &mut edges);
    let _ = match listed {
        Ok(n) => println!(rt; "pairs: {n}, the first is edge {}", edges[0]),
        Err(why) => println!(rt; "pairs: refused: {}", refusal_number(why)),
    };
}
