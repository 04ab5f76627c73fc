// The graph that an image describes, with its flags applied. An entry is one number (specs/Graph.antt says what it holds).
use crate::index::{EdgeIndex, VertexIndex};
use crate::refusal::Refusal;

#[derive(Clone, Copy, Debug, PartialEq, Eq)]
pub enum OffloadingType {
    DefectMatch {
        edge: EdgeIndex,
    },
    VirtualMatch {
        edge: EdgeIndex,
        vertex: VertexIndex,
    },
    FusionMatch {
        edge: EdgeIndex,
        vertex: VertexIndex,
    },
}

// The first nv, ne and nu entries are in use. The counts stand beside the tables, and the weights beside the edges, since each value that a caller
// makes is answered (specs/Graph.antt, in_use): a table that knows its length would refuse some.
#[derive(Clone, Copy, Debug, PartialEq, Eq)]
pub struct Graph {
    pub nv: usize,
    pub ne: usize,
    pub nu: usize,
    pub vertices: [u32; 256],
    pub edges: [u32; 1024],
    pub weights: [u32; 1024],
    pub units: [u32; 2048],
}

// An image's own number of units, and where the session records start.
#[derive(Clone, Copy, Debug, PartialEq, Eq)]
pub struct Accepted {
    pub units: usize,
    pub start: usize,
}

// A refused image comes with a blank graph, on which every call is answered: so the graph stands beside the Result.
#[derive(Clone, Copy, Debug, PartialEq, Eq)]
pub struct Opened {
    pub graph: Graph,
    pub opening: Result<Accepted, Refusal>,
}
