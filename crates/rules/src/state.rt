// A decoder's state over a graph.
use crate::finding::{Carried, Finding, Sought};
use crate::refusal::Refusal;
use crate::tables::{Registers, Stalls, Weights};

// Registers of the vertices, weight registers of the edges, the pair list as a flag for each edge, and the maximum.
#[derive(Clone, Copy, Debug, PartialEq, Eq)]
pub struct State {
    pub registers: Registers,
    pub weights: Weights,
    pub stalled: Stalls,
    pub maximum: u32,
}

#[derive(Clone, Copy, Debug, PartialEq, Eq)]
pub struct Cycle {
    pub state: State,
    pub answer: Result<Finding, Refusal>,
}

#[derive(Clone, Copy, Debug, PartialEq, Eq)]
pub struct WordCycle {
    pub state: State,
    pub answer: Result<Carried, Refusal>,
}

#[derive(Clone, Copy, Debug, PartialEq, Eq)]
pub struct Searched {
    pub state: State,
    pub answer: Sought,
}
