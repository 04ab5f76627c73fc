// What a cycle's stages read of a graph and of the state that an instruction meets.
ghost use Rattle.std.specs.Prelude.{◌≡◌, ◌<◌, get_or};
ghost use Rattle.board.specs.Board.{edges_on, fetched_on};

use crate::Edge;
use board::{Board, Table};
use rules::tables::{Registers, Weights};

// What stage 1 reads: any table, the weight registers, and the registers before the instruction.
#[derive(Clone, Copy)]
pub struct Fetch<'a> {
    pub table: &'a Table,
    pub weights: &'a Weights,
    pub before: &'a Registers,
}

impl<'a> Fetch<'a> {
    pub fn edge(&self, e: usize) -> Edge
        requires { e < 1_024 }
        ensures { result.0 ≡ get_or (edges_on self.now.table.now) e 0 }
    {
        Edge(board::edge(self.table, e))
    }

    // The fetch weight of edge e; 0 for one that is not in use.
    #[tactic(auto, using(crate::proofs::Fetched::fetches))]
    pub fn weight(&self, e: usize) -> u32
        ensures { result ≡ get_or (fetched_on self.now.table.now self.now.before.now self.now.weights.now) e 0 }
    {
        if e < board::ne(self.table) {
            self.edge(e).post_fetch_weight(self.weights[e], self.before)
        } else {
            0
        }
    }
}

// The same of a board. Two structs: what needs only a table is promised of any table, and a board holds only a laid one.
#[derive(Clone, Copy)]
pub struct Stage<'a> {
    pub board: &'a Board,
    pub weights: &'a Weights,
    pub before: &'a Registers,
}

impl<'a> Stage<'a> {
    pub fn fetch(&self) -> Fetch<'a>
        ensures { (result.table.now ≡ self.now.board.now.table) × (result.weights.now ≡ self.now.weights.now) × (result.before.now ≡ self.now.before.now) }
    {
        Fetch {
            table: &self.board.table,
            weights: self.weights,
            before: self.before,
        }
    }
}
