// A board, made of a graph.
#![tactic(auto)]

pub mod wire;

ghost use Rattle.std.specs.Prelude.{◌≡◌};
ghost use Rattle.rules.specs.Graph.{in_use};
ghost use Rattle.board.specs.Board.{graph_on};

use crate::wire::wire;
use board::{Board, Table};
use rules::graph::Graph;

// A graph's counts and tables, each in its place.
fn copy(graph: &Graph, table: &mut Table)
    ensures { in_use (graph_on table.new) ≡ in_use graph.now }
{
    table[0] = graph.nv.min(256) as u32;
    table[1] = graph.ne.min(1_024) as u32;
    table[2] = graph.nu.min(2_048) as u32;
    table[16..272].copy_from_slice(&graph.vertices);
    table[528..1_552].copy_from_slice(&graph.edges);
    table[1_552..3_600].copy_from_slice(&graph.units);
    table[7_696..].copy_from_slice(&graph.weights);
}

// All of it is in use.
pub fn lay(graph: Graph) -> Board
    ensures { graph_on result.table ≡ in_use graph }
{
    let mut table = [0u32; 8720];
    copy(&graph, &mut table);
    wire(&mut table);
    Board { table }
}
