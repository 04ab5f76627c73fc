// Stage 2: which units hold, and what they stall. Clauses name table, registers and weights one by one,
// since the definitions and their laws are of lists.
#![tactic(auto)]

mod boundary;
mod defect_match;
mod edge;
mod fusion_match;
mod other;
mod stall_around;
mod unit;
mod vertex;
mod virtual_match;

ghost use Rattle.std.specs.Prelude.{◌≡◌};
ghost use Rattle.comb_offloading.specs.Unit.{says};
ghost use Rattle.comb_offloading.specs.Offload.{stalls_edge};
ghost use Rattle.comb_offloading.specs.On.{by_unit_on, by_units_on, stalls_on};

use crate::unit::OffloadingUnit;
use comb_edge::stage::Stage;
use rules::tables::{Stalls, VertexFlags};

// One unit: where it holds, the flags of the vertices that it stalls and of its edge are raised.
#[tactic(auto, using(laws::specs::Tests::tests), unfolding(crate::specs::Offload::by_unit, crate::specs::Offload::stalls_edge))]
fn offload_unit(
    unit: OffloadingUnit,
    stage: &Stage,
    vertices: &mut VertexFlags,
    stalled: &mut Stalls,
)
    ensures vertices_after { vertices.new ≡ by_unit_on stage.now.board.now.table stage.now.before.now stage.now.weights.now (stalls_on stage.now.board.now.table stage.now.before.now stage.now.weights.now) (says unit) vertices.old }
    ensures stalled_after { stalled.new ≡ by_unit_on stage.now.board.now.table stage.now.before.now stage.now.weights.now stalls_edge (says unit) stalled.old }
{
    if unit.holds(stage) {
        unit.stall(stage, vertices);
        // "Each holding unit stalls its edge"
        stalled[unit.edge().number] = true;
    }
}

// The units in use, one by one.
#[tactic(auto, using(crate::proofs::Turns::turns))]
pub fn offload(stage: &Stage, vertices: &mut VertexFlags, stalled: &mut Stalls)
    ensures vertices_after { vertices.new ≡ by_units_on stage.now.board.now.table stage.now.before.now stage.now.weights.now (stalls_on stage.now.board.now.table stage.now.before.now stage.now.weights.now) vertices.old }
    ensures stalled_after { stalled.new ≡ by_units_on stage.now.board.now.table stage.now.before.now stage.now.weights.now stalls_edge stalled.old }
{
    let table = &stage.board.table;
    for k in 0..board::nu(table) {
        let unit = OffloadingUnit::of(board::unit(table, k));
        offload_unit(unit, stage, vertices, stalled);
    }
}
