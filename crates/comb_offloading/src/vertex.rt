// One vertex of the tables, by its number.
ghost use Rattle.std.specs.Prelude.{◌≡◌};
ghost use Rattle.rules.specs.Units as Units;
ghost use Rattle.comb_offloading.specs.Vertex.{eager_by};
ghost use Rattle.comb_offloading.specs.On.{tight_count_on};

use comb_edge::stage::Stage;
use comb_vertex::tight;
use rules::registers::at;
use rules::tables::{Registers, VertexFlags};

// A growing defect.
#[tactic(auto, using(laws::specs::Tests::tests), unfolding(crate::specs::Vertex::eager_by))]
pub(crate) fn is_eager(v: u8, registers: &Registers) -> bool
    ensures { result ≡ eager_by registers.now v }
{
    let seen = at(registers, v);
    seen.is_defect && seen.speed.is_growing()
}

#[tactic(auto, using(crate::proofs::Counted::count_is))]
pub(crate) fn tight_count(v: u8, stage: &Stage) -> u32
    ensures { result ≡ tight_count_on stage.now.board.now.table stage.now.before.now stage.now.weights.now v }
{
    tight::tight_count(v, &stage.fetch())
}

pub(crate) fn raise(v: u8, vertices: &mut VertexFlags)
    ensures { vertices.new ≡ Units.raise vertices.old v }
{
    vertices[usize::from(v)] = true;
}
