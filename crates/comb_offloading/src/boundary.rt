// What a VirtualMatch and a FusionMatch have in common.
ghost use Rattle.std.specs.Prelude.{◌≡◌};
ghost use Rattle.laws.specs.Choice.{◌and◌};
ghost use Rattle.rules.specs.Registers as Registers;
ghost use Rattle.comb_offloading.specs.Vertex.{eager_by};
ghost use Rattle.comb_offloading.specs.On.{tight_on};

use crate::edge::EdgeAt;
use crate::vertex::is_eager;
use comb_edge::stage::Stage;
use rules::registers::at;

// "edge tight, named end virtual, other end a growing defect"
#[tactic(auto, using(laws::specs::Tests::tests))]
pub(crate) fn meets_virtual(edge: EdgeAt, vertex: u8, regular: u8, stage: &Stage) -> bool
    ensures { result ≡ ((Registers.at stage.now.before.now vertex).is_virtual and eager_by stage.now.before.now regular and tight_on stage.now.board.now.table stage.now.before.now stage.now.weights.now edge.number) }
{
    at(stage.before, vertex).is_virtual && is_eager(regular, stage.before) && edge.is_tight(stage)
}
