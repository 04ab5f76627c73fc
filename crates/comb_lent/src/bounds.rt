// "13: node, vertex or layer over 32,767, Grow length outside 0..67,108,863"
ghost use Rattle.std.specs.Prelude.{◌≡◌};
ghost use Rattle.rules.specs.Words.{in_bounds};

use rules::instruction::Instruction;

#[tactic(auto, using(laws::specs::Tests::tests), unfolding(rules::specs::Words::in_bounds))]
pub(crate) fn in_bounds(instruction: Instruction) -> bool
    ensures { result ≡ in_bounds instruction }
{
    match instruction {
        Instruction::SetSpeed { node, .. } => node.0 <= 32_767,
        Instruction::SetBlossom { node, blossom } => node.0 <= 32_767 && blossom.0 <= 32_767,
        Instruction::AddDefectVertex { vertex, node } => vertex.0 <= 32_767 && node.0 <= 32_767,
        Instruction::FindObstacle => true,
        Instruction::Grow { length } => length <= 67_108_863,
        Instruction::LoadDefectsExternal { time } => time.0 <= 32_767,
    }
}
