// The word that asks it. "The Rust packers lose or misplace high bits of large fields; ours give 13."
ghost use Rattle.std.specs.Prelude.{◌≡◌, ◌<◌, ◌*◌, ◌^◌};
ghost use Rattle.rules.specs.Words.{kind_at, word_of, packed, packed_reset};
ghost use Rattle.instruction.specs.Sound.{Fits};
ghost use Rattle.instruction.specs.Place.{place};
ghost use Rattle.instruction.specs.Packing.{packed_as};

use crate::kinds::{Kind, room};
use rules::instruction::{Instruction, WordKind};
use rules::refusal::Refusal;

fn placed(value: u32, at: u32) -> u32
    requires { (at < 32) × (value * 2 ^ at < 2 ^ 32) }
    ensures { result ≡ value * 2 ^ at }
{
    value << at
}

// The bits that each word of a kind has, and the two numbers in their fields.
#[tactic(auto, unfolding(rules::specs::Words::word_of))]
fn word_of(bits: WordKind, a: u32, b: u32) -> u32
    requires { Fits bits a b }
    ensures { result ≡ word_of bits a b }
{
    placed(a, bits.a.at) + (placed(b, bits.b.at) + (placed(bits.code, 3) + bits.low))
}

// The word of a kind with a in A and b in B; 13 where one does not fit its field.
#[tactic(auto, using(crate::proofs::Fields::fits))]
fn pack_as(kind: Kind, a: u32, b: u32) -> Result<u32, Refusal>
    ensures { result ≡ packed_as (kind_at (place kind)) a b }
{
    let bits = kind.bits();
    if room(bits.a.width) <= a || room(bits.b.width) <= b {
        return Err(Refusal::OutOfBounds);
    }
    Ok(word_of(bits, a, b))
}

#[tactic(auto, using(crate::proofs::Bounds::packing))]
pub fn pack(instruction: Instruction) -> Result<u32, Refusal>
    ensures { result ≡ packed instruction }
{
    match instruction {
        Instruction::SetSpeed { node, speed } => pack_as(
            Kind::SetSpeed,
            u32::from(node.0),
            u32::from(speed),
        ),
        Instruction::SetBlossom { node, blossom } => pack_as(
            Kind::SetBlossom,
            u32::from(node.0),
            u32::from(blossom.0),
        ),
        Instruction::AddDefectVertex { vertex, node } => pack_as(
            Kind::AddDefectVertex,
            u32::from(vertex.0),
            u32::from(node.0),
        ),
        Instruction::FindObstacle => pack_as(Kind::FindObstacle, 0, 0),
        Instruction::Grow { length } => pack_as(Kind::Grow, length, 0),
        Instruction::LoadDefectsExternal { time } => pack_as(
            Kind::LoadDefectsExternal,
            u32::from(time.0),
            0,
        ),
    }
}

#[tactic(auto, using(crate::proofs::Bounds::reset_packs))]
pub fn pack_reset() -> Result<u32, Refusal>
    ensures { result ≡ packed_reset }
{
    pack_as(Kind::Reset, 0, 0)
}
