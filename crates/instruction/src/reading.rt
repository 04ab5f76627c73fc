// What a word asks.
ghost use Rattle.std.specs.Prelude.{◌≡◌, ◌<◌, ◌^◌};
ghost use Rattle.rules.specs.Words.{field_of, is_kind, kind_at, speed_asked, asks, unpacked};
ghost use Rattle.instruction.specs.Place.{place};

use crate::kinds::{KINDS, Kind, room};
use rules::index::{LayerId, NodeIndex, VertexIndex};
use rules::instruction::{Asked, CompactGrowState, Field, Instruction};
use rules::refusal::Refusal;

#[tactic(auto, unfolding(rules::specs::Words::field_of))]
fn read_field(word: u32, field: Field) -> u32
    requires { (field.at < 32) × (field.width < 32) }
    ensures { result ≡ field_of field word }
{
    (word >> field.at) % room(field.width)
}

#[tactic(auto, using(laws::specs::Tests::tests), unfolding(rules::specs::Words::is_kind))]
fn is_kind(kind: Kind, word: u32) -> bool
    ensures { result ≡ is_kind (kind_at (place kind)) word }
{
    let bits = kind.bits();
    let low = Field {
        at: 0,
        width: bits.lows,
    };
    let code = Field {
        at: 3,
        width: bits.codes,
    };
    read_field(word, low) == bits.low && read_field(word, code) == bits.code
}

// "Speed 3 [gives] 12." The one place where a speed's code is refused: a `TryFrom` would have an error that is turned into 12 here.
#[tactic(auto, using(crate::proofs::Unpacking::no_speed), unfolding(rules::specs::Words::speed_asked))]
fn speed_asked(node: NodeIndex, code: u16) -> Result<Asked, Refusal>
    ensures { result ≡ speed_asked node code }
{
    let speed = match code {
        0 => CompactGrowState::Stay,
        1 => CompactGrowState::Grow,
        2 => CompactGrowState::Shrink,
        _ => {
            return Err(Refusal::NotCarried);
        }
    };
    Ok(Asked::Says(Instruction::SetSpeed { node, speed }))
}

// What a kind asks with a in A and b in B: a length for Grow, indices for the others.
#[tactic(auto, unfolding(rules::specs::Words::asks))]
fn asked(kind: Kind, a: u32, b: u32) -> Result<Asked, Refusal>
    requires { (place kind < 6 → a < 2 ^ 16) × (b < 2 ^ 16) }
    ensures { result ≡ asks (place kind) a b }
{
    let instruction = match kind {
        Kind::SetSpeed => {
            return speed_asked(NodeIndex(a as u16), b as u16);
        }
        Kind::SetBlossom => Instruction::SetBlossom {
            node: NodeIndex(a as u16),
            blossom: NodeIndex(b as u16),
        },
        Kind::AddDefectVertex => Instruction::AddDefectVertex {
            vertex: VertexIndex(a as u16),
            node: NodeIndex(b as u16),
        },
        Kind::FindObstacle => Instruction::FindObstacle,
        Kind::Reset => {
            return Ok(Asked::Reset);
        }
        Kind::LoadDefectsExternal => Instruction::LoadDefectsExternal {
            time: LayerId(a as u16),
        },
        Kind::Grow => Instruction::Grow { length: a },
    };
    Ok(Asked::Says(instruction))
}

// The first kind that the word has says what it asks. "Other codes, low 11 and speed 3 give 12."
#[tactic(auto, using(crate::proofs::Unpacking::reading, crate::proofs::Unpacking::at_place))]
pub fn unpack(word: u32) -> Result<Asked, Refusal>
    ensures { result ≡ unpacked word }
{
    for kind in KINDS {
        if is_kind(kind, word) {
            let bits = kind.bits();
            return asked(kind, read_field(word, bits.a), read_field(word, bits.b));
        }
    }
    Err(Refusal::NotCarried)
}
