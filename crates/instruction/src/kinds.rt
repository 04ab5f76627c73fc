// The kinds of words: packing and reading both go by what bits each has.
ghost use Rattle.std.specs.Prelude.{◌≡◌, ◌<◌, ◌^◌};
ghost use Rattle.rules.specs.Words.{kind_at, kind_of, no_field};
ghost use Rattle.instruction.specs.Sound.{Sound};
ghost use Rattle.instruction.specs.Place.{place};

use rules::instruction::{Field, WordKind};

// In the order of document 01, in which a word is tried.
#[derive(Clone, Copy, Debug, PartialEq, Eq)]
pub(crate) enum Kind {
    SetSpeed,
    SetBlossom,
    AddDefectVertex,
    FindObstacle,
    Reset,
    LoadDefectsExternal,
    Grow,
}

pub(crate) const KINDS: [Kind; 7] = [
    Kind::SetSpeed,
    Kind::SetBlossom,
    Kind::AddDefectVertex,
    Kind::FindObstacle,
    Kind::Reset,
    Kind::LoadDefectsExternal,
    Kind::Grow,
];

// "Field A is bits 17..31, B bits 2..16."
const A: Field = Field { at: 17, width: 15 };

const B: Field = Field { at: 2, width: 15 };

const SPEED: Field = Field { at: 15, width: 2 };

const LENGTH: Field = Field { at: 6, width: 26 };

const NO_FIELD: Field = Field { at: 6, width: 0 };

fn plain(low: u32, lows: u32, a: Field, b: Field) -> WordKind
    ensures { result ≡ kind_of low lows 0 0 a b }
{
    WordKind {
        low,
        lows,
        code: 0,
        codes: 0,
        a,
        b,
    }
}

// The code is a pattern of bits, which `Kind` has a name for.
fn extended(code: u32, a: Field) -> WordKind
    ensures { result ≡ kind_of 4 3 code 3 a no_field }
{
    WordKind {
        low: 0b100,
        lows: 3,
        code,
        codes: 3,
        a,
        b: NO_FIELD,
    }
}

impl Kind {
    // What bits the words of a kind have.
    pub(crate) fn bits(self) -> WordKind
        ensures { (result ≡ kind_at (place self)) × Sound result }
    {
        match self {
            // "SetSpeed: A node, speed bits 15..16, low bits 000."
            Kind::SetSpeed => plain(0b000, 3, A, SPEED),
            // "SetBlossom: A node, B blossom, low 01."
            Kind::SetBlossom => plain(0b01, 2, A, B),
            // "AddDefectVertex: A vertex, B node, low 10."
            Kind::AddDefectVertex => plain(0b10, 2, A, B),
            // "Extended, low bits 100, code in bits 3..5: 0 FindObstacle,
            Kind::FindObstacle => extended(0, NO_FIELD),
            // 4 reset,
            Kind::Reset => extended(4, NO_FIELD),
            // 5 load (A layer),
            Kind::LoadDefectsExternal => extended(5, A),
            // 6 Grow (length bits 6..31)."
            Kind::Grow => extended(6, LENGTH),
        }
    }
}

// How many numbers a field of that width can hold.
pub(crate) fn room(width: u32) -> u32
    requires { width < 32 }
    ensures { (result ≡ 2 ^ width) × (0 < result) }
{
    1u32 << width
}
