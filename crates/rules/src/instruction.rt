// Instructions, and the words that carry them.
use crate::index::{LayerId, NodeIndex, VertexIndex};

#[derive(Clone, Copy, Debug, PartialEq, Eq)]
pub enum CompactGrowState {
    Stay,
    Grow,
    Shrink,
}

// "Stay 0, Grow 1, Shrink 2 as codes"
impl From<CompactGrowState> for u32 {
    ghost use Rattle.std.specs.Prelude.{◌≡◌, ◌≤◌};
    ghost use Rattle.rules.specs.Numbers.{speed_code};

    ghost from_gives = { λ speed code. (code ≡ speed_code speed) × (code ≤ 2) };

    fn from(speed: CompactGrowState) -> u32 {
        match speed {
            CompactGrowState::Stay => 0,
            CompactGrowState::Grow => 1,
            CompactGrowState::Shrink => 2,
        }
    }
}

// A length is 32 bits read as signed, so one of 2,147,483,648 or more is negative.
#[derive(Clone, Copy, Debug, PartialEq, Eq)]
pub enum Instruction {
    SetSpeed {
        node: NodeIndex,
        speed: CompactGrowState,
    },
    SetBlossom {
        node: NodeIndex,
        blossom: NodeIndex,
    },
    AddDefectVertex {
        vertex: VertexIndex,
        node: NodeIndex,
    },
    FindObstacle,
    Grow {
        length: u32,
    },
    LoadDefectsExternal {
        time: LayerId,
    },
}

// Where a number stands in a word: its lowest bit, and how many bits it has.
#[derive(Clone, Copy, Debug, PartialEq, Eq)]
pub struct Field {
    pub at: u32,
    pub width: u32,
}

// A kind of word, by its bits: the value of its lowest bits and how many these are, the same of its extended code from bit 3 on, and its fields A and B.
#[derive(Clone, Copy, Debug, PartialEq, Eq)]
pub struct WordKind {
    pub low: u32,
    pub lows: u32,
    pub code: u32,
    pub codes: u32,
    pub a: Field,
    pub b: Field,
}

// What a word asks. A reset is asked for as an instruction is: no Option, in which it would be an absence.
#[derive(Clone, Copy, Debug, PartialEq, Eq)]
pub enum Asked {
    Says(Instruction),
    Reset,
}
