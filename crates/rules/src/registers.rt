// A vertex's registers, as they are held in the hand. In a table they stand in one word (specs/Registers.antt).
ghost use Rattle.std.specs.Prelude.{◌≡◌, ◌<◌};
ghost use Rattle.rules.specs.Registers as Registers;

use crate::index::NodeIndex;
use crate::instruction::CompactGrowState;
use crate::refusal::Refusal;
use crate::tables::Registers;

#[derive(Clone, Copy, Debug, PartialEq, Eq)]
pub struct VertexRegisters {
    pub speed: CompactGrowState,
    pub grown: u32,
    pub is_virtual: bool,
    pub is_defect: bool,
    pub node: NodeIndex,
    pub root: NodeIndex,
}

// Why stage 3 leaves a vertex where it is: refusals 14 and 15.
#[derive(Clone, Copy, Debug, PartialEq, Eq)]
pub enum MoveError {
    BelowZero,
    AboveBound,
}

impl From<MoveError> for Refusal {
    ghost use Rattle.std.specs.Prelude.{◌≡◌};
    ghost use Rattle.rules.specs.Execute.{refusal_for};

    ghost from_gives = { λ error refusal. refusal ≡ refusal_for error };

    fn from(error: MoveError) -> Refusal {
        match error {
            MoveError::BelowZero => Refusal::BelowZero,
            MoveError::AboveBound => Refusal::AboveBound,
        }
    }
}

// What stage 4 finds for one vertex: the node and root that its propagating peer hands on.
#[derive(Clone, Copy, Debug, PartialEq, Eq)]
pub struct Lead {
    pub node: NodeIndex,
    pub root: NodeIndex,
}

// No `TryFrom`: nothing is refused, and any value that is neither 1 nor 2 is Stay.
#[tactic(auto, using(laws::specs::Tests::tests), unfolding(crate::specs::Registers::speed_of, laws::specs::Choice::pick))]
fn speed_of(code: u64) -> CompactGrowState
    ensures { result ≡ Registers.speed_of code }
{
    match code {
        1 => CompactGrowState::Grow,
        2 => CompactGrowState::Shrink,
        _ => CompactGrowState::Stay,
    }
}

fn fresh_node(is_virtual: bool) -> NodeIndex
    ensures { result ≡ Registers.fresh_node is_virtual }
{
    if is_virtual {
        NodeIndex(65_534)
    } else {
        NodeIndex(65_535)
    }
}

// `view` and `keep` are no `From`: it would not say that the number is a table's word.
#[tactic(auto, unfolding(crate::specs::Registers::view))]
pub fn view(word: u64) -> VertexRegisters
    ensures { result ≡ Registers.view word }
{
    let speed = speed_of(word / 288_230_376_151_711_744 % 4);
    VertexRegisters {
        speed,
        grown: (word % 67_108_864) as u32,
        is_virtual: word / 1_152_921_504_606_846_976 % 2 == 1,
        is_defect: word / 2_305_843_009_213_693_952 % 2 == 1,
        node: NodeIndex((word / 67_108_864 % 65_536) as u16),
        root: NodeIndex((word / 4_398_046_511_104 % 65_536) as u16),
    }
}

// The registers of a vertex in a table.
#[tactic(auto, unfolding(crate::specs::Registers::at, crate::specs::Registers::view))]
pub fn at(registers: &Registers, v: u8) -> VertexRegisters
    ensures value { result ≡ Registers.at registers.now v }
    ensures grown { result.grown < 67_108_864 }
{
    view(registers[usize::from(v)])
}

impl VertexRegisters {
    #[tactic(auto, unfolding(crate::specs::Registers::fresh))]
    pub fn fresh(is_virtual: bool) -> VertexRegisters
        ensures { result ≡ Registers.fresh is_virtual }
    {
        let node = fresh_node(is_virtual);
        VertexRegisters {
            speed: CompactGrowState::Stay,
            grown: 0,
            is_virtual,
            is_defect: false,
            node,
            root: node,
        }
    }

    #[tactic(auto, unfolding(crate::specs::Registers::keep))]
    pub fn keep(self) -> u64
        ensures { result ≡ Registers.keep self }
    {
        u64::from(self.grown) % 67_108_864
            + u64::from(self.node.0) * 67_108_864
            + u64::from(self.root.0) * 4_398_046_511_104
            + u64::from(u32::from(self.speed)) * 288_230_376_151_711_744
            + u64::from(self.is_virtual) * 1_152_921_504_606_846_976
            + u64::from(self.is_defect) * 2_305_843_009_213_693_952
    }
}
