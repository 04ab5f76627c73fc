// What is written of an instruction, and of what packing it gives.
use rules::instruction::Instruction;
use rules::refusal::Refusal;
use std::fmt;
use std::fmt::{Display, Formatter, Write};

#[derive(Clone, Copy)]
pub(crate) struct Shown<T>(pub(crate) T);

impl Display for Shown<Instruction> {
    fn fmt<W: Write>(&self, f: &mut Formatter<W>) -> fmt::Result {
        match self.0 {
            Instruction::SetSpeed { node, speed } => write!(f, "SetSpeed {} {speed:?}", node.0),
            Instruction::SetBlossom { node, blossom } => {
                write!(f, "SetBlossom {} {}", node.0, blossom.0)
            }
            Instruction::AddDefectVertex { vertex, node } => {
                write!(f, "AddDefectVertex {} {}", vertex.0, node.0)
            }
            Instruction::FindObstacle => f.write_str("FindObstacle"),
            Instruction::Grow { length } => write!(f, "Grow {length}"),
            Instruction::LoadDefectsExternal { time } => {
                write!(f, "LoadDefectsExternal {}", time.0)
            }
        }
    }
}

impl Display for Shown<Result<u32, Refusal>> {
    fn fmt<W: Write>(&self, f: &mut Formatter<W>) -> fmt::Result {
        match self.0 {
            Ok(word) => write!(f, "{word}"),
            Err(refusal) => write!(f, "r {refusal}"),
        }
    }
}
