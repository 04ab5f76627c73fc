// Instruction words, as instruction.rs has them: packing, and reading, of which the Rust has no more than a part.
#![tactic(auto)]

mod kinds;
mod packing;
mod reading;

pub use packing::{pack, pack_reset};
pub use reading::unpack;
