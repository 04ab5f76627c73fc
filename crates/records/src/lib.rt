// Session records: what one is answered, why the work on a chunk of them stopped, and the number that stands in one.
#![tactic(auto)]

ghost use Rattle.std.specs.Prelude.{◌≡◌, ◌+◌, ◌≤◌, length};
ghost use Rattle.records.specs.Records.{value_at};

use rules::finding::{Carried, Sought};
use rules::refusal::Refusal;

// What a record is answered. A search comes with the maximum that it left.
#[derive(Clone, Copy, Debug, PartialEq, Eq)]
pub enum Answered {
    Word(Result<Carried, Refusal>),
    Search(Sought, u32),
    Pairs,
    Unknown,
}

// Why a chunk went no further: a record in it is cut short, the longest line finds no room, or a record of another kind ended the replay.
#[derive(Clone, Copy, Debug, PartialEq, Eq)]
pub enum Stop {
    WantsBytes,
    WantsRoom,
    Ended,
}

// "Little-endian"
pub fn value_at(bytes: &[u8], at: usize) -> u32
    requires { at + 4 ≤ length bytes.now }
    ensures { result ≡ value_at bytes.now at }
{
    u32::from_le_bytes([bytes[at], bytes[at + 1], bytes[at + 2], bytes[at + 3]])
}
