// What an instruction finds, and what a search answers.
use crate::index::{NodeIndex, VertexIndex};
use crate::refusal::Refusal;

// A signed length. specs/Numbers.antt gives document 01's number, 2,147,483,647 for no limit.
#[derive(Clone, Copy, Debug, PartialEq, Eq)]
pub enum Length {
    NoLimit,
    Ahead(u32),
    Behind(u32),
}

// A node or a touch is None where it is absent: the virtual node, too, is the boundary.
#[derive(Clone, Copy, Debug, PartialEq, Eq)]
pub struct Side {
    pub node: Option<NodeIndex>,
    pub touch: Option<NodeIndex>,
    pub vertex: VertexIndex,
}

#[derive(Clone, Copy, Debug, PartialEq, Eq)]
pub enum Finding {
    GrowLength(Length),
    Conflict(Side, Side),
}

// Why an edge reports nothing in stage 7: refusal 16.
#[derive(Clone, Copy, Debug, PartialEq, Eq)]
pub struct OddRemaining;

impl From<OddRemaining> for Refusal {
    ghost use Rattle.std.specs.Prelude.{◌≡◌};
    ghost use Rattle.rules.specs.declared.refusal.Refusal.TheVariants as Refusals;

    ghost from_gives = { λ _ refusal. refusal ≡ Refusals.OddRemaining };

    fn from(_odd: OddRemaining) -> Refusal {
        Refusal::OddRemaining
    }
}

// What a word is answered that was carried out. A reset is an answer, too: no Option, in which it would be an absence.
#[derive(Clone, Copy, Debug, PartialEq, Eq)]
pub enum Carried {
    Found(Finding),
    Reset,
}

// The sum of a search's completed growth steps, and how many these are.
#[derive(Clone, Copy, Debug, PartialEq, Eq)]
pub struct Tally {
    pub growth: u32,
    pub steps: u32,
}

// Three ends, of which two have a tally: no Result, which has two ends.
#[derive(Clone, Copy, Debug, PartialEq, Eq)]
pub enum Sought {
    NotBegun(Refusal),
    Found(Finding, Tally),
    Stopped(Refusal, Tally),
}
