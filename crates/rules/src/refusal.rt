// The refusals of document 01, in order of checking. specs/Numbers.antt gives each its number, 1 to 19.
use std::error::Error;
use std::fmt;

#[derive(Clone, Copy, Debug, PartialEq, Eq)]
pub enum Refusal {
    NotAnImage,
    VertexCount,
    EdgeCount,
    UnitCount,
    CutShort,
    VertexRecord,
    EdgeEnds,
    Weight,
    Condition,
    Crowded,
    UnitRecord,
    NotCarried,
    OutOfBounds,
    BelowZero,
    AboveBound,
    OddRemaining,
    NegativeLength,
    SessionRecord,
    ListTooLong,
}

// "Refusal numbers, in order of checking"
impl From<Refusal> for u8 {
    ghost use Rattle.std.specs.Prelude.{◌≡◌};
    ghost use Rattle.rules.specs.Numbers.{refusal_number};

    ghost from_gives = { λ refusal number. number ≡ refusal_number refusal };

    fn from(refusal: Refusal) -> u8 {
        match refusal {
            Refusal::NotAnImage => 1,
            Refusal::VertexCount => 2,
            Refusal::EdgeCount => 3,
            Refusal::UnitCount => 4,
            Refusal::CutShort => 5,
            Refusal::VertexRecord => 6,
            Refusal::EdgeEnds => 7,
            Refusal::Weight => 8,
            Refusal::Condition => 9,
            Refusal::Crowded => 10,
            Refusal::UnitRecord => 11,
            Refusal::NotCarried => 12,
            Refusal::OutOfBounds => 13,
            Refusal::BelowZero => 14,
            Refusal::AboveBound => 15,
            Refusal::OddRemaining => 16,
            Refusal::NegativeLength => 17,
            Refusal::SessionRecord => 18,
            Refusal::ListTooLong => 19,
        }
    }
}

// A refusal prints as its number.
impl fmt::Display for Refusal {
    fn fmt<W: fmt::Write>(&self, f: &mut fmt::Formatter<W>) -> fmt::Result {
        write!(f, "{}", u8::from(*self))
    }
}

impl Error for Refusal {}
