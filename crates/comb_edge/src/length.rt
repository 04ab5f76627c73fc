// Lengths, and the joint speed that divides them.
ghost use Rattle.std.specs.Prelude.{◌≡◌};
ghost use Rattle.rules.specs.Respond as Respond;

use rules::finding::Length;
use rules::instruction::CompactGrowState;

// a less b
#[tactic(auto, using(laws::specs::Tests::tests), unfolding(rules::specs::Respond::less))]
pub fn less(a: u32, b: u32) -> Length
    ensures { result ≡ Respond.less a b }
{
    if b <= a {
        Length::Ahead(a - b)
    } else {
        Length::Behind(b - a)
    }
}

pub(crate) fn is_zero(length: Length) -> bool
    ensures { result ≡ Respond.is_zero length }
{
    matches!(length, Length::Ahead(0) | Length::Behind(0))
}

pub(crate) fn is_odd(length: Length) -> bool
    ensures { result ≡ Respond.is_odd length }
{
    match length {
        Length::NoLimit => false,
        Length::Ahead(n) | Length::Behind(n) => n % 2 == 1,
    }
}

pub(crate) fn half(length: Length) -> Length
    ensures { result ≡ Respond.half length }
{
    match length {
        Length::NoLimit => Length::NoLimit,
        Length::Ahead(n) => Length::Ahead(n / 2),
        Length::Behind(n) => Length::Behind(n / 2),
    }
}

// The joint speed of two ends where it is positive, else 0. A sum, since which end grows is hard to predict.
pub(crate) fn joint(left: CompactGrowState, right: CompactGrowState) -> u32
    ensures { result ≡ Respond.joint left right }
{
    if left.is_shrinking() || right.is_shrinking() {
        return 0;
    }
    u32::from(left.is_growing()) + u32::from(right.is_growing())
}
