// The reduction of findings, and the order of a conflict's sides.
#![tactic(auto)]

ghost use Rattle.std.specs.Prelude.{◌≡◌};
ghost use Rattle.rules.specs.Reduce as Reduce;
ghost use Rattle.interface.specs.Order.{fixed_order};

use rules::finding::{Finding, Length};

// "the least length"
pub fn least(first: Length, second: Length) -> Length
    ensures { result ≡ Reduce.least first second }
{
    match (first, second) {
        (Length::NoLimit, length) | (length, Length::NoLimit) => length,
        (Length::Ahead(n), Length::Ahead(m)) => Length::Ahead(n.min(m)),
        (Length::Behind(n), Length::Behind(m)) => Length::Behind(n.max(m)),
        (Length::Behind(_), Length::Ahead(_)) => first,
        (Length::Ahead(_), Length::Behind(_)) => second,
    }
}

// "the first Conflict by edge index, else the least length"
pub fn reduce(first: Finding, second: Finding) -> Finding
    ensures { result ≡ Reduce.reduce first second }
{
    match (first, second) {
        (Finding::GrowLength(a), Finding::GrowLength(b)) => Finding::GrowLength(least(a, b)),
        (Finding::Conflict(_, _), _) => first,
        (_, Finding::Conflict(_, _)) => second,
    }
}

// "swap the sides if the first node is absent"
#[tactic(auto, unfolding(laws::specs::Choice::pick))]
pub fn fix_conflict_order(finding: Finding) -> Finding
    ensures { result ≡ fixed_order finding }
{
    match finding {
        Finding::Conflict(first, second) if first.node.is_none() => {
            Finding::Conflict(second, first)
        }
        _ => finding,
    }
}
