// Raised flags: how many, and which.
#![tactic(auto)]

ghost use Rattle.std.specs.Prelude.{◌≡◌, ◌^◌, ◌<◌, length, position};
ghost use Rattle.std.specs.Iterator.{YieldsFirst, item_count};
ghost use Rattle.std.specs.List.{list_any};
ghost use Rattle.rules.specs.Pairs.{raised_from};

use std::marker::Model;

// One `or` over all flags, which the machine does for many at a time: with `contains(&true)` a session of empty pair lists took a quarter longer.
fn is_any_raised(stalled: &[bool]) -> bool
    ensures { result ≡ list_any (λ on. on) stalled.now }
{
    let mut raised = false;
    for on in stalled {
        raised |= *on;
    }
    raised
}

// How many flags are raised: mostly none. A sum, so that no flag costs a branch; by `for`, since of a chain's `sum` a proof by hand would have to
// show that it fits.
pub fn count(stalled: &[bool]) -> usize
    ensures { result ≡ length (raised_from 0 stalled.now) }
{
    if !is_any_raised(stalled) {
        return 0;
    }
    let mut n = 0;
    for on in stalled {
        n += usize::from(*on);
    }
    n
}

// The numbers of the raised flags, and how many are left: behind the last one no flag is looked at, and most lists are short.
#[derive(Clone, Debug, Drop)]
pub struct Raised<'a> {
    flags: &'a [bool],
    next: u16,
    left: usize,
}

impl<'a> Model for Raised<'a> {
    ghost use Rattle.std.specs.Prelude.{◌≡◌, ℕ, ◌+◌, ◌^◌, ◌<◌, List, length};
    ghost use Rattle.rules.specs.Pairs.{raised_from};

    ghost Value = { List ℕ };

    ghost view = { λ r. raised_from r.next r.flags.now };

    ghost invariant = { λ r. (r.left ≡ length (raised_from r.next r.flags.now)) × (r.next + length r.flags.now < 2 ^ 16) };
}

pub fn numbers(stalled: &[bool]) -> Raised<'_>
    requires { length stalled.now < 2 ^ 16 }
    ensures { result ≡ raised_from 0 stalled.now }
{
    Raised {
        flags: stalled,
        next: 0,
        left: count(stalled),
    }
}

// Where the first raised flag is.
fn first(flags: &[bool]) -> Option<usize>
    ensures { result ≡ position (λ on. on) flags.now }
{
    flags.iter().position(|on| *on)
}

impl Iterator for Raised<'_> {
    type Item = u16;

    ghost next_gives = { YieldsFirst (λ numbers. numbers) };

    ghost remaining = { item_count (λ numbers. numbers) };

    fn next(&mut self) -> Option<u16> {
        if self.left == 0 {
            return None;
        }
        let skipped = first(self.flags)?;
        let number = self.next + skipped as u16;
        self.flags = &self.flags[skipped + 1..];
        self.next = number + 1;
        self.left -= 1;
        Some(number)
    }

    fn size_hint(&self) -> (usize, Option<usize>) {
        (self.left, Some(self.left))
    }
}

impl ExactSizeIterator for Raised<'_> {
    fn len(&self) -> usize {
        self.left
    }
}
