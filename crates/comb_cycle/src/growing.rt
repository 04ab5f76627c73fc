// The vertices that show Grow, by number.
ghost use Rattle.std.specs.Prelude.{◌≡◌, ◌≤◌, take};
ghost use Rattle.laws.specs.Fold.{bit, count_to};
ghost use Rattle.laws.specs.Listed.{indices};
ghost use Rattle.rules.specs.Registers as Registers;
ghost use Rattle.comb_cycle.specs.Listed.{grows_at, listed};

use rules::tables::Registers;

// 1 for a shadow that grows, else 0. The speed alone is looked at.
#[tactic(auto, unfolding(rules::specs::Registers::view, rules::specs::Registers::speed_of, laws::specs::Choice::pick))]
fn growth(shadow: u64) -> usize
    ensures { result ≡ bit (Registers.growing (Registers.view shadow).speed) }
{
    usize::from(shadow / 288_230_376_151_711_744 % 4 == 1)
}

// How many there are below the reach, and, from the start of the lent table on, which. Each vertex is written behind those that grow, and stays where
// it grows itself: no branch, since which do is hard to predict.
#[tactic(auto, using(crate::proofs::Listing::lists))]
pub(crate) fn list_growing(shadows: &Registers, reach: usize, vertices: &mut [u8; 256]) -> usize
    requires { reach ≤ 256 }
    ensures value { (result ≡ count_to (grows_at shadows.now) reach) × (result ≤ reach) }
    ensures vertices_after { vertices.new ≡ listed (grows_at shadows.now) vertices.old reach }
    ensures from_start { take result vertices.new ≡ indices (grows_at shadows.now) reach }
{
    let mut n = 0;
    for v in 0..reach {
        vertices[n] = v as u8;
        n += growth(shadows[v]);
    }
    n
}
