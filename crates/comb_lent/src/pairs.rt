// "Pairs are the stalled edges of the last completed instruction, by index"
ghost use Rattle.std.specs.Prelude.{◌≡◌, ◌≤◌, length};
ghost use Rattle.laws.specs.Placed.{placed};
ghost use Rattle.rules.specs.Pairs as Pairs;
ghost use Rattle.comb_lent.specs.Raised.{with_pairs};

use raised::count;
use rules::refusal::Refusal;
use rules::tables::Stalls;

// "writes edge numbers into a u16 buffer from its start". Place by place the next flag that is raised: behind the last none is looked at. A `for` over
// the flags takes 1.3 times the instructions of a short list.
fn put_pairs(buffer: &mut [u16], stalled: &Stalls, n: usize)
    requires n_value { n ≡ length (Pairs.raised_from 0 stalled.now) }
    requires n_in_bounds { n ≤ length buffer.old }
    ensures { buffer.new ≡ placed 0 (Pairs.raised_from 0 stalled.now) buffer.old }
{
    let mut e = 0;
    for written in 0..n {
        while !stalled[e] {
            e += 1;
        }
        buffer[written] = e as u16;
        e += 1;
    }
}

// "19: pair list longer than the buffer lent; buffer and decoder unchanged"
#[tactic(auto, using(crate::proofs::Listing::listings))]
pub fn list_pairs(stalled: &Stalls, buffer: &mut [u16]) -> Result<usize, Refusal>
    ensures value { result ≡ Pairs.listed (with_pairs stalled.now) (length buffer.old) }
    ensures buffer_after { buffer.new ≡ Pairs.buffered (with_pairs stalled.now) buffer.old }
{
    let n = count(stalled);
    if buffer.len() < n {
        return Err(Refusal::ListTooLong);
    }
    put_pairs(buffer, stalled, n);
    Ok(n)
}
