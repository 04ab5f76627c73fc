// What a replay writes to standard output, and when it has no more to do. The functions that make
// a line are lent the buffer, since each promises what it leaves in it.
#![tactic(auto)]

ghost use Rattle.std.specs.Prelude.{◌≡◌, false, ◌<◌, min, length};
ghost use Rattle.rules.specs.Listing.{line, first_line};
ghost use Rattle.listing.specs.Heads.{bad_text};
ghost use Rattle.listing.specs.Lines.{longest, line_in};
ghost use Rattle.session.specs.Chunk.{last_in};
ghost use Rattle.text_out.specs.On.{gets_on};

use listing::{bad_line, first_line};
use records::Stop;
use rules::graph::Graph;
use rules::refusal::Refusal;
use session::end_of_input;

// Writes the first n bytes, and answers whether all of them were written. It takes no slice of n bytes: it promises what it answers where there
// are fewer.
pub fn put(rt: &impl Print, text: &[u8], n: usize) -> bool
    ensures { length text.now < n → result ≡ false }
{
    text.get(..n).is_some_and(|text| rt.write_all(text).is_ok())
}

// A number of vertices, edges or units: an image has at most 1,024 of each.
pub fn count(n: usize) -> u32
    ensures { result ≡ min n 1_024 }
{
    n.min(1_024) as u32
}

pub fn show_refusal(rt: &impl Print, out: &mut [u8], why: Refusal) -> bool
    ensures { out.new ≡ line_in longest 0 (line (bad_text why)) out.old }
{
    let n = bad_line(out, 0, why);
    put(rt, out, n)
}

pub fn show_head(rt: &impl Print, out: &mut [u8], graph: Graph, units: usize) -> bool
    ensures { out.new ≡ line_in longest 0 (first_line (min graph.nv 1_024) (min graph.ne 1_024) (min units 1_024)) out.old }
{
    let n = first_line(out, 0, count(graph.nv), count(graph.ne), count(units));
    put(rt, out, n)
}

// Lines that find no room are told of, not left out in silence.
fn no_room(rt: &impl Eprint) -> bool
    ensures { result ≡ false }
{
    let _ = eprintln!(rt; "the output buffer has no room for a line");
    false
}

// The last line, where so many bytes are left.
pub fn show_end(rt: &(impl Print + Eprint), out: &mut [u8], left: usize) -> bool
    ensures { out.new ≡ last_in left out.old }
{
    match end_of_input(left, out) {
        Some(n) => put(rt, out, n),
        None => no_room(rt),
    }
}

// Whether a chunk that used so many bytes is followed by another. Where a line finds no room in the whole buffer, no chunk gets on.
pub fn gets_on(rt: &impl Eprint, stop: Stop, used: usize) -> bool
    ensures { result ≡ gets_on stop used }
{
    match stop {
        Stop::Ended => false,
        Stop::WantsBytes => true,
        Stop::WantsRoom if used == 0 => no_room(rt),
        Stop::WantsRoom => true,
    }
}
