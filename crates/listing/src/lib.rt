// The lines of a replay's listing, each as bytes put into a lent buffer. A function returns the position after its line; where the buffer
// lacks the room that the longest such line may take, it writes nothing and returns the position it was given. Buffer and position are taken apart,
// since any two are answered; within, a `Line` holds both. Each line has its room and its texts in a function of its own: of a closure for the texts
// it would have to be said again what they put.
#![tactic(auto)]

mod finding;
mod line;
mod reply;

ghost use Rattle.std.specs.Prelude.{◌≡◌, ◌+◌, ◌≤◌};
ghost use Rattle.rules.specs.Listing.{line, first_line, refusal_text};
ghost use Rattle.rules.specs.Numbers.{refusal_number};
ghost use Rattle.rules.specs.declared.refusal.Refusal.TheVariants.{SessionRecord};
ghost use Rattle.listing.specs.Heads.{bad_text};
ghost use Rattle.listing.specs.Answers.{answer_text};
ghost use Rattle.listing.specs.Lines.{longest, longest_pairs, record_line, line_end, line_in};

use crate::line::Line;
use records::Answered;
use rules::refusal::Refusal;

// "Refusal numbers, in order of checking"
pub fn refusal_number(refusal: Refusal) -> u8
    ensures { result ≡ refusal_number refusal }
{
    u8::from(refusal)
}

// specs/Lines.antt says why.
const LONGEST: usize = 103;

const LONGEST_PAIRS: usize = 5122;

const RECORD_LINE: usize = 5;

// What a record is answered, where these edges are stalled.
#[tactic(auto, using(crate::proofs::Whole::without_room))]
pub fn answer_line(out: &mut [u8], at: usize, answered: Answered, stalled: &[bool; 1024]) -> usize
    ensures value { result ≡ line_end longest_pairs at (line (answer_text stalled.now answered)) out.old }
    ensures out_after { out.new ≡ line_in longest_pairs at (line (answer_text stalled.now answered)) out.old }
    ensures upper_bound { result ≤ at + longest_pairs }
{
    let room = out.len().saturating_sub(at);
    if room < LONGEST_PAIRS {
        return at;
    }
    let mut line = Line { out, at };
    line.put_answer(answered, stalled);
    line.put_byte(b'\n');
    line.at
}

#[tactic(auto, using(crate::proofs::Whole::without_room))]
pub fn first_line(out: &mut [u8], at: usize, v: u32, e: u32, u: u32) -> usize
    ensures value { result ≡ line_end longest at (first_line v e u) out.old }
    ensures out_after { out.new ≡ line_in longest at (first_line v e u) out.old }
    ensures upper_bound { result ≤ at + longest }
{
    let room = out.len().saturating_sub(at);
    if room < LONGEST {
        return at;
    }
    let mut line = Line { out, at };
    line.put_text(b"DCT 1");
    line.put_numbers(&[v, e, u]);
    line.put_byte(b'\n');
    line.at
}

// The one line of a refused image.
#[tactic(auto, using(crate::proofs::Whole::without_room))]
pub fn bad_line(out: &mut [u8], at: usize, refusal: Refusal) -> usize
    ensures value { result ≡ line_end longest at (line (bad_text refusal)) out.old }
    ensures out_after { out.new ≡ line_in longest at (line (bad_text refusal)) out.old }
    ensures upper_bound { result ≤ at + longest }
{
    let room = out.len().saturating_sub(at);
    if room < LONGEST {
        return at;
    }
    let mut line = Line { out, at };
    line.put_text(b"bad");
    line.put_number(u32::from(refusal_number(refusal)));
    line.put_byte(b'\n');
    line.at
}

// The last line of a session with a record cut short or of another kind.
#[tactic(auto, using(crate::proofs::Whole::without_room))]
pub fn record_line(out: &mut [u8], at: usize) -> usize
    ensures value { result ≡ line_end record_line at (line (refusal_text SessionRecord)) out.old }
    ensures out_after { out.new ≡ line_in record_line at (line (refusal_text SessionRecord)) out.old }
    ensures upper_bound { result ≤ at + record_line }
{
    let room = out.len().saturating_sub(at);
    if room < RECORD_LINE {
        return at;
    }
    let mut line = Line { out, at };
    line.put_text(b"r 18\n");
    line.at
}
