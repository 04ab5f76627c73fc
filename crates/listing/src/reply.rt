// What a record is answered: a line's text, without its end.
ghost use Rattle.std.specs.Prelude.{length};
ghost use Rattle.rules.specs.Listing.{numbers, refusal_text, reply_text, tally_text};
ghost use Rattle.raised.specs.Below.{pair_at};
ghost use Rattle.rules.specs.Run.{carried, found};
ghost use Rattle.listing.specs.Answers.{answer_text};
ghost use Rattle.listing.specs.Pairs.{pairs_text};
ghost use Rattle.listing.specs.Written.{HasRoom, Puts};

use crate::line::Line;
use crate::refusal_number;
use records::Answered;
use rules::finding::{Carried, Sought, Tally};
use rules::refusal::Refusal;

impl Line<'_> {
    // "`r` and number"
    fn put_refusal(&mut self, refusal: Refusal)
        requires { HasRoom 12 self.old }
        ensures { Puts 12 (refusal_text refusal) self.old self.new }
    {
        self.put_byte(b'r');
        self.put_number(u32::from(refusal_number(refusal)));
    }

    // "growth, steps, maximum left"
    fn put_tally(&mut self, tally: Tally, left: u32)
        requires { HasRoom 33 self.old }
        ensures { Puts 33 (tally_text tally left) self.old self.new }
    {
        self.put_numbers(&[tally.growth, tally.steps, left]);
    }

    // "`i` finding, `z` for reset"
    fn put_word(&mut self, answer: Result<Carried, Refusal>)
        requires { HasRoom 69 self.old }
        ensures { Puts 69 (reply_text (carried answer)) self.old self.new }
    {
        match answer {
            Ok(Carried::Found(finding)) => {
                self.put_byte(b'i');
                self.put_finding(finding);
            }
            Ok(Carried::Reset) => self.put_byte(b'z'),
            Err(refusal) => self.put_refusal(refusal),
        }
    }

    // "`s` finding, growth, steps, maximum left"; "`r` and number, then for a begun search growth, steps, maximum left"
    fn put_search(&mut self, answer: Sought, left: u32)
        requires { HasRoom 102 self.old }
        ensures { Puts 102 (reply_text (found answer left)) self.old self.new }
    {
        match answer {
            Sought::NotBegun(refusal) => self.put_refusal(refusal),
            Sought::Found(finding, tally) => {
                self.put_byte(b's');
                self.put_finding(finding);
                self.put_tally(tally, left);
            }
            Sought::Stopped(refusal, tally) => {
                self.put_refusal(refusal);
                self.put_tally(tally, left);
            }
        }
    }

    // An edge's number where it is stalled. It has four digits at most.
    fn put_edge(&mut self, e: u16, stalled: bool)
        requires { HasRoom (length (numbers (pair_at e stalled))) self.old }
        ensures { Puts (length (numbers (pair_at e stalled))) (numbers (pair_at e stalled)) self.old self.new }
    {
        if stalled {
            self.put_byte(b' ');
            self.put_decimal(u32::from(e));
        }
    }

    // "`p` and edges": up to the last that is stalled, since behind it no flag is looked at, and most lists are short. No walk over `raised::numbers`:
    // with it a long list took a third more time.
    fn put_pairs(&mut self, stalled: &[bool; 1024])
        requires { HasRoom 5121 self.old }
        ensures { Puts 5121 (pairs_text stalled.now) self.old self.new }
    {
        self.put_byte(b'p');
        let n = raised::count(stalled);
        let mut met = 0;
        for e in 0..1_024u16 {
            if met == n {
                break;
            }
            let on = stalled[usize::from(e)];
            self.put_edge(e, on);
            met += usize::from(on);
        }
    }

    pub(crate) fn put_answer(&mut self, answered: Answered, stalled: &[bool; 1024])
        requires { HasRoom 5121 self.old }
        ensures { Puts 5121 (answer_text stalled.now answered) self.old self.new }
    {
        match answered {
            Answered::Word(answer) => self.put_word(answer),
            Answered::Search(answer, left) => self.put_search(answer, left),
            Answered::Pairs => self.put_pairs(stalled),
            Answered::Unknown => self.put_refusal(Refusal::SessionRecord),
        }
    }
}
