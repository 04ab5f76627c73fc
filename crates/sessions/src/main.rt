// Answers each session of standard input: its listing, and after each record's line a line for every vertex's registers. Each session comes
// after its length in four bytes, the low byte first; a line `=` stands between the answers. So the Rust answers them in oracle/.
#![tactic(auto)]

mod answers;
mod line;
mod output;
mod registers;

use crate::answers::show_session;
use crate::line::Line;
use crate::output::Output;
use batch::each_session;

// A line `=` stands before each session but the first.
fn put_between(bytes: &mut [u8], at: usize) -> usize {
    let mut line = Line { bytes, at };
    line.text(b"=\n");
    line.at
}

fn main(rt: HostRuntime) {
    let mut out = Output::new(&rt);
    each_session(&rt, |number, session| {
        if 0 < number {
            out.line(put_between);
        }
        show_session(&mut out, session);
    });
    out.flush();
}
