// The work on a chunk of session records. A program reads, runs chunks of what it has read, and writes their lines; proofs/Cuts.antt proves that
// however its input is cut, it writes the session's listing.
#![tactic(auto)]

ghost use Rattle.std.specs.Prelude.{◌≡◌, ◌≤◌, length};
ghost use Rattle.board.specs.Board.{graph_on};
ghost use Rattle.laws.specs.Placed.{placed};
ghost use Rattle.session.specs.Chunk.{chunk, done_of, last_of, last_in};

use answer::answer_record;
use board::Board;
use lay::lay;
use listing::{answer_line, record_line};
use records::{Answered, Stop};
use rules::graph::Graph;
use rules::state::State;

// The state that is left, how many bytes were used and written, and why no more.
#[derive(Clone, Copy, Debug, PartialEq, Eq)]
pub struct Done {
    pub state: State,
    pub used: usize,
    pub written: usize,
    pub stop: Stop,
}

// The longest line of all, as listing's specs/Lines.antt has it.
const LONGEST_PAIRS: usize = 5122;

// The records on a board.
fn run_records(board: &Board, mut state: State, bytes: &[u8], out: &mut [u8]) -> Done
    ensures value { result ≡ done_of (chunk (graph_on board.now.table) state (length out.old) bytes.now) }
    ensures out_after { out.new ≡ placed 0 (chunk (graph_on board.now.table) state (length out.old) bytes.now).text out.old }
    ensures used_in_bounds { (result.used ≤ length bytes.now) × (result.written ≤ length out.old) }
{
    let (records, _) = bytes.as_chunks::<5>();
    let mut used = 0;
    let mut written = 0;
    let mut stop = Stop::WantsBytes;
    for &[kind, a, b, c, d] in records {
        if out.len() - written < LONGEST_PAIRS {
            stop = Stop::WantsRoom;
            break;
        }
        let answered = answer_record(board, &mut state, kind, u32::from_le_bytes([a, b, c, d]));
        used += 5;
        written = answer_line(out, written, answered, &state.stalled);
        if matches!(answered, Answered::Unknown) {
            stop = Stop::Ended;
            break;
        }
    }
    Done {
        state,
        used,
        written,
        stop,
    }
}

// As many of the records in `bytes` as are whole and find room for their lines, which stand at the start of `out`; all else of it is untouched.
pub fn run_chunk(graph: Graph, state: State, bytes: &[u8], out: &mut [u8]) -> Done
    ensures value { result ≡ done_of (chunk graph state (length out.old) bytes.now) }
    ensures out_after { out.new ≡ placed 0 (chunk graph state (length out.old) bytes.now).text out.old }
    ensures used_in_bounds { (result.used ≤ length bytes.now) × (result.written ≤ length out.old) }
{
    let board = lay(graph);
    run_records(&board, state, bytes, out)
}

// "18: session record cut short": the last line, where bytes are left when the input ends; how much it wrote. None: it finds no room, and nothing
// is written.
#[tactic(auto, using(crate::proofs::Ends::lasts))]
pub fn end_of_input(left: usize, out: &mut [u8]) -> Option<usize>
    ensures value { result ≡ last_of left out.old }
    ensures out_after { out.new ≡ last_in left out.old }
{
    if left == 0 {
        return Some(0);
    }
    match record_line(out, 0) {
        0 => None,
        end => Some(end),
    }
}
