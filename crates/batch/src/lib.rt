// The batch of a program of the gate: sessions, each after its length in four bytes, the low byte first.
#![tactic(auto)]

ghost use Rattle.std.specs.Prelude.{◌≡◌, ◌≤◌, length, take, None};
ghost use Rattle.std.specs.Io.KnownBytes.{Consumes};
ghost use Rattle.batch.specs.Fetched.{fetched};

use std::io::{Input, Read};

// A buffer whose bytes no proof looks into: that they are zeros is not said, since a proof would count a megabyte of them.
pub fn buffer<const N: usize>() -> [u8; N]
    ensures { length result ≡ N }
{
    [0u8; N]
}

// Reads until the buffer is full, the input ends or a read fails. Returns how many bytes it put at the buffer's start: the reader's next ones.
// The library's `read_exact` doesn't tell how many it read before the end.
#[tactic(auto, using(crate::proofs::Filling::read_on))]
pub fn read_full<R: Read>(reader: &mut R, buffer: &mut [u8]) -> usize
    ensures within { result ≤ length buffer.new }
    ensures bytes { Consumes (R.remaining reader.old) (R.remaining reader.new) (take result buffer.new) }
{
    let mut done = 0;
    while done < buffer.len() {
        match reader.read(&mut buffer[done..]).unwrap_or(0) {
            0 => break,
            n => done += n,
        }
    }
    done
}

fn broken(rt: &impl Eprint, why: &str) -> Option<usize>
    ensures { result ≡ None }
{
    let _ = eprintln!(rt; "{why}");
    None
}

// Reads the next session to the buffer's start, and leaves what stands behind it. It answers with the session's length, since a slice of the buffer
// would take what is promised of the rest.
pub fn next_session(rt: &(impl Input + Eprint), buffer: &mut [u8]) -> Option<usize>
    ensures { fetched result buffer.old buffer.new }
{
    let mut reader = rt.reader();
    let mut length = [0; 4];
    match read_full(&mut reader, &mut length) {
        0 => return None,
        4 => {}
        _ => return broken(rt, "the input ends within a length"),
    }
    let n = u32::from_le_bytes(length) as usize;
    if buffer.len() < n {
        return broken(rt, "a session is longer than 1,048,576 bytes");
    }
    if read_full(&mut reader, &mut buffer[..n]) < n {
        return broken(rt, "the input ends within a session");
    }
    Some(n)
}

// Shows each session, with its number. Nothing says that the input ends, so the sessions are counted, up to a number that no run reaches.
pub fn each_session<F: FnMut(u64, &[u8])>(rt: &(impl Input + Eprint), mut show: F)
    requires { F.IsAlwaysCallable show }
{
    let mut buffer = buffer::<1_048_576>();
    for number in 0..u64::MAX {
        let Some(n) = next_session(rt, &mut buffer) else {
            return;
        };
        show(number, &buffer[..n]);
    }
}
