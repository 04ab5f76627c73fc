// The input buffer.
ghost use Rattle.std.specs.Prelude.{◌≤◌, length};

use batch::{buffer, read_full};
use std::io::Input;

// What was read and is not used yet stands from `from` to `to`.
#[derive(Drop)]
pub(crate) struct Held {
    bytes: [u8; 65_536],
    from: usize,
    to: usize,
    ghost ordered: { from ≤ to },
    ghost within: { to ≤ length bytes },
}

impl Held {
    pub(crate) fn read(rt: &impl Input) -> Held {
        let mut bytes = buffer();
        let to = read_full(&mut rt.reader(), &mut bytes);
        Held { bytes, from: 0, to }
    }

    pub(crate) fn unused(&self) -> &[u8] {
        &self.bytes[self.from..self.to]
    }

    // So many bytes are used, or all that stand there.
    pub(crate) fn pass(&mut self, n: usize) {
        self.from += n.min(self.to - self.from);
    }

    // Moves what is not used to the buffer's start, and reads behind it. Answers whether there was more to read.
    pub(crate) fn refill(&mut self, rt: &impl Input) -> bool {
        self.bytes.copy_within(self.from..self.to, 0);
        let left = self.to - self.from;
        let more = read_full(&mut rt.reader(), &mut self.bytes[left..]);
        self.from = 0;
        self.to = left + more;
        more != 0
    }
}
