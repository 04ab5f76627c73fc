// The output, gathered before it is written.
ghost use Rattle.std.specs.Prelude.{◌≡◌, ◌<◌};

use batch::buffer;

#[derive(Drop)]
pub(crate) struct Output<'a, P: Print> {
    rt: &'a P,
    bytes: [u8; 65_536],
    at: usize,
}

impl<'a, P: Print> Output<'a, P> {
    pub(crate) fn new(rt: &'a P) -> Output<'a, P> {
        Output {
            rt,
            bytes: buffer(),
            at: 0,
        }
    }

    pub(crate) fn flush(&mut self)
        ensures { self.new.at ≡ 0 }
    {
        if let Some(written) = self.bytes.get(..self.at) {
            let _ = self.rt.write_all(written);
        }
        self.at = 0;
    }

    // Makes room for the longest line: a pair list of 1,024 edges takes at most 5,122 bytes. Before a line alone, so that what is written ends with
    // one.
    fn ready(&mut self)
        ensures { self.new.at < 60_000 }
    {
        if 60_000 <= self.at {
            self.flush();
        }
    }

    // `put` writes a line at the position that it is given, and returns where the line ends.
    pub(crate) fn line<F: FnOnce(&mut [u8], usize) -> usize>(&mut self, put: F)
        requires { F.IsAlwaysCallable put }
    {
        self.ready();
        self.at = put(&mut self.bytes, self.at);
    }
}
