// A line that is being written: the lent buffer, and the position behind what is written. Each text asks for its own room (`HasRoom`), which no
// invariant of the line can know.
ghost use Rattle.std.specs.Prelude.{◌≡◌, ◌*◌, [], ◌∷◌, length};
ghost use Rattle.rules.specs.Listing.{decimal, number, numbers};
ghost use Rattle.listing.specs.Written.{HasRoom, Puts};

#[derive(Drop)]
pub(crate) struct Line<'a> {
    pub(crate) out: &'a mut [u8],
    pub(crate) at: usize,
}

impl Line<'_> {
    pub(crate) fn put_byte(&mut self, byte: u8)
        requires { HasRoom 1 self.old }
        ensures { Puts 1 (byte ∷ []) self.old self.new }
    {
        self.out[self.at] = byte;
        self.at += 1;
    }

    pub(crate) fn put_text(&mut self, text: &[u8])
        requires { HasRoom (length text.now) self.old }
        ensures { Puts (length text.now) text.now self.old self.new }
    {
        let end = self.at + text.len();
        self.out[self.at..end].copy_from_slice(text);
        self.at = end;
    }

    pub(crate) fn put_decimal(&mut self, n: u32)
        requires { HasRoom (length (decimal n)) self.old }
        ensures { Puts (length (decimal n)) (decimal n) self.old self.new }
    {
        let end = self.at + width(n);
        spell(&mut self.out[self.at..end], n);
        self.at = end;
    }

    pub(crate) fn put_number(&mut self, n: u32)
        requires { HasRoom 11 self.old }
        ensures { Puts 11 (number n) self.old self.new }
    {
        self.put_byte(b' ');
        self.put_decimal(n);
    }

    pub(crate) fn put_numbers(&mut self, ns: &[u32])
        requires { HasRoom (11 * length ns.now) self.old }
        ensures { Puts (11 * length ns.now) (numbers ns.now) self.old self.new }
    {
        for n in ns {
            self.put_number(*n);
        }
    }
}

// How many digits n has; 0 has one.
fn width(n: u32) -> usize
    ensures { result ≡ length (decimal n) }
{
    n.checked_ilog10().unwrap_or(0) as usize + 1
}

// The digits are put from the last to the first, by index: of what `iter_mut().rev()` writes a proof knows nothing yet.
fn spell(out: &mut [u8], n: u32)
    requires { length out.old ≡ length (decimal n) }
    ensures { out.new ≡ decimal n }
{
    let mut rest = n;
    for i in (0..out.len()).rev() {
        out[i] = b'0' + (rest % 10) as u8;
        rest /= 10;
    }
}
