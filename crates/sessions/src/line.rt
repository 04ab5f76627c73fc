// A line that is being written: the buffer, and where the next byte goes. What finds no room is left out, where `listing`'s line asks for it:
// `Output::line` makes room. The position is apart from `Output`'s: with that one moved byte by byte, lines of registers took up to 1.7 times the time.
ghost use Rattle.std.specs.Prelude.{◌≡◌};

#[derive(Drop)]
pub(crate) struct Line<'a> {
    pub(crate) bytes: &'a mut [u8],
    pub(crate) at: usize,
}

impl Line<'_> {
    pub(crate) fn byte(&mut self, byte: u8)
        ensures { self.new.bytes.ghost_name ≡ self.old.bytes.ghost_name }
    {
        if let Some(place) = self.bytes.get_mut(self.at) {
            *place = byte;
            self.at += 1;
        }
    }

    pub(crate) fn text(&mut self, text: &[u8])
        ensures { self.new.bytes.ghost_name ≡ self.old.bytes.ghost_name }
    {
        for byte in text {
            self.byte(*byte);
        }
    }

    // A space and the number: most have one digit. With `write!` a line of registers took four times as many instructions.
    pub(crate) fn number(&mut self, n: u32)
        ensures { self.new.bytes.ghost_name ≡ self.old.bytes.ghost_name }
    {
        self.byte(b' ');
        if n < 10 {
            self.byte(b'0' + n as u8);
        } else {
            self.digits(n);
        }
    }

    fn digits(&mut self, n: u32)
        ensures { self.new.bytes.ghost_name ≡ self.old.bytes.ghost_name }
    {
        let mut digits = [b'0'; 10];
        let mut first = 0;
        let mut rest = n;
        for i in (0..10).rev() {
            digits[i] = b'0' + (rest % 10) as u8;
            first = i;
            rest /= 10;
            if rest == 0 {
                break;
            }
        }
        if let Some(shown) = digits.get(first..) {
            self.text(shown);
        }
    }
}
