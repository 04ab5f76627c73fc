// The lines of the input.
ghost use Rattle.std.specs.Prelude.{length};
ghost use Rattle.std.specs.Iterator.{at_most};

// Each line's first byte, which may be a line's end, and what stands between it and the next line's end.
#[derive(Drop)]
pub(crate) struct Lines<'a>(pub(crate) &'a [u8]);

impl<'a> Iterator for Lines<'a> {
    type Item = (u8, &'a [u8]);

    ghost remaining = { λ lines. at_most (length lines.0.now) };

    fn next(&mut self) -> Option<(u8, &'a [u8])> {
        let (letter, rest) = self.0.split_first()?;
        match rest.iter().position(|byte| *byte == b'\n') {
            Some(end) => {
                self.0 = &rest[end + 1..];
                Some((*letter, &rest[..end]))
            }
            None => {
                self.0 = &[];
                Some((*letter, rest))
            }
        }
    }
}

// The number that the digits among the bytes make, in 32 bits; a byte that is no digit is passed over.
pub(crate) fn number(bytes: &[u8]) -> u32 {
    bytes
        .iter()
        .filter_map(|byte| char::from(*byte).to_digit(10))
        .fold(0u32, |number, digit| {
            number.wrapping_mul(10).wrapping_add(digit)
        })
}
