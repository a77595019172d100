// Text out of any bytes: each whole sequence of UTF-8 is kept, and each longest broken beginning of one becomes U+FFFD.
ghost use Rattle.std.specs.Iterator.{item_count};
ghost use Rattle.text.specs.Area.{Spells};
ghost use Rattle.encoding.specs.Lossy.{lossy};

use text::{Broken, Pieces, sequence};

// U+FFFD, the replacement character, in UTF-8.
const REPLACEMENT: [u8; 3] = [0xEF, 0xBF, 0xBD];

// The text of some bytes, which comes one sequence or one U+FFFD at a time.
#[derive(Clone, Copy)]
pub(crate) struct Lossy<'a>(pub(crate) &'a [u8]);

impl<'a> Iterator for Lossy<'a> {
    type Item = &'a [u8];

    ghost next_gives = { Spells (λ s. lossy s.0.now) };

    ghost remaining = { item_count (λ s. s.0.now) };

    fn next(&mut self) -> Option<&'a [u8]> {
        let bytes = self.0;
        if bytes.is_empty() {
            return None;
        }
        match sequence(bytes) {
            Ok(length) => {
                self.0 = &bytes[length..];
                Some(&bytes[..length])
            }
            Err(Broken(length)) => {
                self.0 = &bytes[length..];
                Some(&REPLACEMENT)
            }
        }
    }
}

impl<'a> Pieces<'a> for Lossy<'a> {
    ghost bytes = { λ s. lossy s.0.now };

    ghost always = { λ _. tt };

    ghost ends = { λ _. tt };

    ghost spells = { λ s r t h. h };
}
