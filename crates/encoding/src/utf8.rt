// UTF-8, the encoding that a session has unless it is told another.
ghost use Rattle.encoding.specs.Lossy.{LossyIsText};
ghost use Rattle.encoding.specs.Utf8Code.{utf8_code};
ghost use Rattle.encoding.specs.Kept;

use crate::encoding::Encoding;
use crate::lossy::Lossy;
use text::{Parts, is_utf8, write_front};

// Encodes text as it is. In decoding, each longest broken beginning of a sequence becomes U+FFFD.
#[derive(Clone, Copy)]
pub struct Utf8Encoding;

impl Encoding for Utf8Encoding {
    ghost means = { λ _. utf8_code };

    ghost back = { λ s. Kept.back };

    fn encode(&self, text: &[u8], area: &mut [u8]) -> Option<usize> {
        if !is_utf8(text) {
            return None;
        }
        write_front(Parts(&[text]), area)
    }

    fn decode(&self, bytes: &[u8], area: &mut [u8]) -> Option<usize> {
        write_front(Lossy(bytes), area)
    }
}

// A theorem: what any bytes are decoded to is UTF-8, and what is UTF-8 is decoded to itself.
pub fn lossy_is_text()
    ensures { LossyIsText }
{}
