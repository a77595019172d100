// Encodings whose lines are refused, and yet what they encode is decoded to what it was.
ghost use Rattle.session_tests.specs.Codes.{mute, prefixed, suffixed};
ghost use Rattle.session_tests.specs.Backs.{mute_back, prefixed_back, suffixed_back};

use encoding::Encoding;
use text::{Parts, write_front};

// Has no bytes for any text.
#[derive(Clone, Copy)]
pub struct Mute;

// A byte before each text.
#[derive(Clone, Copy)]
pub struct Prefixed(pub u8);

// A byte after each text.
#[derive(Clone, Copy)]
pub struct Suffixed(pub u8);

impl Encoding for Mute {
    ghost means = { λ _. mute };

    ghost back = { λ s. mute_back };

    fn encode(&self, _text: &[u8], _area: &mut [u8]) -> Option<usize> {
        None
    }

    fn decode(&self, bytes: &[u8], area: &mut [u8]) -> Option<usize> {
        write_front(Parts(&[bytes]), area)
    }
}

impl Encoding for Prefixed {
    ghost means = { λ s. prefixed s.0 };

    ghost back = { λ s. prefixed_back s.0 };

    fn encode(&self, text: &[u8], area: &mut [u8]) -> Option<usize> {
        write_front(Parts(&[&[self.0], text]), area)
    }

    fn decode(&self, bytes: &[u8], area: &mut [u8]) -> Option<usize> {
        let start = bytes.len().min(1);
        write_front(Parts(&[&bytes[start..]]), area)
    }
}

impl Encoding for Suffixed {
    ghost means = { λ s. suffixed s.0 };

    ghost back = { λ s. suffixed_back s.0 };

    fn encode(&self, text: &[u8], area: &mut [u8]) -> Option<usize> {
        write_front(Parts(&[text, &[self.0]]), area)
    }

    fn decode(&self, bytes: &[u8], area: &mut [u8]) -> Option<usize> {
        let end = bytes.len().saturating_sub(1);
        write_front(Parts(&[&bytes[..end]]), area)
    }
}
