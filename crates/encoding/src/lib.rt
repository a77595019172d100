// Character encodings of command lines and of the text read back.
#![tactic(auto)]

mod encoding;
mod lossy;
mod utf8;

pub use encoding::Encoding;
pub use utf8::{Utf8Encoding, lossy_is_text};
