// The control connection below the session: bytes that go out and bytes that come in.
#![tactic(auto)]

mod buffers;
mod link;
mod read;
mod wire;

pub use buffers::Buffers;
pub use link::Link;
pub use read::read_byte;
pub use wire::{BrokenLink, Ending, FullLink};
