// Replies of the server: their grammar, and the reader over any link.
#![tactic(auto)]

mod control;
mod facts;
mod lines;
mod reply;
mod status;

pub use control::read_response;
pub use facts::{one_reading, samples};
pub use reply::{Reply, Rule};
pub use status::{Status, is_expected, is_preliminary};
