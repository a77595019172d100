// Command lines: their verbs and texts, the questions a line is put, and why a call is refused.
#![tactic(auto)]

mod fault;
mod laws;
mod line;
mod refusal;
mod telnet;
mod types;
mod verb;

pub use fault::Fault;
pub use laws::{
    escaping_reads_back, lines_are_short, lines_are_whole, lines_read_back, texts_tell_their_verbs,
};
pub use line::{Command, LONGEST_ARGUMENT, LONGEST_ENCODED, LONGEST_ESCAPED, encode_line};
pub use refusal::{Layer, Refusal};
pub use telnet::{escape_telnet_iac, unescape_telnet_iac};
pub use types::{FileType, FormatControl};
pub use verb::Verb;
