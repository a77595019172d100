// The text of a session to be played: its settings, the server's bytes, the host's answers and the calls.
#![tactic(auto)]

mod address;
mod call;
mod choice;
mod cut;
mod error;
mod host;
mod lines;
mod name;
mod number;
mod quote;
mod script;
mod settings;
mod words;

pub use choice::EncodingName;
pub use error::{Problem, ScriptError};
pub use lines::parse;
pub use script::{OwnedAsk, Script, Step};
