// One FTP control session: a line at a time, and to each line its own reply.
#![tactic(auto)]

mod areas;
mod calls;
mod control;
mod plain;
mod session;
mod settings;

pub use areas::Areas;
pub use plain::Plain;
pub use session::{Record, Session};
pub use settings::{Mode, Settings};
