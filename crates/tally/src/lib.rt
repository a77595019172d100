// Any list of calls on a new session, and the law that holds after each of them.
#![tactic(auto)]

mod calls;
mod drive;
mod law;

pub use calls::{Answer, Ask, Call, Lent, Row};
pub use drive::{make, run};
pub use law::law_stands;
