// The data side of a session: who dials or listens for a data connection, as far as the control session sees it.
#![tactic(auto)]

mod address;
mod carrier;
mod dialler;
mod laws;
mod script;

pub use address::{IpAddr, PeerRule, SocketAddr};
pub use carrier::{Carrier, CarrierRefusal, CarrierState};
pub use dialler::Dialler;
pub use laws::states_stand;
pub use script::{Entry, Script};
