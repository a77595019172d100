// What a session is made with.
ghost use Rattle.std.specs.Prelude.{◌≡◌};
ghost use Rattle.session.specs.Limits.{clamped};

use carrier::{IpAddr, PeerRule};

const LEAST_LIMIT: usize = 512;

const MOST_LIMIT: usize = 262_144;

// How data connections are made.
#[derive(Clone, Copy)]
pub enum Mode {
    Active,
    ExtendedPassive,
    Passive,
}

#[derive(Clone, Copy)]
pub struct Settings {
    pub mode: Mode,
    // Dial the control peer's address in the place of the one that PASV answers.
    pub nat_workaround: bool,
    // The address of the control connection's peer.
    pub peer: IpAddr,
    // Who may connect in active mode.
    pub peer_rule: PeerRule,
    // The most bytes of one reply. A session takes the nearer of 512 and 262,144 for a limit outside them.
    pub limit: usize,
}

impl Settings {
    // The limit as a session takes it.
    pub fn clamped_limit(&self) -> usize
        ensures { result ≡ clamped self.now.limit }
    {
        self.limit.clamp(LEAST_LIMIT, MOST_LIMIT)
    }
}
