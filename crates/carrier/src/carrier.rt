// What a carrier of data connections is.
ghost use Rattle.std.specs.Prelude.{◌≡◌, Some};
ghost use Rattle.carrier.specs.Deck.{Deck, awaits, kept, state_name, listen_of, dial_of, caller_of, keep_of, close_of};

use crate::address::SocketAddr;
use std::fmt;

// Closed; listening for a caller; holding a caller that is not kept yet; or standing, with a data connection made.
#[derive(Clone, Copy, PartialEq, Eq, Debug)]
pub enum CarrierState {
    Closed,
    Listening,
    Holding,
    Standing,
}

impl CarrierState {
    // Whether a caller can come: to a listener, and in the place of a caller that is not kept.
    pub fn awaits_caller(self) -> bool
        ensures { result ≡ awaits self }
    {
        matches!(self, CarrierState::Listening | CarrierState::Holding)
    }

    // A caller that is held stands; other states stay.
    pub fn kept(self) -> CarrierState
        ensures { result ≡ kept self }
    {
        match self {
            CarrierState::Holding => CarrierState::Standing,
            _ => self,
        }
    }
}

// Its name, for people.
impl fmt::Display for CarrierState {
    ghost output = { λ state. Some (state_name state) };

    fn fmt<W: fmt::Write>(&self, f: &mut fmt::Formatter<W>) -> fmt::Result {
        f.write_str(match self {
            CarrierState::Closed => "closed",
            CarrierState::Listening => "listening",
            CarrierState::Holding => "holding",
            CarrierState::Standing => "standing",
        })
    }
}

// The carrier does not listen or dial, or no caller will come.
#[derive(Clone, Copy, PartialEq, Eq, Debug)]
pub struct CarrierRefusal;

// Makes data connections, by dialling (passive mode) or by listening for a caller (active mode). An implementation says
// by `means` what it will answer to any asks in turn, and in which state it is.
pub trait Carrier {
    ghost means: { Self → Deck };

    // Listens, from any state, and answers where; a refusal closes it.
    fn listen(&mut self) -> Result<SocketAddr, CarrierRefusal>
        ensures answer { result ≡ (listen_of (means self.old)).answer }
        ensures after { means self.new ≡ (listen_of (means self.old)).after };

    // Dials, from any state, and then stands; a refusal closes it.
    fn dial(&mut self, to: SocketAddr) -> Result<(), CarrierRefusal>
        ensures answer { result ≡ (dial_of to (means self.old)).answer }
        ensures after { means self.new ≡ (dial_of to (means self.old)).after };

    // Asks for a caller: one, who is then held, or none yet. A failure closes it, and so does the ask where it neither
    // listens nor holds.
    fn caller(&mut self) -> Result<Option<SocketAddr>, CarrierRefusal>
        ensures answer { result ≡ (caller_of (means self.old)).answer }
        ensures after { means self.new ≡ (caller_of (means self.old)).after };

    // A caller that is held stands; else nothing changes.
    fn keep(&mut self)
        ensures { means self.new ≡ keep_of (means self.old) };

    fn close(&mut self)
        ensures { means self.new ≡ close_of (means self.old) };

    fn state(&self) -> CarrierState
        ensures { result ≡ (means self.now).state };
}
