// A carrier that always dials and never listens.
ghost use Rattle.std.specs.Prelude.{◌≡◌, false};
ghost use Rattle.carrier.specs.Diallers.{dials};

use crate::address::SocketAddr;
use crate::carrier::{Carrier, CarrierRefusal, CarrierState};

// It neither listens nor holds, so whether it stands is all its state: a `CarrierState` would have two cases that never are.
#[derive(Drop)]
pub struct Dialler {
    standing: bool,
}

impl Dialler {
    // Closed.
    pub fn new() -> Dialler
        ensures { result.standing ≡ false }
    {
        Dialler { standing: false }
    }
}

impl Carrier for Dialler {
    ghost means = { λ s. dials s.standing };

    fn listen(&mut self) -> Result<SocketAddr, CarrierRefusal> {
        self.standing = false;
        Err(CarrierRefusal)
    }

    fn dial(&mut self, _to: SocketAddr) -> Result<(), CarrierRefusal> {
        self.standing = true;
        Ok(())
    }

    fn caller(&mut self) -> Result<Option<SocketAddr>, CarrierRefusal> {
        self.standing = false;
        Err(CarrierRefusal)
    }

    // It never holds a caller, so there is none to keep.
    fn keep(&mut self) {}

    fn close(&mut self) {
        self.standing = false;
    }

    fn state(&self) -> CarrierState {
        if self.standing {
            CarrierState::Standing
        } else {
            CarrierState::Closed
        }
    }
}
