// A carrier that answers from a script.
ghost use Rattle.std.specs.Prelude.{◌≡◌};
ghost use Rattle.carrier.specs.Scripts.{plays, to_play, next_entry, later_entries};
ghost use Rattle.carrier.specs.declared.carrier.CarrierState.TheVariants.{Closed};

use crate::address::SocketAddr;
use crate::carrier::{Carrier, CarrierRefusal, CarrierState};

// The answer to one ask. One that does not fit the ask refuses it.
#[derive(Clone, Copy, PartialEq, Eq, Debug)]
pub enum Entry {
    Listens(SocketAddr),
    Dials,
    Calls(SocketAddr),
    NoneYet,
    Refuses,
}

// Each ask uses up an entry, whatever it answers; at the script's end every ask is refused. Of the entries those are kept
// that are still to play.
#[derive(Drop)]
pub struct Script<'a> {
    entries: &'a [Entry],
    state: CarrierState,
}

impl<'a> Script<'a> {
    // Closed, with all the entries to play.
    pub fn new(entries: &'a [Entry]) -> Script<'a>
        ensures entries { to_play result ≡ entries.now }
        ensures state { result.state ≡ Closed }
    {
        Script {
            entries,
            state: CarrierState::Closed,
        }
    }
}

impl Script<'_> {
    // The next entry, which is then used up; at the end a refusal.
    fn next_entry(&mut self) -> Entry
        ensures entry { result ≡ next_entry (to_play self.old) }
        ensures used { to_play self.new ≡ later_entries (to_play self.old) }
        ensures state { self.new.state ≡ self.old.state }
    {
        self.entries
            .split_off_first()
            .copied()
            .unwrap_or(Entry::Refuses)
    }

    // Closes, as every refusal does.
    fn refuse(&mut self) -> CarrierRefusal
        ensures state { self.new.state ≡ Closed }
        ensures entries { to_play self.new ≡ to_play self.old }
    {
        self.state = CarrierState::Closed;
        CarrierRefusal
    }
}

impl Carrier for Script<'_> {
    ghost means = { λ s. plays (to_play s) s.state };

    fn listen(&mut self) -> Result<SocketAddr, CarrierRefusal> {
        let Entry::Listens(address) = self.next_entry() else {
            return Err(self.refuse());
        };
        self.state = CarrierState::Listening;
        Ok(address)
    }

    // A script answers the same whatever address is dialled.
    fn dial(&mut self, _to: SocketAddr) -> Result<(), CarrierRefusal> {
        if self.next_entry() != Entry::Dials {
            return Err(self.refuse());
        }
        self.state = CarrierState::Standing;
        Ok(())
    }

    fn caller(&mut self) -> Result<Option<SocketAddr>, CarrierRefusal> {
        let awaits = self.state.awaits_caller();
        match self.next_entry() {
            Entry::Calls(address) if awaits => {
                self.state = CarrierState::Holding;
                Ok(Some(address))
            }
            Entry::NoneYet if awaits => {
                self.state = CarrierState::Listening;
                Ok(None)
            }
            _ => Err(self.refuse()),
        }
    }

    fn keep(&mut self) {
        self.state = self.state.kept();
    }

    fn close(&mut self) {
        self.state = CarrierState::Closed;
    }

    fn state(&self) -> CarrierState {
        self.state
    }
}
