// The one record that a refused call answers.
ghost use Rattle.std.specs.Prelude.{◌≡◌};
ghost use Rattle.command.specs.Refusals.{number_of, layer_of};

use crate::refusal::{Layer, Refusal};
use crate::verb::Verb;

// Why a call was refused; the verb of the line that it speaks of, if of one; and code and length of the last reply that
// the call read. With none read both are 0. A reply that is not finished has code 0 and the bytes stored of it.
#[derive(Clone, Copy, PartialEq, Eq, Debug)]
pub struct Fault {
    pub refusal: Refusal,
    pub verb: Option<Verb>,
    // Numbers, 0 where no reply was read, since docs/RULES.md (Refusals) has them so.
    pub code: u16,
    pub length: usize,
}

impl Fault {
    pub fn number(&self) -> u8
        ensures { result ≡ number_of self.now.refusal }
    {
        self.refusal.number()
    }

    pub fn layer(&self) -> Layer
        ensures { result ≡ layer_of self.now.refusal }
    {
        self.refusal.layer()
    }
}
