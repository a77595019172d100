// What a link is to the session.
ghost use Rattle.std.specs.Prelude.{◌≡◌};
ghost use Rattle.link.specs.Wire.{Wire, put_of, put_answer, Pulled};

use crate::wire::{BrokenLink, FullLink};

// A connection of bytes in both directions. An implementation says by `means` what was sent, what is coming and how it
// ends; all that is said of a caller rests on that meaning alone.
pub trait Link {
    ghost means: { Self → Wire };

    // Takes all of the bytes; or, where there is no room for all, refuses and changes nothing.
    fn put(&mut self, bytes: &[u8]) -> Result<(), FullLink>
        ensures value { result ≡ put_answer bytes.now (means self.old) }
        ensures after { means self.new ≡ put_of bytes.now (means self.old) };

    // Moves the first coming bytes to the front of the area and answers how many: at least one, where there are any to
    // move and there is room for one.
    fn pull(&mut self, area: &mut [u8]) -> Result<usize, BrokenLink>
        ensures { Pulled (means self.old) (means self.new) area.old area.new result };
}
