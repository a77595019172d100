// The areas that a call is lent.
ghost use Rattle.std.specs.Prelude.{◌≡◌};
ghost use Rattle.session.specs.Areas.{desk_of, SameAreas};
ghost use Rattle.session.specs.Outcome.{zeros};

// One for replies, and two to work in: as slices that are lent, as bytes that are owned, or as lengths. Short ones are refused
// by number, and how long is long enough hangs on the session's limit, so no invariant here can ask for their lengths.
#[derive(Clone, Copy, PartialEq, Eq, Debug, Drop)]
pub struct Areas<T> {
    pub reply: T,
    pub wide: T,
    pub narrow: T,
}

impl Areas<&mut [u8]> {
    // The work areas may have held a password, so each call that used them leaves them all zero.
    pub(crate) fn wipe(&mut self)
        ensures desk { desk_of self.new ≡ record { reply = self.old.reply.now; wide = zeros self.old.wide.now; narrow = zeros self.old.narrow.now } }
        ensures same { SameAreas self.old self.new }
    {
        self.wide.fill(0);
        self.narrow.fill(0);
    }
}
