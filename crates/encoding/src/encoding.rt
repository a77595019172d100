// What an encoding of the control connection is.
ghost use Rattle.std.specs.Prelude.{◌≡◌, Some};
ghost use Rattle.text.specs.Area.{filled};
ghost use Rattle.encoding.specs.Code.{Code, Back};

// Converts text, held as UTF-8, to the bytes that go over the wire and back. An implementation says by `means` which
// conversion it is, and owes the law that what it encodes is decoded to what it was.
pub trait Encoding {
    ghost means: { Self → Code };

    // Writes the encoded text to the front of the area and answers its length; or, where the text has no encoding or
    // its bytes do not fit, answers none and leaves the area as it was.
    fn encode(&self, text: &[u8], area: &mut [u8]) -> Option<usize>
        ensures { record { answer = result; area = area.new } ≡ filled ((means self.now).encode text.now) area.old };

    // Writes the decoded bytes to the front of the area and answers the length of the text; or, where it does not fit,
    // answers none and leaves the area as it was.
    fn decode(&self, bytes: &[u8], area: &mut [u8]) -> Option<usize>
        ensures { record { answer = result; area = area.new } ≡ filled (Some ((means self.now).decode bytes.now)) area.old };

    ghost back: { (s : Self) → Back (means s) };
}
