// Writing to the front of an area that is lent.
ghost use Rattle.std.specs.Prelude.{◌≡◌, ℕ, List, Option, length, Some, nat_le};
ghost use Rattle.std.specs.Iterator.{IsFinite, item_count};
ghost use Rattle.text.specs.Area.{filled, Spells, joined};
ghost use Rattle.std.specs.Borrow.{Bor};

// Bytes that come in pieces: an iterator that says which bytes the pieces that are still to come have together.
pub trait Pieces<'a>: Iterator<Item = &'a [u8]> + Copy {
    ghost bytes: { Self → List ℕ };

    ghost always: { (s : Self) → Self.can_next s };

    ghost ends: { (s : Self) → IsFinite (Self.remaining s) };

    ghost spells: { (s : Self) (r : Option (Bor (List ℕ))) (t : Self) → Self.next_gives s r t → Spells bytes s r t };
}

// Slices, one behind another.
#[derive(Clone, Copy)]
pub struct Parts<'a>(pub &'a [&'a [u8]]);

impl<'a> Iterator for Parts<'a> {
    type Item = &'a [u8];

    ghost next_gives = { Spells (λ s. joined s.0.now) };

    ghost remaining = { item_count (λ s. s.0.now) };

    fn next(&mut self) -> Option<&'a [u8]> {
        let [first, others @ ..] = self.0 else {
            return None;
        };
        self.0 = others;
        Some(*first)
    }
}

impl<'a> Pieces<'a> for Parts<'a> {
    ghost bytes = { λ s. joined s.0.now };

    ghost always = { λ _. tt };

    ghost ends = { λ _. tt };

    ghost spells = { λ s r t h. h };
}

// Whether the pieces have room.
fn fit<'a, P: Pieces<'a>>(mut pieces: P, room: usize) -> bool
    ensures { result ≡ nat_le (length (P.bytes pieces)) room }
{
    pieces
        .try_fold(room, |left, piece| left.checked_sub(piece.len()))
        .is_some()
}

// Writes the pieces one behind another to the front of the area and answers how many bytes they have; or, where they do
// not fit, answers none and leaves the area as it was.
// The length is answered beside the lent area, since nothing may be allocated and the area is the caller's.
pub fn write_front<'a, P: Pieces<'a>>(pieces: P, area: &mut [u8]) -> Option<usize>
    ensures { record { answer = result; area = area.new } ≡ filled (Some (P.bytes pieces)) area.old }
{
    if !fit(pieces, area.len()) {
        return None;
    }
    // An index, since the proof did not close with an area that shrinks: after the loop nothing is known of what it held.
    let mut end = 0;
    for piece in pieces {
        let next = end + piece.len();
        area[end..next].copy_from_slice(piece);
        end = next;
    }
    Some(end)
}
