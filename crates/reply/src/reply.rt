// A reply that was read, and by which rule replies end.

// The code of the line that decided, and how many bytes the whole reply has.
#[derive(Clone, Copy, PartialEq, Eq, Debug)]
pub struct Reply {
    pub code: u16,
    pub length: usize,
}

// How a reply ends: by its first line that decides; or, in answer to FEAT, a reply that begins `211-` only by a line that
// begins `211 `, since a feature may look like a line that decides. Any other reply to FEAT ends as every reply does.
#[derive(Clone, Copy, PartialEq, Eq, Debug)]
pub enum Rule {
    Usual,
    Feat,
}
