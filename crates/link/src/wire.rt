// How a link ends, and its two refusals.

// What comes after the last byte: the other side has closed the connection, or it broke.
#[derive(Clone, Copy, PartialEq, Eq, Debug)]
pub enum Ending {
    Closed,
    Broken,
}

// Nothing more comes, since the connection broke.
#[derive(Clone, Copy, PartialEq, Eq, Debug)]
pub struct BrokenLink;

// There is no room for all of the bytes.
#[derive(Clone, Copy, PartialEq, Eq, Debug)]
pub struct FullLink;
