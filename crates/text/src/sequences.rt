// What is wrong at the front of some bytes that are to be read as UTF-8.

// A broken beginning of a sequence: how many bytes it takes, which are none only where there are no bytes.
#[derive(Clone, Copy, PartialEq, Eq, Debug)]
pub struct Broken(pub usize);
