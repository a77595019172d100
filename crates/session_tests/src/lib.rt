// The session's calls over a link of two buffers, with the encodings that make each refusal of a line.
#![tactic(auto)]

#[cfg(test)]
mod areas;
#[cfg(test)]
mod cases;
pub mod encodings;
#[cfg(test)]
mod lines;
#[cfg(test)]
mod replies;
