// What the encodings make of samples.
#![tactic(auto)]

#[cfg(test)]
mod utf8;
