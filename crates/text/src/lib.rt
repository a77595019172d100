// The text of the control connection: ASCII, decimal numerals and UTF-8.
#![tactic(auto)]

mod area;
mod ascii;
mod decimal;
mod sequences;
mod utf8;

pub use area::{Parts, Pieces, write_front};
pub use ascii::is_digit;
pub use decimal::write_decimal;
pub use sequences::Broken;
pub use utf8::{is_utf8, sequence, utf8_by_table};
