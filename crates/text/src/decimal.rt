// Decimal numerals: a number as its digits, the first not 0 but for the number 0 itself.
ghost use Rattle.std.specs.Prelude.{◌≡◌, Some, decimal};
ghost use Rattle.text.specs.Area.{filled};

use crate::area::{Parts, write_front};

// Writes the number to the front of the area and answers how many digits it has; or, where they do not fit, answers
// none and leaves the area as it was.
pub fn write_decimal(n: u64, area: &mut [u8]) -> Option<usize>
    ensures { record { answer = result; area = area.new } ≡ filled (Some (decimal n)) area.old }
{
    let mut digits = itoa::Buffer::new();
    write_front(Parts(&[digits.format(n).as_bytes()]), area)
}
