// Numbers as they are written: decimal digits, and the hexadecimal digits of escapes and of IPv6 groups.
ghost use Rattle.std.specs.Prelude.{◌≡◌, ◌+◌, ◌-◌, ◌*◌};
ghost use Rattle.script.specs.Numbers.{hex_digit_of, hex_pair_of, numeral_of, all_digits, value_of, below_2^64};

// Why a word is no number below 2^64.
#[derive(Clone, Copy, PartialEq, Eq, Debug)]
pub(crate) enum NumeralError {
    // A number, and not below 2^64.
    TooLarge,
    NotANumber,
}

pub(crate) fn hex_digit(byte: u8) -> Option<u8>
    ensures { result ≡ hex_digit_of byte }
{
    char::from(byte).to_digit(16).map(|digit| digit as u8)
}

// The number that two hexadecimal digits write.
pub(crate) fn hex_pair(high: u8, low: u8) -> Option<u8>
    ensures { result ≡ hex_pair_of high low }
{
    let high = hex_digit(high)?;
    let low = hex_digit(low)?;
    Some(high * 16 + low)
}

// Reads a word of decimal digits; leading zeros may stand there.
pub(crate) fn read_number(word: &[u8]) -> Result<u64, NumeralError>
    ensures { result ≡ numeral_of word.now }
{
    if word.is_empty() || !all_digits(word) {
        return Err(NumeralError::NotANumber);
    }
    small_value(word).ok_or(NumeralError::TooLarge)
}

fn all_digits(word: &[u8]) -> bool
    ensures { result ≡ all_digits word.now }
{
    word.iter().all(|byte| byte.is_ascii_digit())
}

// The number with a digit more at its end, if it is below 2^64. A byte below the digits counts for nothing here.
fn with_digit(value: u64, digit: u8) -> Option<u64>
    ensures { result ≡ below_2^64 (value * 10 + (digit - 48)) }
{
    value
        .checked_mul(10)?
        .checked_add(u64::from(digit.saturating_sub(b'0')))
}

// The number that the digits write, if it is below 2^64.
fn small_value(word: &[u8]) -> Option<u64>
    ensures { result ≡ below_2^64 (value_of word.now) }
{
    word.iter()
        .try_fold(0, |value, digit| with_digit(value, *digit))
}
