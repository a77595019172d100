// Texts in double quotes, with escapes for what cannot stand in a line.
ghost use Rattle.std.specs.Prelude.{◌≡◌, ◌-◌, Ok, length, drop, IfOk, IfErr};
ghost use Rattle.script.specs.Quotes.{letter_of, piece_by, escaped_of, piece_of, FitsIn, meaning, FailsBy};

use crate::error::Problem;
use crate::number::hex_pair;
use std::alloc::Global;

// What stands at the front of a quoted text.
#[derive(Clone, Copy, PartialEq, Eq, Debug)]
pub(crate) enum Piece {
    // A byte, and how many bytes it is written with: not the rest of the text, since its meaning is defined by this length.
    Byte { byte: u8, length: usize },
    // The closing quote.
    Close,
}

// Why a quoted text says nothing.
#[derive(Clone, Copy, PartialEq, Eq, Debug)]
pub(crate) enum QuoteError {
    Unclosed,
    BadEscape,
}

// The byte that a letter stands for behind a backslash.
fn letter(byte: u8) -> Option<u8>
    ensures { result ≡ letter_of byte }
{
    match byte {
        b'r' => Some(b'\r'),
        b'n' => Some(b'\n'),
        b't' => Some(b'\t'),
        b'0' => Some(0),
        b'\\' => Some(b'\\'),
        b'"' => Some(b'"'),
        _ => None,
    }
}

fn written(length: usize, byte: Option<u8>) -> Result<Piece, QuoteError>
    ensures { result ≡ piece_by length byte }
{
    let byte = byte.ok_or(QuoteError::BadEscape)?;
    Ok(Piece::Byte { byte, length })
}

// What stands behind a backslash.
fn escaped(text: &[u8]) -> Result<Piece, QuoteError>
    ensures { result ≡ escaped_of text.now }
{
    match text {
        [] => Err(QuoteError::Unclosed),
        [b'x', high, low, ..] => written(4, hex_pair(*high, *low)),
        [b'x', ..] => Err(QuoteError::BadEscape),
        [byte, ..] => written(2, letter(*byte)),
    }
}

fn front_piece(text: &[u8]) -> Result<Piece, QuoteError>
    ensures value { result ≡ piece_of text.now }
    ensures within { FitsIn text.now result }
{
    match text {
        [] => Err(QuoteError::Unclosed),
        [b'"', ..] => Ok(Piece::Close),
        [b'\\', escape @ ..] => escaped(escape),
        [byte, ..] => Ok(Piece::Byte {
            byte: *byte,
            length: 1,
        }),
    }
}

// Reads a text behind its opening quote, up to the closing one: its bytes, and what follows that quote.
pub(crate) fn read_quoted<'a>(heap: Global, text: &'a [u8]) -> Result<(Vec<u8>, &'a [u8]), Problem>
    ensures value { IfOk result (λ q. meaning text.now ≡ Ok (q.0.items, length text.now - length q.1.now)) }
    ensures rest { IfOk result (λ q. q.1.now ≡ drop (length text.now - length q.1.now) text.now) }
    ensures fails { IfErr result (λ p. FailsBy p (meaning text.now)) }
{
    let mut bytes = Vec::new(heap);
    let mut rest = text;
    'pieces: while let Piece::Byte { byte, length } = front_piece(rest)? {
        bytes.push(byte)?;
        rest = &rest[length..];
    }
    Ok((bytes, &rest[1..]))
}
