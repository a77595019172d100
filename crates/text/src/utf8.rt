// UTF-8.
ghost use Rattle.std.specs.Prelude.{◌≡◌, ◌<◌, length, slice_index_or, is_ok, false};
ghost use Rattle.std.specs.Range.{range_inclusive_start, range_inclusive_end, range_inclusive_exhausted};
ghost use Rattle.text.specs.Table.{range, later};
ghost use Rattle.text.specs.Front.{row_of, announced, front, length_of, ByTable};
ghost use Rattle.text.specs.Utf8.{utf8, Utf8ByTable};

use crate::sequences::Broken;
use std::ops::RangeInclusive;

pub fn is_utf8(bytes: &[u8]) -> bool
    ensures { result ≡ utf8 bytes.now }
{
    std::str::from_utf8(bytes).is_ok()
}

// How many bytes a sequence has that begins with this one, if one does: as many as it has leading one bits, and one where
// it has none. No sequence begins with a later byte (80 to BF), with C0 or C1, whose sequences would be overlong, or with
// a byte past F4, whose sequences would pass U+10FFFF.
fn announced_length(first: u8) -> Option<usize>
    ensures { result ≡ announced (row_of first) }
{
    match first {
        0x00..=0x7F => Some(1),
        0xC2..=0xF4 => Some(first.leading_ones() as usize),
        _ => None,
    }
}

// The bytes that may stand at a place behind the first byte of a sequence. Behind four first bytes the second is limited,
// to shut out overlong sequences, surrogates, and what lies past U+10FFFF.
fn allowed(first: u8, place: usize) -> RangeInclusive<u8>
    requires behind { 0 < place }
    requires within { place < length (row_of first) }
    ensures ends { range (range_inclusive_start result) (range_inclusive_end result) ≡ slice_index_or (row_of first) place later }
    ensures fresh { range_inclusive_exhausted result ≡ false }
{
    match (place, first) {
        (1, 0xE0) => 0xA0..=0xBF,
        (1, 0xED) => 0x80..=0x9F,
        (1, 0xF0) => 0x90..=0xBF,
        (1, 0xF4) => 0x80..=0x8F,
        _ => 0x80..=0xBF,
    }
}

// How long the sequence at the front of some bytes is. It is broken, and ends there, where a byte that its first one
// announces is missing or may not stand at its place.
pub fn sequence(bytes: &[u8]) -> Result<usize, Broken>
    ensures value { result ≡ front bytes.now }
    ensures maximal { ByTable bytes.now (length_of result) (is_ok result) }
{
    let [first, ..] = bytes else {
        return Err(Broken(0));
    };
    let Some(announced) = announced_length(*first) else {
        return Err(Broken(1));
    };
    for place in 1..announced {
        match bytes.get(place) {
            Some(byte) if allowed(*first, place).contains(byte) => {}
            _ => return Err(Broken(place)),
        }
    }
    Ok(announced)
}

// A theorem: bytes are UTF-8 exactly where they are sequences of the table, one after another.
pub fn utf8_by_table()
    ensures { Utf8ByTable }
{}
