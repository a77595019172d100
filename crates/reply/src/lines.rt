// The lines of a reply: how the first begins, which one is the last, and the code that the last one gives.
ghost use Rattle.std.specs.Prelude.{◌≡◌};
ghost use Rattle.reply.specs.Lines.{deciding, begun, opens_features, closing, ender, last_of, settled};

use crate::reply::Rule;
use text::is_digit;

// Which line is the last: the first that decides, or the first that begins `211 `.
#[derive(Clone, Copy)]
pub(crate) enum Last {
    Deciding,
    Features,
}

// The code of a line that decides: three digits and a space.
fn deciding_code(line: &[u8]) -> Option<u16>
    ensures { result ≡ deciding line.now }
{
    match *line {
        [a, b, c, b' ', ..] if is_digit(a) && is_digit(b) && is_digit(c) => Some(
            u16::from(a - b'0') * 100 + u16::from(b - b'0') * 10 + u16::from(c - b'0'),
        ),
        _ => None,
    }
}

// Whether a first line has five bytes and begins with three digits and a space or a hyphen.
fn well_begun(line: &[u8]) -> bool
    ensures { result ≡ begun line.now }
{
    matches!(*line, [a, b, c, b' ' | b'-', _, ..] if is_digit(a) && is_digit(b) && is_digit(c))
}

// Whether a first line opens a list of features.
fn opens_features(line: &[u8]) -> bool
    ensures { result ≡ opens_features line.now }
{
    line.starts_with(b"211-")
}

// The code of a line that closes a list of features.
fn closing_code(line: &[u8]) -> Option<u16>
    ensures { result ≡ closing line.now }
{
    line.starts_with(b"211 ").then_some(211)
}

// Which line will be the last, by the rule and the first line.
fn last_of(rule: Rule, first: &[u8]) -> Last
    ensures { result ≡ last_of rule first.now }
{
    match rule {
        Rule::Feat if opens_features(first) => Last::Features,
        Rule::Usual | Rule::Feat => Last::Deciding,
    }
}

// Which line will be the last, or none where the first line is ill begun.
pub(crate) fn settled(rule: Rule, first: &[u8]) -> Option<Last>
    ensures { result ≡ settled rule first.now }
{
    well_begun(first).then_some(last_of(rule, first))
}

// The code of a line that is the last.
pub(crate) fn ending_code(last: Last, line: &[u8]) -> Option<u16>
    ensures { result ≡ ender last line.now }
{
    match last {
        Last::Deciding => deciding_code(line),
        Last::Features => closing_code(line),
    }
}
