// Byte 255 doubled, as Telnet sends it, and made single again.
ghost use Rattle.std.specs.Prelude.{◌≡◌, ◌≤◌, ◌++◌, length, Some};
ghost use Rattle.std.specs.Iterator.{item_count};
ghost use Rattle.std.specs.List.{prefix_len};
ghost use Rattle.text.specs.Area.{filled, Spells};
ghost use Rattle.command.specs.Lines.{single, escape, unescape};

use std::slice;
use text::{Pieces, write_front};

// Telnet's "interpret as command" byte, which stands for itself where it is doubled.
const IAC: u8 = 255;

// How many bytes stand before the first 255.
fn run_length(line: &[u8]) -> usize
    ensures value { result ≡ prefix_len single line.now }
    ensures within { result ≤ length line.now }
{
    line.iter().take_while(|byte| **byte != IAC).count()
}

// A line with each 255 doubled, of which comes at a time a pair, or all that stands before the next 255: a line without any
// is one piece, since to copy a byte by itself costs several times as much.
#[derive(Clone, Copy)]
pub(crate) struct Escaped<'a> {
    // What stands before the line's first 255, until it has come. It is found once, and not anew when the pieces are measured and
    // when they are written.
    run: &'a [u8],
    // What is left from there on.
    rest: &'a [u8],
}

impl<'a> Escaped<'a> {
    #[tactic(auto, using(crate::proofs::Runs::run_first))]
    pub(crate) fn of(line: &'a [u8]) -> Escaped<'a>
        ensures doubled { result.run.now ++ escape result.rest.now ≡ escape line.now }
    {
        let (run, rest) = line.split_at(run_length(line));
        Escaped { run, rest }
    }
}

impl<'a> Iterator for Escaped<'a> {
    type Item = &'a [u8];

    ghost next_gives = { Spells (λ s. s.run.now ++ escape s.rest.now) };

    ghost remaining = { item_count (λ s. s.run.now ++ s.rest.now) };

    #[tactic(auto, using(crate::proofs::Runs::run_next))]
    fn next(&mut self) -> Option<&'a [u8]> {
        let run = self.run;
        if !run.is_empty() {
            self.run = &[];
            return Some(run);
        }
        match self.rest {
            [] => None,
            [IAC, behind @ ..] => {
                self.rest = behind;
                Some(&[IAC, IAC])
            }
            rest => {
                let (run, behind) = rest.split_at(run_length(rest));
                self.rest = behind;
                Some(run)
            }
        }
    }
}

impl<'a> Pieces<'a> for Escaped<'a> {
    ghost bytes = { λ s. s.run.now ++ escape s.rest.now };

    ghost always = { λ _. tt };

    ghost ends = { λ _. tt };

    ghost spells = { λ s r t h. h };
}

// Bytes with each pair of 255s made single, which come one at a time.
#[derive(Clone, Copy)]
struct Unescaped<'a>(&'a [u8]);

impl<'a> Iterator for Unescaped<'a> {
    type Item = &'a [u8];

    ghost next_gives = { Spells (λ s. unescape s.0.now) };

    ghost remaining = { item_count (λ s. s.0.now) };

    fn next(&mut self) -> Option<&'a [u8]> {
        let [first, rest @ ..] = self.0 else {
            return None;
        };
        self.0 = match rest {
            [IAC, others @ ..] if *first == IAC => others,
            _ => rest,
        };
        Some(slice::from_ref(first))
    }
}

impl<'a> Pieces<'a> for Unescaped<'a> {
    ghost bytes = { λ s. unescape s.0.now };

    ghost always = { λ _. tt };

    ghost ends = { λ _. tt };

    ghost spells = { λ s r t h. h };
}

// Escapes Telnet's IAC byte in a line of the control connection: a 255 is sent twice. The escaped line goes to the front
// of the area; where it does not fit, the area stays as it was.
pub fn escape_telnet_iac(line: &[u8], area: &mut [u8]) -> Option<usize>
    ensures { record { answer = result; area = area.new } ≡ filled (Some (escape line.now)) area.old }
{
    write_front(Escaped::of(line), area)
}

// Collapses doubled IAC bytes, in pairs from the left; a lone one stays, for servers that send it literally. What results
// goes to the front of the area; where it does not fit, the area stays as it was.
pub fn unescape_telnet_iac(bytes: &[u8], area: &mut [u8]) -> Option<usize>
    ensures { record { answer = result; area = area.new } ≡ filled (Some (unescape bytes.now)) area.old }
{
    write_front(Unescaped(bytes), area)
}
