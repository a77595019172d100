// The text of a command line, and what it is asked before it is sent.
ghost use Rattle.std.specs.Prelude.{◌≡◌, ◌≤◌, false, length, Some, Ok};
ghost use Rattle.command.specs.Lines.{argument_of, one_line, line_refused, argument_refused, unless, text_of, encoded, escaped, line_of, areas_serve, line_in, line_told, line_length};
ghost use Rattle.text.specs.Area.{filled};

use crate::refusal::Refusal;
use crate::telnet::Escaped;
use crate::verb::Verb;
use encoding::Encoding;
use text::{Parts, is_utf8, write_front};

// How many bytes an argument has at most.
pub const LONGEST_ARGUMENT: usize = 4096;

// How many bytes an encoded line has at most, which is the least length of the narrow area that it is encoded into.
pub const LONGEST_ENCODED: usize = 4352;

// How many bytes a line has at most with each 255 doubled, which is the least length of the wide area that it is made in.
pub const LONGEST_ESCAPED: usize = 2 * LONGEST_ENCODED;

// A command: its verb, and its argument if it has one. An empty argument is an argument.
#[derive(Clone, Copy)]
pub struct Command<'a> {
    pub verb: Verb,
    pub argument: Option<&'a [u8]>,
}

impl<'a> Command<'a> {
    // Writes the text of the line to the front of the area: the verb, a space and the argument only if there is one, and
    // the line's end.
    fn format(self, area: &mut [u8]) -> Option<usize>
        ensures { record { answer = result; area = area.new } ≡ filled (Some (text_of self.entry.verb (argument_of self.entry))) area.old }
    {
        let word: &'a [u8] = self.verb.word();
        match self.argument {
            Some(argument) => write_front(Parts(&[word, b" ", argument, b"\r\n"]), area),
            None => write_front(Parts(&[word, b"\r\n"]), area),
        }
    }

    // What the argument is asked before the line is made.
    fn validate_command_line(self) -> Result<(), Refusal>
        ensures { result ≡ unless (argument_refused (argument_of self.entry)) (Ok tt) }
    {
        match self.argument {
            Some(argument) if argument.len() > LONGEST_ARGUMENT => Err(Refusal::ArgumentTooLong),
            Some(argument) if !is_utf8(argument) => Err(Refusal::ArgumentNotUtf8),
            Some(argument) if !is_one_line(argument) => Err(Refusal::ArgumentNotOneLine),
            _ => Ok(()),
        }
    }
}

fn is_one_line(bytes: &[u8]) -> bool
    ensures { result ≡ one_line bytes.now }
{
    bytes.iter().all(|byte| !matches!(*byte, b'\r' | b'\n'))
}

// What the encoded line is asked, so that no encoding can end it early or leave it open.
fn validate_encoded_command_line(line: &[u8]) -> Result<(), Refusal>
    ensures { result ≡ unless (line_refused line.now) (Ok tt) }
{
    match line {
        [body @ .., b'\r', b'\n'] if is_one_line(body) => Ok(()),
        [.., b'\r', b'\n'] => Err(Refusal::LineNotOne),
        _ => Err(Refusal::LineNotEnded),
    }
}

// Encodes the text to the front of the area, and asks what the encoded line is asked.
fn encode_text<E: Encoding>(encoding: &E, text: &[u8], narrow: &mut [u8]) -> Result<usize, Refusal>
    requires { length narrow.old ≡ LONGEST_ENCODED }
    ensures line { escaped (line_told result narrow.new) ≡ encoded ((E.means encoding.now).encode text.now) }
    ensures within { line_length result ≤ LONGEST_ENCODED }
{
    let length = encoding.encode(text, narrow).ok_or(Refusal::NoEncoding)?;
    validate_encoded_command_line(&narrow[..length])?;
    Ok(length)
}

// Makes the command's line in areas that are long enough.
fn make_line<E: Encoding>(
    command: Command<'_>,
    encoding: &E,
    wide: &mut [u8],
    narrow: &mut [u8],
) -> Result<usize, Refusal>
    requires wide { LONGEST_ESCAPED ≤ length wide.old }
    requires narrow { LONGEST_ENCODED ≤ length narrow.old }
    ensures line { line_told result wide.new ≡ line_of (E.means encoding.now) command.entry.verb (argument_of command.entry) }
    ensures within { line_length result ≤ LONGEST_ESCAPED }
{
    command.validate_command_line()?;
    let length = command.format(wide).unwrap();
    let encoded = encode_text(encoding, &wide[..length], &mut narrow[..LONGEST_ENCODED])?;
    Ok(write_front(Escaped::of(&narrow[..encoded]), wide).unwrap())
}

// Makes the command's line as it goes over the wire, at the front of `wide`, and answers its length. The text is written
// to `wide` first and encoded into `narrow`; what else the two hold after is of no meaning.
pub fn encode_line<E: Encoding>(
    command: Command<'_>,
    encoding: &E,
    wide: &mut [u8],
    narrow: &mut [u8],
) -> Result<usize, Refusal>
    ensures line { line_told result wide.new ≡ line_in (length wide.old) (length narrow.old) (line_of (E.means encoding.now) command.entry.verb (argument_of command.entry)) }
    ensures within { line_length result ≤ 8704 }
    ensures kept { areas_serve (length wide.old) (length narrow.old) ≡ false → (wide.new ≡ wide.old) × (narrow.new ≡ narrow.old) }
{
    if wide.len() < LONGEST_ESCAPED || narrow.len() < LONGEST_ENCODED {
        return Err(Refusal::AreaTooShort);
    }
    make_line(command, encoding, wide, narrow)
}
