// Bytes as text.
use session::Plain;
use std::fmt;
use tally::Ask;

// The part of some bytes from a place on; nothing where the place is past the end.
pub fn rest(bytes: &[u8], from: usize) -> &[u8] {
    bytes.get(from..).unwrap_or(&[])
}

// At most so many bytes from the front.
pub fn front(bytes: &[u8], length: usize) -> &[u8] {
    bytes.get(..length).unwrap_or(bytes)
}

// Two digits for each byte.
#[derive(Clone, Copy)]
pub struct Hex<'a>(pub &'a [u8]);

impl fmt::Display for Hex<'_> {
    fn fmt<W: fmt::Write>(&self, f: &mut fmt::Formatter<W>) -> fmt::Result {
        for byte in self.0 {
            write!(f, "{byte:02x}")?;
        }
        Ok(())
    }
}

// Readable as a line: text as it is, and every other byte as `\x` and two digits.
#[derive(Clone, Copy)]
pub struct Readable<'a>(pub &'a [u8]);

impl fmt::Display for Readable<'_> {
    // Written in runs, since a letter by itself costs several times as much. A run of text is text, since it ends at a
    // byte of its own.
    fn fmt<W: fmt::Write>(&self, f: &mut fmt::Formatter<W>) -> fmt::Result {
        let is_text = std::str::from_utf8(self.0).is_ok();
        for part in self.0.split_inclusive(|byte| !stands(*byte, is_text)) {
            match part {
                [run @ .., last] if !stands(*last, is_text) => {
                    write_run(f, run)?;
                    write_escaped(f, *last)?;
                }
                run => write_run(f, run)?,
            }
        }
        Ok(())
    }
}

// Whether a byte is shown as it is: in what is text all but control characters, in other bytes ASCII's printable ones.
fn stands(byte: u8, is_text: bool) -> bool {
    match byte {
        b' '..=b'~' => true,
        0x80..=0xFF => is_text,
        _ => false,
    }
}

fn write_run<W: fmt::Write>(f: &mut fmt::Formatter<W>, run: &[u8]) -> fmt::Result {
    match std::str::from_utf8(run) {
        Ok(text) => f.write_str(text),
        Err(_) => Err(fmt::Error),
    }
}

fn write_escaped<W: fmt::Write>(f: &mut fmt::Formatter<W>, byte: u8) -> fmt::Result {
    write!(f, "\\x{byte:02x}")
}

// How many bytes the first line has, with its byte 10; all of them where none ends it.
pub fn line_length(bytes: &[u8]) -> usize {
    bytes
        .iter()
        .position(|byte| *byte == b'\n')
        .map_or(bytes.len(), |place| place + 1)
}

// A line without its CR LF or LF.
pub fn unended(line: &[u8]) -> &[u8] {
    match line {
        [body @ .., b'\r', b'\n'] => body,
        [body @ .., b'\n'] => body,
        _ => line,
    }
}

// The word by which a script makes the call. No `Display`, since `Ask` is another crate's; the script's table reads the other way.
pub fn call_name<T>(ask: &Ask<T>) -> &'static str {
    match ask {
        Ask::Greet => "greet",
        Ask::Login(_, _) => "login",
        Ask::Plain(Plain::Cwd(_)) => "cwd",
        Ask::Plain(Plain::Cdup) => "cdup",
        Ask::Plain(Plain::Dele(_)) => "dele",
        Ask::Plain(Plain::Rmd(_)) => "rmd",
        Ask::Plain(Plain::Mkd(_)) => "mkd",
        Ask::Plain(Plain::Noop) => "noop",
        Ask::Plain(Plain::Quit) => "quit",
        Ask::Rename(_, _) => "rename",
        Ask::TransferType(_) => "type",
        Ask::Resume(_) => "resume",
    }
}
