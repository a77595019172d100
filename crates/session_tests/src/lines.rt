// The lines that are sent, and every refusal of a line.
use crate::cases::{Came, Case, full, holds, passed, refused};
use crate::encodings::{Mute, Prefixed, Suffixed};
use command::{Refusal, Verb};
use encoding::{Encoding, Utf8Encoding};
use link::Ending;
use session::Plain;
use std::process::Abort;
use tally::Ask;

// CWD after the greeting, over a link with some room.
fn changes_directory<E: Encoding + Drop>(
    rt: &impl Abort,
    encoding: E,
    room: usize,
    path: &[u8],
    came: Came,
    sent: &[u8],
    taken: usize,
) {
    holds(
        rt,
        encoding,
        Case {
            room,
            coming: b"220 a\r\n250 b\r\n",
            ending: Ending::Closed,
            calls: &[full(Ask::Greet), full(Ask::Plain(Plain::Cwd(path)))],
            came: &[passed(220, 7), came],
            sent,
            taken,
        },
    );
}

fn passes<E: Encoding + Drop>(rt: &impl Abort, encoding: E, room: usize, path: &[u8], sent: &[u8]) {
    changes_directory(rt, encoding, room, path, passed(250, 7), sent, 14);
}

fn refuses<E: Encoding + Drop>(
    rt: &impl Abort,
    encoding: E,
    room: usize,
    path: &[u8],
    refusal: Refusal,
) {
    let came = refused(refusal, Some(Verb::Cwd), 0, 0, true);
    changes_directory(rt, encoding, room, path, came, b"", 7);
}

#[test]
fn arguments_are_refused(rt: HostRuntime) {
    refuses(
        &rt,
        Utf8Encoding,
        64,
        &[255; 4097],
        Refusal::ArgumentTooLong,
    );
    refuses(&rt, Utf8Encoding, 64, b"a\xFF\r", Refusal::ArgumentNotUtf8);
    refuses(&rt, Utf8Encoding, 64, b"a\rb", Refusal::ArgumentNotOneLine);
}

#[test]
fn encoded_lines_are_refused(rt: HostRuntime) {
    refuses(&rt, Mute, 64, b"a", Refusal::NoEncoding);
    refuses(&rt, Suffixed(13), 64, b"a", Refusal::LineNotEnded);
    refuses(&rt, Prefixed(13), 64, b"a", Refusal::LineNotOne);
}

#[test]
fn full_links_refuse(rt: HostRuntime) {
    refuses(&rt, Utf8Encoding, 64, &[b'a'; 4096], Refusal::LinkFull);
    refuses(&rt, Utf8Encoding, 6, b"a", Refusal::LinkFull);
    passes(&rt, Utf8Encoding, 7, b"a", b"CWD a\r\n");
}

#[test]
fn lines_are_escaped(rt: HostRuntime) {
    passes(&rt, Utf8Encoding, 64, b"", b"CWD \r\n");
    passes(&rt, Prefixed(255), 64, b"a", b"\xFF\xFFCWD a\r\n");
}
