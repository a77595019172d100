// The replies that calls read, and what they leave.
use crate::cases::{Came, Case, done, full, holds, passed, refused};
use command::{FileType, Refusal, Verb};
use encoding::Utf8Encoding;
use link::Ending;
use session::Plain;
use std::process::Abort;
use tally::{Ask, Call, Lent};

// One call after the greeting.
fn greeted(rt: &impl Abort, coming: &[u8], ask: Ask<&[u8]>, came: Came, sent: &[u8], taken: usize) {
    let calls = [full(Ask::Greet), full(ask)];
    holds(
        rt,
        Utf8Encoding,
        Case {
            room: 64,
            coming,
            ending: Ending::Closed,
            calls: &calls,
            came: &[passed(220, 7), came],
            sent,
            taken,
        },
    );
}

#[test]
fn logins(rt: HostRuntime) {
    greeted(
        &rt,
        b"220 a\r\n230 b\r\n",
        Ask::Login(b"ada", b"key"),
        passed(230, 7),
        b"USER ada\r\n",
        14,
    );
    greeted(
        &rt,
        b"220 a\r\n331 b\r\n230 ccc\r\n",
        Ask::Login(b"ada", b"key"),
        passed(230, 9),
        b"USER ada\r\nPASS key\r\n",
        23,
    );
    // a password that is refused is not sent, and the fault says what USER was answered
    let refused = refused(Refusal::ArgumentNotOneLine, Some(Verb::Pass), 331, 8, true);
    greeted(
        &rt,
        b"220 a\r\n331 bb\r\n230 c\r\n",
        Ask::Login(b"ada", b"k\ry"),
        refused,
        b"USER ada\r\n",
        15,
    );
}

#[test]
fn renames(rt: HostRuntime) {
    greeted(
        &rt,
        b"220 a\r\n350 b\r\n250 c\r\n",
        Ask::Rename(b"a", b"b"),
        passed(250, 7),
        b"RNFR a\r\nRNTO b\r\n",
        21,
    );
    greeted(
        &rt,
        b"220 a\r\n550 b\r\n250 c\r\n",
        Ask::Rename(b"a", b"b"),
        refused(Refusal::UnexpectedStatus, Some(Verb::Rnfr), 550, 7, true),
        b"RNFR a\r\n",
        14,
    );
}

#[test]
fn types(rt: HostRuntime) {
    let came = [
        passed(220, 7),
        passed(200, 7),
        refused(Refusal::AreaTooShort, None, 0, 0, true),
    ];
    let short = Lent {
        reply: 511,
        wide: 8704,
        narrow: 4352,
    };
    let calls = [
        full(Ask::Greet),
        full(Ask::TransferType(FileType::Local(8))),
        Call {
            ask: Ask::Plain(Plain::Mkd(b"a")),
            lent: short,
        },
    ];
    holds(
        &rt,
        Utf8Encoding,
        Case {
            room: 64,
            coming: b"220 a\r\n200 b\r\n",
            ending: Ending::Closed,
            calls: &calls,
            came: &came,
            sent: b"TYPE L 8\r\n",
            taken: 14,
        },
    );
}

// NOOP comes too early, and the greeting is first one that asks to wait.
#[test]
fn greetings(rt: HostRuntime) {
    let came = [
        refused(Refusal::GreetingDue, None, 0, 0, true),
        refused(Refusal::UnexpectedStatus, None, 120, 7, true),
        passed(220, 7),
        refused(Refusal::GreetingDue, None, 0, 0, true),
        passed(257, 7),
    ];
    let calls = [
        full(Ask::Plain(Plain::Noop)),
        full(Ask::Greet),
        full(Ask::Greet),
        full(Ask::Greet),
        full(Ask::Plain(Plain::Mkd(b"a"))),
    ];
    holds(
        &rt,
        Utf8Encoding,
        Case {
            room: 64,
            coming: b"120 a\r\n220 b\r\n257 c\r\n",
            ending: Ending::Closed,
            calls: &calls,
            came: &came,
            sent: b"MKD a\r\n",
            taken: 21,
        },
    );
}

// NOOP after the greeting, an offset, and DELE.
fn noops(rt: &impl Abort, coming: &[u8], ending: Ending, came: &[Came], sent: &[u8], taken: usize) {
    let calls = [
        full(Ask::Greet),
        full(Ask::Plain(Plain::Noop)),
        full(Ask::Resume(9)),
        full(Ask::Plain(Plain::Dele(b"a"))),
    ];
    holds(
        rt,
        Utf8Encoding,
        Case {
            room: 64,
            coming,
            ending,
            calls: &calls,
            came,
            sent,
            taken,
        },
    );
}

#[test]
fn another_status(rt: HostRuntime) {
    let another = [
        passed(220, 7),
        refused(Refusal::UnexpectedStatus, Some(Verb::Noop), 500, 7, true),
        done(true),
        passed(250, 7),
    ];
    noops(
        &rt,
        b"220 a\r\n500 b\r\n250 c\r\n",
        Ending::Closed,
        &another,
        b"NOOP\r\nDELE a\r\n",
        21,
    );
    let preliminary = [
        passed(220, 7),
        refused(Refusal::UnexpectedStatus, Some(Verb::Noop), 150, 7, false),
        done(false),
        refused(Refusal::OutOfStep, None, 0, 0, false),
    ];
    noops(
        &rt,
        b"220 a\r\n150 b\r\n250 c\r\n",
        Ending::Closed,
        &preliminary,
        b"NOOP\r\n",
        14,
    );
}

#[test]
fn broken_links(rt: HostRuntime) {
    let came = [
        passed(220, 7),
        refused(Refusal::LinkBroken, Some(Verb::Noop), 0, 3, false),
        done(false),
        refused(Refusal::OutOfStep, None, 0, 0, false),
    ];
    noops(&rt, b"220 a\r\n200", Ending::Broken, &came, b"NOOP\r\n", 10);
}

// A greeting that is not finished, after which no call is made.
fn ungreeted(rt: &impl Abort, coming: &[u8], came: Came, taken: usize) {
    let calls = [full(Ask::Greet), full(Ask::Login(b"ada", b"key"))];
    holds(
        rt,
        Utf8Encoding,
        Case {
            room: 64,
            coming,
            ending: Ending::Closed,
            calls: &calls,
            came: &[came, refused(Refusal::OutOfStep, None, 0, 0, false)],
            sent: b"",
            taken,
        },
    );
}

#[test]
fn unfinished(rt: HostRuntime) {
    ungreeted(
        &rt,
        b"22",
        refused(Refusal::LinkClosed, None, 0, 2, false),
        2,
    );
    ungreeted(
        &rt,
        b"hello\r\n220 a\r\n",
        refused(Refusal::ReplyIllBegun, None, 0, 7, false),
        7,
    );
    ungreeted(
        &rt,
        &[b'a'; 513],
        refused(Refusal::ReplyTooLong, None, 0, 512, false),
        513,
    );
}
