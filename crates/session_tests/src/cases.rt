// A run of calls on a new session, and what must have come of it.
use carrier::{CarrierState, Dialler, IpAddr, PeerRule};
use command::{Fault, Refusal, Verb};
use encoding::Encoding;
use link::{Buffers, Ending};
use reply::Reply;
use session::{Areas, Mode, Record, Settings};
use std::process::Abort;
use tally::{Answer, Ask, Call, Lent, Row, run};

// What came of a call, and whether the session is in step after it.
#[derive(Clone, Copy, PartialEq, Eq, Debug)]
pub struct Came(pub Answer, pub bool);

// A reply with this code and length.
pub fn passed(code: u16, length: usize) -> Came {
    Came(Ok(Some(Reply { code, length })), true)
}

// A refusal, after which the session is in step or not.
pub fn refused(
    refusal: Refusal,
    verb: Option<Verb>,
    code: u16,
    length: usize,
    in_step: bool,
) -> Came {
    let fault = Fault {
        refusal,
        verb,
        code,
        length,
    };
    Came(Err(fault), in_step)
}

// A call that has no reply.
pub fn done(in_step: bool) -> Came {
    Came(Ok(None), in_step)
}

pub fn settings(limit: usize) -> Settings {
    Settings {
        mode: Mode::Passive,
        nat_workaround: false,
        peer: IpAddr::V4([127, 0, 0, 1]),
        peer_rule: PeerRule::ControlPeer,
        limit,
    }
}

// Areas as long as a call wants them.
pub const FULL: Lent = Lent {
    reply: 512,
    wide: 8704,
    narrow: 4352,
};

// A call with such areas.
pub fn full(ask: Ask<&[u8]>) -> Call<'_> {
    Call { ask, lent: FULL }
}

// A row that no call has written to.
fn unwritten() -> Row {
    Row {
        answer: Ok(None),
        kept: Record {
            settings: settings(0),
            greeted: false,
            in_step: false,
            transfer_open: false,
            restart: None,
            completed: 0,
        },
        carrier: CarrierState::Closed,
    }
}

// Some calls over a link that takes `room` bytes and has `coming` to give, and what must have come of each, been sent and
// been taken.
#[derive(Clone, Copy)]
pub struct Case<'a> {
    pub room: usize,
    pub coming: &'a [u8],
    pub ending: Ending,
    pub calls: &'a [Call<'a>],
    pub came: &'a [Came],
    pub sent: &'a [u8],
    pub taken: usize,
}

fn check_rows(rt: &impl Abort, rows: &[Row], came: &[Came]) {
    assert!(rt; rows.len() >= came.len());
    for (row, expected) in rows.iter().zip(came) {
        assert_eq!(rt; Came(row.answer, row.kept.in_step), *expected);
    }
}

// Makes the calls over a link of two buffers, writes what came of each, and says whether the bytes were sent and so many
// taken.
fn runs<'a, E: Encoding + Drop>(
    encoding: E,
    out: &'a mut [u8],
    case: Case<'a>,
    rows: &mut [Row],
) -> bool {
    let mut reply = [7; 512];
    let mut wide = [7; 8704];
    let mut narrow = [7; 4352];
    let mut areas: Areas<&mut [u8]> = Areas {
        reply: &mut reply,
        wide: &mut wide,
        narrow: &mut narrow,
    };
    let link = Buffers::new(out, case.coming, case.ending);
    let session = run(
        link,
        Dialler::new(),
        encoding,
        settings(512),
        case.calls,
        &mut areas,
        rows,
    );
    let (link, _carrier, _encoding) = session.into_parts();
    let count = link.taken();
    link.sent() == case.sent && count == case.taken
}

// Makes the calls and checks what came of each, what was sent and how much was taken.
pub fn holds<E: Encoding + Drop>(rt: &impl Abort, encoding: E, case: Case<'_>) {
    let mut out = [0; 64];
    let mut rows = [unwritten(); 5];
    let room = case.room.min(64);
    assert!(rt; runs(encoding, &mut out[0..room], case, &mut rows));
    assert_eq!(rt; case.came.len(), case.calls.len());
    check_rows(rt, &rows, case.came);
}
