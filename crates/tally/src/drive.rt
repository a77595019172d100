// One call of a list, and all of them.
ghost use Rattle.std.specs.Prelude.{◌≡◌, slice_set};
ghost use Rattle.session.specs.Areas.{desk_of, SameAreas};
ghost use Rattle.session.specs.Model.{model, fresh, desk};
ghost use Rattle.tally.specs.Law.{Lawful};
ghost use Rattle.tally.specs.Runs.{ask_of, made_of, areas_after, after_all, areas_all, seen_all, rows_of, noted, start_of};

use crate::calls::{Answer, Ask, Call, Row};
use carrier::Carrier;
use encoding::Encoding;
use link::Link;
use session::{Areas, Session, Settings};

// The three apart, since the checker does not cover parts of slices that are lent out of a struct's fields.
fn put_to<L: Link, C: Carrier, E: Encoding>(
    session: &mut Session<L, C, E>,
    ask: Ask<&[u8]>,
    reply: &mut [u8],
    wide: &mut [u8],
    narrow: &mut [u8],
) -> Answer
    ensures { record { answer = result; after = model L.Link.means C.Carrier.means E.Encoding.means session.new; desk = desk reply.new wide.new narrow.new } ≡ ask_of ask.entry (model L.Link.means C.Carrier.means E.Encoding.means session.old) (desk reply.old wide.old narrow.old) }
{
    let mut areas = Areas {
        reply,
        wide,
        narrow,
    };
    let reply = match ask {
        Ask::Greet => session.greet(&mut areas)?,
        Ask::Login(user, password) => session.login(user, password, &mut areas)?,
        Ask::Plain(plain) => session.plain(plain, &mut areas)?,
        Ask::Rename(from, to) => session.rename(from, to, &mut areas)?,
        Ask::TransferType(file_type) => session.transfer_type(file_type, &mut areas)?,
        Ask::Resume(offset) => {
            session.resume(offset);
            return Ok(None);
        }
    };
    Ok(Some(reply))
}

// Makes one call. It is lent the first bytes of each area, as many as it asks for, or all where there are fewer.
pub fn make<L: Link, C: Carrier, E: Encoding>(
    session: &mut Session<L, C, E>,
    call: Call<'_>,
    areas: &mut Areas<&mut [u8]>,
) -> Answer
    ensures answer { result ≡ (made_of call.entry (model L.Link.means C.Carrier.means E.Encoding.means session.old) (desk_of areas.old)).answer }
    ensures after { model L.Link.means C.Carrier.means E.Encoding.means session.new ≡ (made_of call.entry (model L.Link.means C.Carrier.means E.Encoding.means session.old) (desk_of areas.old)).after }
    ensures areas { desk_of areas.new ≡ areas_after call.entry (model L.Link.means C.Carrier.means E.Encoding.means session.old) (desk_of areas.old) }
    ensures same { SameAreas areas.old areas.new }
{
    let r = call.lent.reply.min(areas.reply.len());
    let w = call.lent.wide.min(areas.wide.len());
    let n = call.lent.narrow.min(areas.narrow.len());
    put_to(
        session,
        call.ask,
        &mut areas.reply[0..r],
        &mut areas.wide[0..w],
        &mut areas.narrow[0..n],
    )
}

// Writes a row at its place, if there is one. By hand, since `get_mut` does not say what the slice holds after the write.
fn note(rows: &mut [Row], at: usize, row: Row)
    ensures { rows.new ≡ slice_set rows.old at row }
{
    if at < rows.len() {
        rows[at] = row;
    }
}

// Makes the calls in turn on a new session, and writes what came of each into the row at its place, as far as there are
// rows. The law holds after each of them.
pub fn run<L: Link, C: Carrier, E: Encoding>(
    link: L,
    carrier: C,
    encoding: E,
    settings: Settings,
    calls: &[Call<'_>],
    areas: &mut Areas<&mut [u8]>,
    rows: &mut [Row],
) -> Session<L, C, E>
    ensures after { model L.Link.means C.Carrier.means E.Encoding.means result ≡ after_all (fresh settings (L.Link.means link) (C.Carrier.means carrier) (E.Encoding.means encoding)) (desk_of areas.old) calls.now }
    ensures areas { desk_of areas.new ≡ areas_all (fresh settings (L.Link.means link) (C.Carrier.means carrier) (E.Encoding.means encoding)) (desk_of areas.old) calls.now }
    ensures same { SameAreas areas.old areas.new }
    ensures rows { rows.new ≡ noted (rows_of (seen_all (fresh settings (L.Link.means link) (C.Carrier.means carrier) (E.Encoding.means encoding)) (desk_of areas.old) calls.now)) rows.old }
    ensures lawful { Lawful (start_of settings (L.Link.means link) (C.Carrier.means carrier) (E.Encoding.means encoding)) (seen_all (fresh settings (L.Link.means link) (C.Carrier.means carrier) (E.Encoding.means encoding)) (desk_of areas.old) calls.now) }
{
    let mut session = Session::new(link, carrier, encoding, settings);
    // No `zip` with the rows, since every call is made, also where there are fewer of them.
    for (i, call) in calls.iter().enumerate() {
        let answer = make(&mut session, *call, areas);
        let row = Row {
            answer,
            kept: session.record(),
            carrier: session.carrier().state(),
        };
        note(rows, i, row);
    }
    session
}
