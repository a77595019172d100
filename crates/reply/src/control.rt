// Reading the control connection.
ghost use Rattle.std.specs.Prelude.{◌≡◌, ◌<◌, ◌≤◌, IfOk, length};
ghost use Rattle.link.specs.Wire.{past, leaving};
ghost use Rattle.reply.specs.Grammar.{ByGrammar};
ghost use Rattle.reply.specs.Replies.{unread, fault_of, came, line_from, line_answered, read_on, heard, reply};

use crate::lines::{ending_code, settled};
use crate::reply::{Reply, Rule};
use command::{Fault, Refusal, Verb};
use link::{Link, read_byte};

// The fault of a reply that is not finished and of which `stored` bytes are stored.
fn unfinished(refusal: Refusal, verb: Option<Verb>, stored: usize) -> Fault
    ensures { result ≡ fault_of verb (unread refusal stored) }
{
    Fault {
        refusal,
        verb,
        code: 0,
        length: stored,
    }
}

// The next byte of a reply, or the fault that its link has ended.
fn next_byte<L: Link>(link: &mut L, stored: usize, verb: Option<Verb>) -> Result<u8, Fault>
    ensures value { result ≡ came verb stored (L.means link.old).ending (L.means link.old).coming }
    ensures after { L.means link.new ≡ past 1 (L.means link.old) }
{
    read_byte(link)
        .map_err(|_| unfinished(Refusal::LinkBroken, verb, stored))?
        .ok_or_else(|| unfinished(Refusal::LinkClosed, verb, stored))
}

// Reads on to the end of a line, a byte at a time, and answers where in the area it ends. A byte that comes when the area is
// full is taken from the link, and the reply is too long.
// Places in the area, since the reply must lie whole at its front. Link, area and verb are no struct: with loans in it, each
// contract would have to say that they are still the same.
fn read_line<L: Link>(
    link: &mut L,
    area: &mut [u8],
    start: usize,
    verb: Option<Verb>,
) -> Result<usize, Fault>
    requires { start ≤ length area.old }
    ensures answer { result ≡ line_answered verb (line_from (length area.old) start (L.means link.old)).got }
    ensures area { area.new ≡ read_on start (line_from (length area.old) start (L.means link.old)).got (L.means link.old).coming area.old }
    ensures link { L.means link.new ≡ leaving (line_from (length area.old) start (L.means link.old)).rest (L.means link.old) }
    ensures within { IfOk result (λ end. (start < end) × (end ≤ length area.old)) }
{
    for stored in start..area.len() {
        let byte = next_byte(link, stored, verb)?;
        area[stored] = byte;
        if byte == b'\n' {
            return Ok(stored + 1);
        }
    }
    next_byte(link, area.len(), verb)?;
    Err(unfinished(Refusal::ReplyTooLong, verb, area.len()))
}

// Reads one reply, of one line or more, into the area. The area's length is the limit.
pub fn read_response<L: Link>(
    link: &mut L,
    area: &mut [u8],
    rule: Rule,
    verb: Option<Verb>,
) -> Result<Reply, Fault>
    ensures reads { record { answer = result; area = area.new; link = L.means link.new } ≡ heard verb (reply rule (length area.old) (L.means link.old).ending (L.means link.old).coming) area.old (L.means link.old) }
    ensures rfc { ByGrammar rule (length area.old) (L.means link.old).coming result }
{
    // Places in the area, since the reply must lie whole at its front.
    let mut end = read_line(link, area, 0, verb)?;
    let Some(last) = settled(rule, &area[..end]) else {
        return Err(unfinished(Refusal::ReplyIllBegun, verb, end));
    };
    let mut start = 0;
    'lines: loop {
        if let Some(code) = ending_code(last, &area[start..end]) {
            return Ok(Reply { code, length: end });
        }
        start = end;
        end = read_line(link, area, start, verb)?;
    }
}
