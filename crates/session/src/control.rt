// The pieces that calls are made of: the first questions, a line, a reply, and a line with its reply.
ghost use Rattle.std.specs.Prelude.{◌≡◌, ◌≤◌, length, Some, MatchResult};
ghost use Rattle.command.specs.Lines.{argument_of};
ghost use Rattle.session.specs.Model.{model};
ghost use Rattle.session.specs.Areas.{desk_of, SameAreas, Serve};
ghost use Rattle.session.specs.Calls.{fault, refusal, questions_of, perform_of, hear_of, expected_of, settled_by, exchange_of};

use crate::areas::Areas;
use crate::session::Session;
use carrier::Carrier;
use command::{Command, Fault, LONGEST_ENCODED, LONGEST_ESCAPED, Refusal, Verb, encode_line};
use encoding::Encoding;
use link::Link;
use reply::{Reply, Rule, Status, is_expected, is_preliminary, read_response};

// A call that has read no reply yet tells code 0 and length 0.
fn fault_with(refusal: Refusal, verb: Option<Verb>, last: Option<Reply>) -> Fault
    ensures { result ≡ fault refusal verb last }
{
    let (code, length) = last.map_or((0, 0), |reply| (reply.code, reply.length));
    Fault {
        refusal,
        verb,
        code,
        length,
    }
}

fn refused(why: Refusal) -> Fault
    ensures { result ≡ refusal why }
{
    fault_with(why, None, None)
}

// What came of a line, a refusal as the fault that the call answers.
fn at_line<T>(came: Result<T, Refusal>, verb: Verb, last: Option<Reply>) -> Result<T, Fault>
    ensures { MatchResult came (λ x. result ≡ Ok x) (λ e. result ≡ Err (fault e (Some verb) last)) }
{
    came.map_err(|refusal| fault_with(refusal, Some(verb), last))
}

// The reply itself, if its status is one of those expected.
pub(crate) fn expect(expected: &[Status], verb: Option<Verb>, reply: Reply) -> Result<Reply, Fault>
    ensures { result ≡ expected_of expected.now verb reply }
{
    if is_expected(expected, reply.code) {
        Ok(reply)
    } else {
        Err(fault_with(Refusal::UnexpectedStatus, verb, Some(reply)))
    }
}

// A command with its argument.
pub(crate) fn with_argument(verb: Verb, argument: &[u8]) -> Command<'_>
    ensures verb { result.verb ≡ verb }
    ensures argument { argument_of result ≡ Some argument.now }
{
    Command {
        verb,
        argument: Some(argument),
    }
}

impl<L: Link, C: Carrier, E: Encoding> Session<L, C, E> {
    // The questions that come before anything is sent or read. `greeted` is what the call wants: greet is made before
    // the greeting, every other call after it.
    pub(crate) fn questions(&self, greeted: bool, areas: &Areas<&mut [u8]>) -> Result<(), Fault>
        ensures { result ≡ questions_of greeted (model L.Link.means C.Carrier.means E.Encoding.means self.now) (desk_of areas.now) }
    {
        if areas.reply.len() < self.kept.settings.limit
            || areas.wide.len() < LONGEST_ESCAPED
            || areas.narrow.len() < LONGEST_ENCODED
        {
            return Err(refused(Refusal::AreaTooShort));
        }
        if !self.kept.in_step {
            return Err(refused(Refusal::OutOfStep));
        }
        if self.kept.greeted != greeted {
            return Err(refused(Refusal::GreetingDue));
        }
        if self.kept.transfer_open {
            return Err(refused(Refusal::TransferOpen));
        }
        Ok(())
    }

    // Sends the command's line whole, or refuses and sends nothing.
    fn perform(
        &mut self,
        command: Command<'_>,
        last: Option<Reply>,
        areas: &mut Areas<&mut [u8]>,
    ) -> Result<(), Fault>
        requires wide { 8704 ≤ length areas.old.wide.now }
        requires narrow { 4352 ≤ length areas.old.narrow.now }
        ensures came { record { answer = result; after = model L.Link.means C.Carrier.means E.Encoding.means self.new; reply = areas.new.reply.now } ≡ perform_of command.entry.verb (argument_of command.entry) last (model L.Link.means C.Carrier.means E.Encoding.means self.old) areas.old.reply.now }
        ensures kept { self.new.kept ≡ self.old.kept }
        ensures same { SameAreas areas.old areas.new }
    {
        let verb = command.verb;
        let line = encode_line(command, &self.encoding, areas.wide, areas.narrow);
        let length = at_line(line, verb, last)?;
        let sent = self.link.put(&areas.wide[0..length]);
        at_line(sent.or(Err(Refusal::LinkFull)), verb, last)
    }

    // Reads one reply. One that is not finished leaves the session out of step.
    // That the settings stay is one equation here, in `settle` and in `exchange`: a name for it would be no plainer.
    pub(crate) fn hear(
        &mut self,
        verb: Option<Verb>,
        areas: &mut Areas<&mut [u8]>,
    ) -> Result<Reply, Fault>
        requires { self.old.kept.settings.limit ≤ length areas.old.reply.now }
        ensures came { record { answer = result; after = model L.Link.means C.Carrier.means E.Encoding.means self.new; reply = areas.new.reply.now } ≡ hear_of verb (model L.Link.means C.Carrier.means E.Encoding.means self.old) areas.old.reply.now }
        ensures same { SameAreas areas.old areas.new }
        ensures settings { self.new.kept.settings ≡ self.old.kept.settings }
    {
        let limit = self.kept.settings.limit;
        let answer = read_response(
            &mut self.link,
            &mut areas.reply[0..limit],
            Rule::Usual,
            verb,
        );
        if answer.is_err() {
            self.kept.in_step = false;
        }
        answer
    }

    // A preliminary reply where a line was to be settled: another one is to follow, so the session is out of step.
    fn settle(&mut self, code: u16)
        ensures came { model L.Link.means C.Carrier.means E.Encoding.means self.new ≡ settled_by code (model L.Link.means C.Carrier.means E.Encoding.means self.old) }
        ensures settings { self.new.kept.settings ≡ self.old.kept.settings }
    {
        if is_preliminary(code) {
            self.kept.in_step = false;
        }
    }

    // A line, and the reply that settles it.
    pub(crate) fn exchange(
        &mut self,
        command: Command<'_>,
        expected: &[Status],
        last: Option<Reply>,
        areas: &mut Areas<&mut [u8]>,
    ) -> Result<Reply, Fault>
        requires { Serve self.old.kept.settings.limit areas.old }
        ensures came { record { answer = result; after = model L.Link.means C.Carrier.means E.Encoding.means self.new; reply = areas.new.reply.now } ≡ exchange_of command.entry.verb (argument_of command.entry) expected.now last (model L.Link.means C.Carrier.means E.Encoding.means self.old) areas.old.reply.now }
        ensures same { SameAreas areas.old areas.new }
        ensures settings { self.new.kept.settings ≡ self.old.kept.settings }
    {
        let verb = Some(command.verb);
        self.perform(command, last, areas)?;
        let answer = self.hear(verb, areas)?;
        self.settle(answer.code);
        expect(expected, verb, answer)
    }
}
