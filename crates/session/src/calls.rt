// The calls.
ghost use Rattle.std.specs.Prelude.{◌≡◌, ◌≤◌, length};
ghost use Rattle.session.specs.Model.{model};
ghost use Rattle.session.specs.Areas.{desk_of, SameAreas, Serve};
ghost use Rattle.session.specs.Calls.{greeting_of, logging_in, renaming, greet_of, login_of, plain_of, rename_of, type_of, resume_of};

use crate::areas::Areas;
use crate::control::{expect, with_argument};
use crate::plain::Plain;
use crate::session::Session;
use carrier::Carrier;
use command::{Fault, FileType, Verb};
use encoding::Encoding;
use link::Link;
use reply::{Reply, Status};

// Each call spells out its frame: with the step as a closure, the frame's contract is longer than the lines that it saves, and
// a closure that holds a `Plain` promises nothing.
impl<L: Link, C: Carrier, E: Encoding> Session<L, C, E> {
    fn read_greeting(&mut self, areas: &mut Areas<&mut [u8]>) -> Result<Reply, Fault>
        requires { self.old.kept.settings.limit ≤ length areas.old.reply.now }
        ensures came { record { answer = result; after = model L.Link.means C.Carrier.means E.Encoding.means self.new; reply = areas.new.reply.now } ≡ greeting_of (model L.Link.means C.Carrier.means E.Encoding.means self.old) areas.old.reply.now }
        ensures same { SameAreas areas.old areas.new }
    {
        let answer = self.hear(None, areas)?;
        let answer = expect(&[Status::Ready], None, answer)?;
        self.kept.greeted = true;
        Ok(answer)
    }

    // Reads the server's greeting. Another status than 220 is refused, and greet may then be made again.
    pub fn greet(&mut self, areas: &mut Areas<&mut [u8]>) -> Result<Reply, Fault>
        ensures came { record { answer = result; after = model L.Link.means C.Carrier.means E.Encoding.means self.new; desk = desk_of areas.new } ≡ greet_of (model L.Link.means C.Carrier.means E.Encoding.means self.old) (desk_of areas.old) }
        ensures same { SameAreas areas.old areas.new }
    {
        self.questions(false, areas)?;
        let answer = self.read_greeting(areas);
        areas.wipe();
        answer
    }

    // USER, and if the server wants one, the password.
    fn log_in(
        &mut self,
        user: &[u8],
        password: &[u8],
        areas: &mut Areas<&mut [u8]>,
    ) -> Result<Reply, Fault>
        requires { Serve self.old.kept.settings.limit areas.old }
        ensures came { record { answer = result; after = model L.Link.means C.Carrier.means E.Encoding.means self.new; reply = areas.new.reply.now } ≡ logging_in user.now password.now (model L.Link.means C.Carrier.means E.Encoding.means self.old) areas.old.reply.now }
        ensures same { SameAreas areas.old areas.new }
    {
        let name = with_argument(Verb::User, user);
        let answer = self.exchange(name, &[Status::LoggedIn, Status::NeedPassword], None, areas)?;
        if answer.code != Status::NeedPassword.code() {
            return Ok(answer);
        }
        let secret = with_argument(Verb::Pass, password);
        self.exchange(secret, &[Status::LoggedIn], Some(answer), areas)
    }

    // Logs in. The password is sent only if the server asks for one.
    pub fn login(
        &mut self,
        user: &[u8],
        password: &[u8],
        areas: &mut Areas<&mut [u8]>,
    ) -> Result<Reply, Fault>
        ensures came { record { answer = result; after = model L.Link.means C.Carrier.means E.Encoding.means self.new; desk = desk_of areas.new } ≡ login_of user.now password.now (model L.Link.means C.Carrier.means E.Encoding.means self.old) (desk_of areas.old) }
        ensures same { SameAreas areas.old areas.new }
    {
        self.questions(true, areas)?;
        let answer = self.log_in(user, password, areas);
        areas.wipe();
        answer
    }

    // A command of one line and one reply.
    pub fn plain(
        &mut self,
        plain: Plain<&[u8]>,
        areas: &mut Areas<&mut [u8]>,
    ) -> Result<Reply, Fault>
        ensures came { record { answer = result; after = model L.Link.means C.Carrier.means E.Encoding.means self.new; desk = desk_of areas.new } ≡ plain_of plain.entry (model L.Link.means C.Carrier.means E.Encoding.means self.old) (desk_of areas.old) }
        ensures same { SameAreas areas.old areas.new }
    {
        self.questions(true, areas)?;
        let answer = self.exchange(plain.command(), plain.expected(), None, areas);
        areas.wipe();
        answer
    }

    // RNFR, and once the server has the file, RNTO.
    fn move_file(
        &mut self,
        from: &[u8],
        to: &[u8],
        areas: &mut Areas<&mut [u8]>,
    ) -> Result<Reply, Fault>
        requires { Serve self.old.kept.settings.limit areas.old }
        ensures came { record { answer = result; after = model L.Link.means C.Carrier.means E.Encoding.means self.new; reply = areas.new.reply.now } ≡ renaming from.now to.now (model L.Link.means C.Carrier.means E.Encoding.means self.old) areas.old.reply.now }
        ensures same { SameAreas areas.old areas.new }
    {
        let old = with_argument(Verb::Rnfr, from);
        let answer = self.exchange(old, &[Status::RequestFilePending], None, areas)?;
        let new = with_argument(Verb::Rnto, to);
        self.exchange(
            new,
            &[Status::RequestedFileActionOk, Status::CommandOk],
            Some(answer),
            areas,
        )
    }

    pub fn rename(
        &mut self,
        from: &[u8],
        to: &[u8],
        areas: &mut Areas<&mut [u8]>,
    ) -> Result<Reply, Fault>
        ensures came { record { answer = result; after = model L.Link.means C.Carrier.means E.Encoding.means self.new; desk = desk_of areas.new } ≡ rename_of from.now to.now (model L.Link.means C.Carrier.means E.Encoding.means self.old) (desk_of areas.old) }
        ensures same { SameAreas areas.old areas.new }
    {
        self.questions(true, areas)?;
        let answer = self.move_file(from, to, areas);
        areas.wipe();
        answer
    }

    // Sets the representation type of the files that are transferred.
    pub fn transfer_type(
        &mut self,
        file_type: FileType,
        areas: &mut Areas<&mut [u8]>,
    ) -> Result<Reply, Fault>
        ensures came { record { answer = result; after = model L.Link.means C.Carrier.means E.Encoding.means self.new; desk = desk_of areas.new } ≡ type_of file_type (model L.Link.means C.Carrier.means E.Encoding.means self.old) (desk_of areas.old) }
        ensures same { SameAreas areas.old areas.new }
    {
        self.questions(true, areas)?;
        let text = file_type.text();
        let command = with_argument(Verb::Type, text.as_str().as_bytes());
        let answer = self.exchange(command, &[Status::CommandOk], None, areas);
        areas.wipe();
        answer
    }

    // Where the next transfer is to start; 0 is its beginning.
    pub fn resume(&mut self, offset: u64)
        ensures { model L.Link.means C.Carrier.means E.Encoding.means self.new ≡ resume_of offset (model L.Link.means C.Carrier.means E.Encoding.means self.old) }
    {
        self.kept.restart = (offset != 0).then_some(offset);
    }
}
