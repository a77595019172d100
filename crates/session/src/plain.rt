// The commands of one line and one reply.
ghost use Rattle.std.specs.Prelude.{◌≡◌};
ghost use Rattle.command.specs.Lines.{argument_of as argument_in};
ghost use Rattle.session.specs.Calls.{verb_of, argument_of, statuses_of};
ghost use Rattle.session.specs.Plains.{plain_map};

use command::{Command, Verb};
use reply::Status;

// The path is borrowed where the command is sent, and may be owned where it is kept.
#[derive(Clone, Copy, Drop)]
pub enum Plain<T> {
    Cwd(T),
    Cdup,
    Dele(T),
    Rmd(T),
    Mkd(T),
    Noop,
    Quit,
}

impl<'a> Plain<&'a [u8]> {
    // The line's verb and argument.
    pub fn command(self) -> Command<'a>
        ensures verb { result.verb ≡ verb_of self.entry }
        ensures argument { argument_in result ≡ argument_of self.entry }
    {
        let (verb, argument) = match self {
            Plain::Cwd(path) => (Verb::Cwd, Some(path)),
            Plain::Cdup => (Verb::Cdup, None),
            Plain::Dele(path) => (Verb::Dele, Some(path)),
            Plain::Rmd(path) => (Verb::Rmd, Some(path)),
            Plain::Mkd(path) => (Verb::Mkd, Some(path)),
            Plain::Noop => (Verb::Noop, None),
            Plain::Quit => (Verb::Quit, None),
        };
        Command { verb, argument }
    }

    // The statuses by which it passes.
    pub fn expected(self) -> &'static [Status]
        ensures { result.now ≡ statuses_of self.entry }
    {
        match self {
            Plain::Cwd(_) => &[Status::RequestedFileActionOk],
            Plain::Cdup => &[Status::CommandOk, Status::RequestedFileActionOk],
            Plain::Dele(_) => &[Status::RequestedFileActionOk],
            Plain::Rmd(_) => &[Status::RequestedFileActionOk],
            Plain::Mkd(_) => &[Status::PathCreated],
            Plain::Noop => &[Status::CommandOk],
            Plain::Quit => &[Status::Closing],
        }
    }
}

// The command with its path lent.
impl<'a> From<&'a Plain<Vec<u8>>> for Plain<&'a [u8]> {
    ghost from_gives = { λ plain r. plain_map (λ t. t.now) r ≡ plain_map (λ v. v.items) plain.now };

    fn from(plain: &'a Plain<Vec<u8>>) -> Plain<&'a [u8]> {
        match plain {
            Plain::Cwd(path) => Plain::Cwd(path.as_slice()),
            Plain::Cdup => Plain::Cdup,
            Plain::Dele(path) => Plain::Dele(path.as_slice()),
            Plain::Rmd(path) => Plain::Rmd(path.as_slice()),
            Plain::Mkd(path) => Plain::Mkd(path.as_slice()),
            Plain::Noop => Plain::Noop,
            Plain::Quit => Plain::Quit,
        }
    }
}
