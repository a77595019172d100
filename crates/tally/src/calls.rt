// A call as a value, for a list of them, and what is recorded of one.
ghost use Rattle.std.specs.Prelude.{◌≡◌};
ghost use Rattle.tally.specs.Asked.{ask_map};

use carrier::CarrierState;
use command::{Fault, FileType};
use reply::Reply;
use session::{Areas, Plain as PlainCommand, Record};

// What is asked of the session. The texts are borrowed where the call is made, and may be owned where it is kept.
#[derive(Clone, Copy, Drop)]
pub enum Ask<T> {
    Greet,
    Login(T, T),
    Plain(PlainCommand<T>),
    Rename(T, T),
    TransferType(FileType),
    Resume(u64),
}

// The same with its texts lent.
impl<'a> From<&'a Ask<Vec<u8>>> for Ask<&'a [u8]> {
    ghost from_gives = { λ ask r. ask_map (λ t. t.now) r ≡ ask_map (λ v. v.items) ask.now };

    fn from(ask: &'a Ask<Vec<u8>>) -> Ask<&'a [u8]> {
        match ask {
            Ask::Greet => Ask::Greet,
            Ask::Login(user, password) => Ask::Login(user.as_slice(), password.as_slice()),
            Ask::Plain(plain) => Ask::Plain(plain.into()),
            Ask::Rename(from, to) => Ask::Rename(from.as_slice(), to.as_slice()),
            Ask::TransferType(file_type) => Ask::TransferType(*file_type),
            Ask::Resume(offset) => Ask::Resume(*offset),
        }
    }
}

// How many bytes of each area are lent to a call.
pub type Lent = Areas<usize>;

#[derive(Clone, Copy)]
pub struct Call<'a> {
    pub ask: Ask<&'a [u8]>,
    pub lent: Lent,
}

// What a call answered: its last reply, if it is one that has replies; or why it was refused.
pub type Answer = Result<Option<Reply>, Fault>;

// What is recorded of a call: its answer, and what the session remembers and its carrier's state after it.
#[derive(Clone, Copy)]
pub struct Row {
    pub answer: Answer,
    pub kept: Record,
    pub carrier: CarrierState,
}
