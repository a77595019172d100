// The lines that are calls.
ghost use Rattle.std.specs.Prelude.{◌≡◌, IfOk, IfSome};
ghost use Rattle.session.specs.Limits.{clamped};
ghost use Rattle.script.specs.Calls.{Bounded};

use crate::error::Problem;
use crate::name::CallName;
use crate::script::OwnedAsk;
use crate::words::Words;
use command::{FileType, FormatControl, LONGEST_ENCODED, LONGEST_ESCAPED};
use session::{Plain, Settings};
use tally::{Ask, Lent};

// The most bytes of one lent area.
const LONGEST_AREA: u64 = 1_048_576;

// The areas that a call is lent where its line says nothing of them: exactly what a session with these settings asks for.
pub(crate) fn default_lengths(settings: &Settings) -> Lent
    ensures { (result.reply ≡ clamped settings.now.limit) × (result.wide ≡ 8704) × (result.narrow ≡ 4352) }
{
    Lent {
        reply: settings.clamped_limit(),
        wide: LONGEST_ESCAPED,
        narrow: LONGEST_ENCODED,
    }
}

// The lengths at a call's end, if any are said.
pub(crate) fn read_lengths(words: &mut Words) -> Result<Option<Lent>, Problem>
    ensures { IfOk result (λ o. IfSome o Bounded) }
{
    if words.is_over() {
        return Ok(None);
    }
    if words.name()? != Some("with") {
        return Err(Problem::ExtraWord);
    }
    Ok(Some(Lent {
        reply: words.number(LONGEST_AREA)?,
        wide: words.number(LONGEST_AREA)?,
        narrow: words.number(LONGEST_AREA)?,
    }))
}

pub(crate) fn read_ask(name: CallName, words: &mut Words) -> Result<OwnedAsk, Problem> {
    match name {
        CallName::Greet => Ok(Ask::Greet),
        CallName::Login => Ok(Ask::Login(words.text()?, words.text()?)),
        CallName::Cwd => Ok(Ask::Plain(Plain::Cwd(words.text()?))),
        CallName::Cdup => Ok(Ask::Plain(Plain::Cdup)),
        CallName::Dele => Ok(Ask::Plain(Plain::Dele(words.text()?))),
        CallName::Rmd => Ok(Ask::Plain(Plain::Rmd(words.text()?))),
        CallName::Mkd => Ok(Ask::Plain(Plain::Mkd(words.text()?))),
        CallName::Noop => Ok(Ask::Plain(Plain::Noop)),
        CallName::Quit => Ok(Ask::Plain(Plain::Quit)),
        CallName::Rename => Ok(Ask::Rename(words.text()?, words.text()?)),
        CallName::TransferType => Ok(Ask::TransferType(read_file_type(words)?)),
        CallName::Resume => Ok(Ask::Resume(words.number(u64::MAX)?)),
    }
}

fn read_file_type(words: &mut Words) -> Result<FileType, Problem> {
    match words.name()? {
        Some("ascii") => Ok(FileType::Ascii(read_format(words)?)),
        Some("ebcdic") => Ok(FileType::Ebcdic(read_format(words)?)),
        Some("image") => Ok(FileType::Image),
        Some("binary") => Ok(FileType::Binary),
        Some("local") => Ok(FileType::Local(words.number(u8::MAX.into())?)),
        _ => Err(Problem::UnknownChoice),
    }
}

// A format may be left out: at the line's end and before the lengths of the areas.
fn read_format(words: &mut Words) -> Result<FormatControl, Problem> {
    if matches!(words.peek(), None | Some(b"with")) {
        return Ok(FormatControl::Default);
    }
    words.choice()
}
