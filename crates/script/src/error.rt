// Why a script is not played.
ghost use Rattle.std.specs.Prelude.{◌≡◌};
ghost use Rattle.script.specs.Quotes.{problem_of};
ghost use Rattle.script.specs.declared.error.Problem.TheVariants.{OutOfMemory};

use crate::quote::QuoteError;
use std::alloc::{AllocError, AllocFailed};
use std::error::Error;
use std::fmt;

// The line, from 1, and what is wrong there.
#[derive(Clone, Copy, PartialEq, Eq, Debug)]
pub struct ScriptError {
    pub line: usize,
    pub problem: Problem,
}

#[derive(Clone, Copy, PartialEq, Eq, Debug)]
pub enum Problem {
    UnknownWord,
    UnknownChoice,
    MissingWord,
    ExtraWord,
    SaidTwice,
    NotANumber,
    // The greatest number that may stand there.
    NumberTooLarge(u64),
    NotAnAddress,
    NotAText,
    UnclosedQuote,
    BadEscape,
    NoBlankAfterQuote,
    OutOfMemory,
}

impl Problem {
    pub(crate) fn at(self, line: usize) -> ScriptError
        ensures { result ≡ record { line = line; problem = self } }
    {
        ScriptError {
            line,
            problem: self,
        }
    }
}

impl From<QuoteError> for Problem {
    ghost from_gives = { λ e r. r ≡ problem_of e };

    fn from(error: QuoteError) -> Problem {
        match error {
            QuoteError::Unclosed => Problem::UnclosedQuote,
            QuoteError::BadEscape => Problem::BadEscape,
        }
    }
}

// The library has two errors for too little memory, with and without the value that was not stored.
impl From<AllocError> for Problem {
    ghost from_gives = { λ _ r. r ≡ OutOfMemory };

    fn from(_error: AllocError) -> Problem {
        Problem::OutOfMemory
    }
}

impl<T: Drop> From<AllocFailed<T>> for Problem {
    ghost from_gives = { λ _ r. r ≡ OutOfMemory };

    fn from(_error: AllocFailed<T>) -> Problem {
        Problem::OutOfMemory
    }
}

impl fmt::Display for Problem {
    fn fmt<W: fmt::Write>(&self, f: &mut fmt::Formatter<W>) -> fmt::Result {
        match self {
            Problem::UnknownWord => f.write_str("the first word is neither a setting nor a call"),
            Problem::UnknownChoice => f.write_str("a word is none of those that may stand there"),
            Problem::MissingWord => f.write_str("a word is missing at the end"),
            Problem::ExtraWord => f.write_str("there is a word too many at the end"),
            Problem::SaidTwice => f.write_str("this setting was said before"),
            Problem::NotANumber => f.write_str("a number is due where another word stands"),
            Problem::NumberTooLarge(most) => write!(f, "a number is above {most}"),
            Problem::NotAnAddress => f.write_str("an address is due where another word stands"),
            Problem::NotAText => f.write_str(
                "a text in double quotes is due where another word stands",
            ),
            Problem::UnclosedQuote => f.write_str("a text has no closing quote"),
            Problem::BadEscape => f.write_str("a backslash stands before what is no escape"),
            Problem::NoBlankAfterQuote => f.write_str("a closing quote is not followed by a space"),
            Problem::OutOfMemory => f.write_str("there is too little memory to go on"),
        }
    }
}

impl Error for Problem {}

impl fmt::Display for ScriptError {
    fn fmt<W: fmt::Write>(&self, f: &mut fmt::Formatter<W>) -> fmt::Result {
        let ScriptError { line, problem } = self;
        write!(f, "line {line}: {problem}")
    }
}

impl Error for ScriptError {}
