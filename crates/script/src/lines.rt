// A whole script, line by line.
ghost use Rattle.std.specs.Prelude.{◌≡◌, length, IfSome};
ghost use Rattle.std.specs.Iterator.{at_most};
ghost use Rattle.std.specs.Str.Lines.{strip_carriage_return};
ghost use Rattle.std.proofs.Props.{props};
ghost use Rattle.script.specs.Calls.{Bounded};
ghost use Rattle.script.specs.Cuts.{GivesLine};

use crate::call::{default_lengths, read_ask, read_lengths};
use crate::choice::Named;
use crate::cut::split_once;
use crate::error::{Problem, ScriptError};
use crate::host::read_answer;
use crate::name::{CallName, SettingName};
use crate::script::{OwnedAsk, Script, Step};
use crate::settings::Said;
use crate::words::Words;
use carrier::Entry;
use session::Settings;
use std::alloc::{AllocError, Global};
use tally::Lent;

// The lines of a text that are left, each without its byte 10.
// The library's `split_inclusive` leaves that byte in its parts; here the promise of `next` says which line comes.
#[derive(Drop)]
struct Lines<'a> {
    rest: &'a [u8],
}

impl<'a> Iterator for Lines<'a> {
    type Item = &'a [u8];

    ghost next_gives = { λ s r t. GivesLine (λ line. line.now) s.rest.now r t.rest.now };

    ghost remaining = { λ s. at_most (length s.rest.now) };

    fn next(&mut self) -> Option<&'a [u8]> {
        if self.rest.is_empty() {
            return None;
        }
        let (line, behind) = split_once(self.rest, b'\n').unwrap_or((self.rest, &[]));
        self.rest = behind;
        Some(line)
    }
}

// What was read so far. The areas that a call is lent hang on the limit, which may be said behind it.
#[derive(Drop)]
struct Draft {
    // Where what was read is kept.
    heap: Global,
    said: Said,
    server: Vec<u8>,
    host: Vec<Entry>,
    calls: Vec<Call>,
}

#[derive(Drop)]
struct Call {
    line: usize,
    ask: OwnedAsk,
    lent: Option<Lent>,
    ghost bounded: { IfSome lent Bounded } by { Prim.hlevel props },
}

impl Call {
    // The step of a script with these settings.
    fn step(self, settings: &Settings) -> Step {
        let Call { line, ask, lent } = self;
        Step {
            line,
            ask,
            lent: lent.unwrap_or(default_lengths(settings)),
        }
    }
}

// A line may end in CR LF as well as in LF.
fn without_cr(line: &[u8]) -> &[u8]
    ensures { result.now ≡ strip_carriage_return line.now }
{
    line.strip_suffix(b"\r").unwrap_or(line)
}

impl Draft {
    fn new(heap: Global) -> Draft {
        Draft {
            heap,
            said: Said::default(),
            server: Vec::new(heap),
            host: Vec::new(heap),
            calls: Vec::new(heap),
        }
    }

    fn read_line(&mut self, number: usize, line: &[u8]) -> Result<(), Problem> {
        let mut words = Words::of(self.heap, without_cr(line));
        if words.is_over() || words.is_comment() {
            return Ok(());
        }
        self.read_words(number, &mut words)?;
        words.end()
    }

    fn read_words(&mut self, number: usize, words: &mut Words) -> Result<(), Problem> {
        let Some(name) = words.name()? else {
            return Err(Problem::UnknownWord);
        };
        if let Some(setting) = SettingName::named(name) {
            return self.said.say(setting, words);
        }
        if let Some(call) = CallName::named(name) {
            return self.read_call(number, call, words);
        }
        match name {
            "server" => self.server.extend_from_slice(words.text()?.as_slice())?,
            "host" => self.host.push(read_answer(words)?)?,
            _ => return Err(Problem::UnknownWord),
        }
        Ok(())
    }

    fn read_call(&mut self, line: usize, name: CallName, words: &mut Words) -> Result<(), Problem> {
        let ask = read_ask(name, words)?;
        let lent = read_lengths(words)?;
        self.calls.push(Call { line, ask, lent })?;
        Ok(())
    }

    fn finish(self) -> Result<Script, AllocError> {
        let Draft {
            heap,
            said,
            server,
            host,
            calls,
        } = self;
        let settings = said.settings();
        let steps = calls
            .into_iter()
            .map(|call| call.step(&settings))
            .collect(heap)?;
        Ok(Script {
            settings,
            encoding: said.encoding(),
            room: said.room(),
            ending: said.ending(),
            fill: said.fill(),
            server,
            host,
            calls: steps,
        })
    }
}

// Reads a script; nothing comes of one that has an error.
pub fn parse(heap: Global, text: &[u8]) -> Result<Script, ScriptError> {
    let mut draft = Draft::new(heap);
    // Counted here and not by `enumerate`, since too little memory at the end is told of the last line.
    let mut number = 0;
    for line in (Lines { rest: text }) {
        number += 1;
        draft
            .read_line(number, line)
            .map_err(|problem| problem.at(number))?;
    }
    draft.finish().map_err(|_| Problem::OutOfMemory.at(number))
}
