// The words of a line, one after another from the left.
ghost use Rattle.std.specs.Prelude.{◌≡◌, ℕ, Ok, ◌≤◌, drop, length, ◌<◌, ◌↔◌, IsTrue, IsOkUnless, IfOk, IfErr, IfSome, IfNone, IsUtf8, None, Some, OnOk, OnErr, slice_get};
ghost use Rattle.std.specs.Option.{option_map};
ghost use Rattle.script.specs.Addresses.{address_of};
ghost use Rattle.script.specs.Cuts.{trimmed, first_word, past_word, next_word};
ghost use Rattle.script.specs.Choices.{unchosen};
ghost use Rattle.script.specs.Numbers.{numeral_of};
ghost use Rattle.script.specs.Quotes.{meaning, bytes_of};

use crate::address::read_address;
use crate::choice::Named;
use crate::cut::{is_blank, trim_front, word_length};
use crate::error::Problem;
use crate::number::{NumeralError, read_number};
use crate::quote::read_quoted;
use carrier::IpAddr;
use std::alloc::Global;

// What is left of a line: nothing, or a word at its front.
#[derive(Drop)]
pub(crate) struct Words<'a> {
    // Where the texts of the line are kept.
    heap: Global,
    rest: &'a [u8],
}

impl<'a> Words<'a> {
    pub(crate) fn of(heap: Global, line: &'a [u8]) -> Words<'a>
        ensures { result.rest.now ≡ trimmed line.now }
    {
        Words {
            heap,
            rest: trim_front(line),
        }
    }

    pub(crate) fn is_over(&self) -> bool
        ensures { IsTrue result ↔ (length self.now.rest.now ≡ 0) }
    {
        self.rest.is_empty()
    }

    // Refuses more words.
    pub(crate) fn end(&self) -> Result<(), Problem>
        ensures over { OnOk result (length self.now.rest.now ≡ 0) }
        ensures more { OnErr result (0 < length self.now.rest.now) }
        ensures problem { IsOkUnless result Problem.ExtraWord }
    {
        if self.is_over() {
            Ok(())
        } else {
            Err(Problem::ExtraWord)
        }
    }

    pub(crate) fn word(&mut self) -> Result<&'a [u8], Problem>
        ensures value { IfOk result (λ w. w.now ≡ first_word self.old.rest.now) }
        ensures after { OnOk result (self.new.rest.now ≡ past_word self.old.rest.now) }
        ensures some { OnOk result (0 < length self.old.rest.now) }
        ensures none { OnErr result (length self.old.rest.now ≡ 0) }
        ensures problem { IsOkUnless result Problem.MissingWord }
    {
        if self.is_over() {
            return Err(Problem::MissingWord);
        }
        let (word, behind) = self.rest.split_at(word_length(self.rest));
        self.rest = trim_front(behind);
        Ok(word)
    }

    // The next word, which stays; none at the line's end.
    pub(crate) fn peek(&self) -> Option<&'a [u8]>
        ensures { option_map (λ w. w.now) result ≡ next_word self.now.rest.now }
    {
        if self.is_over() {
            return None;
        }
        Some(&self.rest[..word_length(self.rest)])
    }

    pub(crate) fn is_comment(&self) -> bool
        ensures { IsTrue result ↔ (slice_get self.now.rest.now 0 ≡ Some 35) }
    {
        matches!(self.rest, [b'#', ..])
    }

    // The next word as text. One that is not UTF-8 is none of the words of a script.
    pub(crate) fn name(&mut self) -> Result<Option<&'a str>, Problem>
        ensures text { IfOk result (λ n. IfSome n (λ t. t.now ≡ first_word self.old.rest.now)) }
        ensures broken { IfOk result (λ n. IfNone n (¬ (IsUtf8 (first_word self.old.rest.now)))) }
        ensures some { OnOk result (0 < length self.old.rest.now) }
        ensures none { OnErr result (length self.old.rest.now ≡ 0) }
        ensures problem { IsOkUnless result Problem.MissingWord }
    {
        Ok(std::str::from_utf8(self.word()?).ok())
    }

    // A value by its name.
    pub(crate) fn choice<T: Named>(&mut self) -> Result<T, Problem>
        ensures value { IfOk result (λ v. T.named (first_word self.old.rest.now) ≡ Some v) }
        ensures unnamed { OnErr result (IsUtf8 (first_word self.old.rest.now) → 0 < length self.old.rest.now → T.named (first_word self.old.rest.now) ≡ None) }
        ensures problem { IfErr result (λ p. p ≡ unchosen self.old.rest.now) }
    {
        self.name()?
            .and_then(|name| T::named(name))
            .ok_or(Problem::UnknownChoice)
    }

    pub(crate) fn address(&mut self) -> Result<IpAddr, Problem>
        ensures { IfOk result (λ a. address_of (first_word self.old.rest.now) ≡ Some a) }
    {
        read_address(self.word()?).ok_or(Problem::NotAnAddress)
    }

    // A text in double quotes.
    pub(crate) fn text(&mut self) -> Result<Vec<u8>, Problem>
        ensures { IfOk result (λ v. bytes_of (meaning (drop 1 self.old.rest.now)) ≡ Some v.items) }
    {
        if self.is_over() {
            return Err(Problem::MissingWord);
        }
        let [b'"', inner @ ..] = self.rest else {
            return Err(Problem::NotAText);
        };
        let (bytes, behind) = read_quoted(self.heap, inner)?;
        self.rest = behind_blank(behind)?;
        Ok(bytes)
    }

    // A number that is not above the greatest that may stand there.
    pub(crate) fn number<T: TryFrom<u64>>(&mut self, most: u64) -> Result<T, Problem>
    where
        T::Error: Drop,
        ensures { IfOk result (λ t. (n : ℕ) × (numeral_of (first_word self.old.rest.now) ≡ Ok n) × (n ≤ most) × T.try_from_gives n (Ok t)) }
    {
        match read_number(self.word()?) {
            Ok(value) if value <= most => T::try_from(value).map_err(|_| Problem::NumberTooLarge(
                most,
            )),
            Ok(_) | Err(NumeralError::TooLarge) => Err(Problem::NumberTooLarge(most)),
            Err(NumeralError::NotANumber) => Err(Problem::NotANumber),
        }
    }
}

// What follows a closing quote, which is the line's end or a blank.
fn behind_blank(rest: &[u8]) -> Result<&[u8], Problem>
    ensures { IfOk result (λ t. t.now ≡ trimmed rest.now) }
{
    match rest {
        [byte, ..] if !is_blank(*byte) => Err(Problem::NoBlankAfterQuote),
        _ => Ok(trim_front(rest)),
    }
}
