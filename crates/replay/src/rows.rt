// One line a call, for machines: tab-separated `name=value` fields.
use crate::moment::{Held, Moment};
use crate::play::Played;
use crate::shown::{Hex, call_name, front, rest};
use carrier::Carrier;
use script::{Script, Step};
use std::fmt;
use tally::Answer;

pub fn print(
    rt: &HostRuntime,
    script: &Script,
    session: &Played<'_, '_>,
    held: &Held,
    step: &Step,
    moment: &Moment,
) -> anyhow::Result<()> {
    let call = call_name(&step.ask);
    let answer = AnswerFields(moment.answer);
    let sent = Hex(rest(session.link().sent(), moment.sent));
    let taken = session.link().taken().saturating_sub(moment.taken);
    let stored = Hex(front(held.reply.as_slice(), handed_length(moment.answer)));
    let marks = Marks(session);
    let fill = script.fill;
    let before = &moment.before;
    let reply = change_of(&before.reply, &held.reply, step.lent.reply, fill);
    let wide = change_of(&before.wide, &held.wide, step.lent.wide, fill);
    let narrow = change_of(&before.narrow, &held.narrow, step.lent.narrow, fill);
    println!(rt;
        "call={call}\t{answer}\tsent={sent}\ttaken={taken}\tfront={stored}\t{marks}\treply={reply}\twide={wide}\tnarrow={narrow}"
    )?;
    Ok(())
}

// The answer: `passed`, `done` or the refusal's number; layer and verb of a refusal; code and length of the last reply read.
#[derive(Clone, Copy)]
struct AnswerFields(Answer);

impl fmt::Display for AnswerFields {
    fn fmt<W: fmt::Write>(&self, f: &mut fmt::Formatter<W>) -> fmt::Result {
        match self.0 {
            Ok(Some(reply)) => {
                let code = reply.code;
                let length = reply.length;
                write!(
                    f,
                    "answer=passed\tlayer=-\tverb=-\tcode={code}\tlength={length}"
                )
            }
            Ok(None) => f.write_str("answer=done\tlayer=-\tverb=-\tcode=0\tlength=0"),
            Err(fault) => {
                let number = fault.number();
                let layer = fault.layer();
                let verb = fault.verb.map_or("-", |verb| verb.name());
                let code = fault.code;
                let length = fault.length;
                write!(
                    f,
                    "answer={number}\tlayer={layer}\tverb={verb}\tcode={code}\tlength={length}"
                )
            }
        }
    }
}

fn handed_length(answer: Answer) -> usize {
    match answer {
        Ok(reply) => reply.map_or(0, |reply| reply.length),
        Err(fault) => fault.length,
    }
}

// What the session remembers, and its carrier's state.
#[derive(Clone, Copy)]
struct Marks<'s, 'a, 'b>(&'s Played<'a, 'b>);

impl fmt::Display for Marks<'_, '_, '_> {
    fn fmt<W: fmt::Write>(&self, f: &mut fmt::Formatter<W>) -> fmt::Result {
        let record = self.0.record();
        let step = yes(record.in_step);
        let greeted = yes(record.greeted);
        let transfer = yes(record.transfer_open);
        let offset = record.restart.unwrap_or(0);
        let count = record.completed;
        let carrier = self.0.carrier().state();
        write!(
            f,
            "in-step={step}\tgreeted={greeted}\ttransfer={transfer}\toffset={offset}\tcount={count}\tcarrier={carrier}"
        )
    }
}

fn yes(mark: bool) -> &'static str {
    if mark { "yes" } else { "no" }
}

// What the lent part of an area holds: `same` as before the call, `zero`, or its bytes up to the last that is not the fill.
#[derive(Clone, Copy)]
struct Change<'a> {
    before: &'a [u8],
    after: &'a [u8],
    fill: u8,
}

fn change_of<'a>(before: &'a Vec<u8>, after: &'a Vec<u8>, lent: usize, fill: u8) -> Change<'a> {
    Change {
        before: front(before.as_slice(), lent),
        after: front(after.as_slice(), lent),
        fill,
    }
}

impl fmt::Display for Change<'_> {
    fn fmt<W: fmt::Write>(&self, f: &mut fmt::Formatter<W>) -> fmt::Result {
        if self.before == self.after {
            return f.write_str("same");
        }
        if used(self.after, 0).is_empty() {
            return f.write_str("zero");
        }
        let bytes = Hex(used(self.after, self.fill));
        write!(f, "{bytes}")
    }
}

// The bytes up to the last that is not the fill.
fn used(bytes: &[u8], fill: u8) -> &[u8] {
    match bytes.iter().rposition(|byte| *byte != fill) {
        Some(place) => &bytes[..place + 1],
        None => &[],
    }
}
