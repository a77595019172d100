// What happened, for people.
use crate::moment::Moment;
use crate::play::Played;
use crate::shown::{Readable, call_name, front, line_length, rest, unended};
use command::Fault;
use link::{Buffers, Ending};
use reply::{Rule, read_response};
use script::{OwnedAsk, Script, Step};
use session::Plain;
use tally::{Answer, Ask};

pub fn print(
    rt: &HostRuntime,
    script: &Script,
    session: &Played<'_, '_>,
    step: &Step,
    moment: &Moment,
) -> anyhow::Result<()> {
    print_call(rt, &step.ask)?;
    let sent = rest(session.link().sent(), moment.sent);
    let taken = session.link().taken();
    let came = rest(front(script.server.as_slice(), taken), moment.taken);
    print_exchange(rt, sent, came, session.record().settings.limit)?;
    print_answer(rt, moment.answer)
}

fn print_call(rt: &HostRuntime, ask: &OwnedAsk) -> anyhow::Result<()> {
    let name = call_name(ask);
    match ask {
        Ask::Login(first, second) | Ask::Rename(first, second) => {
            let first = Readable(first.as_slice());
            let second = Readable(second.as_slice());
            println!(rt; "{name} \"{first}\" \"{second}\"")?;
        }
        Ask::Plain(Plain::Cwd(path) | Plain::Dele(path) | Plain::Rmd(path) | Plain::Mkd(path)) => {
            let path = Readable(path.as_slice());
            println!(rt; "{name} \"{path}\"")?;
        }
        Ask::Resume(offset) => println!(rt; "{name} at {offset}")?,
        Ask::TransferType(file_type) => println!(rt; "{name} {file_type}")?,
        Ask::Greet | Ask::Plain(Plain::Cdup | Plain::Noop | Plain::Quit) => println!(rt; "{name}")?,
    }
    Ok(())
}

// Each line sent and the reply that came after it. A call sends at most two lines and reads at most two replies.
fn print_exchange(
    rt: &HostRuntime,
    mut sent: &[u8],
    mut came: &[u8],
    limit: usize,
) -> anyhow::Result<()> {
    for _ in 0..2 {
        let line = line_length(sent);
        print_lines(rt, "  sent      ", front(sent, line))?;
        sent = rest(sent, line);
        let reply = reply_length(rt, came, limit)?;
        print_lines(rt, "  received  ", front(came, reply))?;
        came = rest(came, reply);
    }
    Ok(())
}

fn print_lines(rt: &HostRuntime, mark: &str, bytes: &[u8]) -> anyhow::Result<()> {
    for line in bytes.split_inclusive(|byte| *byte == b'\n') {
        let line = Readable(unended(line));
        println!(rt; "{mark}{line}")?;
    }
    Ok(())
}

// How many of the bytes the reply at their front takes, by the reader itself.
fn reply_length(rt: &HostRuntime, came: &[u8], limit: usize) -> anyhow::Result<usize> {
    if came.is_empty() {
        return Ok(0);
    }
    let mut area = vec![in rt.alloc(); 0u8; limit]?;
    let mut nothing = [0u8; 0];
    Ok(taken_by_reply(&mut nothing, came, area.as_mut_slice()))
}

fn taken_by_reply<'a>(out: &'a mut [u8], came: &'a [u8], area: &mut [u8]) -> usize {
    let mut link = Buffers::new(out, came, Ending::Closed);
    let _ = read_response(&mut link, area, Rule::Usual, None);
    link.taken()
}

fn print_answer(rt: &HostRuntime, answer: Answer) -> anyhow::Result<()> {
    match answer {
        Ok(Some(reply)) => {
            let code = reply.code;
            let length = reply.length;
            println!(rt; "  passed    with {code}, a reply of {length} bytes")?;
        }
        Ok(None) => println!(rt; "  done")?,
        Err(fault) => print_fault(rt, fault)?,
    }
    Ok(())
}

fn print_fault(rt: &HostRuntime, fault: Fault) -> anyhow::Result<()> {
    let number = fault.number();
    let refusal = fault.refusal;
    let layer = fault.layer();
    println!(rt; "  refused   by number {number} ({layer}): {refusal}")?;
    if let Some(verb) = fault.verb {
        println!(rt; "            it speaks of the line {verb}")?;
    }
    if fault.length > 0 {
        let code = fault.code;
        let length = fault.length;
        println!(rt; "            the last reply read has code {code} and {length} bytes")?;
    }
    Ok(())
}

// What the session came to.
pub fn print_end(
    rt: &HostRuntime,
    script: &Script,
    session: &Played<'_, '_>,
) -> anyhow::Result<()> {
    let sent = session.link().sent().len();
    let taken = session.link().taken();
    let all = script.server.len();
    println!(rt; "")?;
    if session.record().in_step {
        println!(rt; "The session is in step: every line that was sent has its own reply.")?;
    } else {
        println!(rt;
            "The session is out of step: a reply is missing or was not the one that a line waited for."
        )?;
        println!(rt;
            "It refuses every further call but resume, so that no line is given the reply of another."
        )?;
    }
    println!(rt; "{sent} bytes were sent, and {taken} of the server's {all} bytes were taken.")?;
    Ok(())
}
