// The calls of a script, one after another.
use crate::moment::{Held, Moment, filled, lend};
use crate::{people, rows};
use carrier::Script as HostScript;
use encoding::Utf8Encoding;
use link::Buffers;
use script::{Script, Step};
use session::Session;
use tally::{Ask, Call, make};

pub type Played<'a, 'b> = Session<Buffers<'a>, HostScript<'b>, Utf8Encoding>;

// For whom it is told what happened. A type parameter would be no plainer, since the program's words choose it one by one.
#[derive(Clone, Copy, PartialEq, Eq)]
pub enum Account {
    People,
    // One line a call.
    Machines,
}

// Plays the whole script. The areas hold the fill byte before the first call, and keep what each call leaves.
pub fn play(rt: &HostRuntime, script: &Script, account: Account) -> anyhow::Result<()> {
    let heap = rt.alloc();
    let mut out = vec![in heap; 0u8; script.room]?;
    let mut held = filled(heap, script)?;
    play_over(rt, script, out.as_mut_slice(), &mut held, account)
}

// With a link that sends to `out`.
fn play_over<'a>(
    rt: &HostRuntime,
    script: &'a Script,
    out: &'a mut [u8],
    held: &mut Held,
    account: Account,
) -> anyhow::Result<()> {
    let link = Buffers::new(out, script.server.as_slice(), script.ending);
    let host = HostScript::new(script.host.as_slice());
    let mut session = Session::new(link, host, Utf8Encoding, script.settings);
    let result = play_calls(rt, script, &mut session, held, account);
    let (_, _, _) = session.into_parts();
    result
}

fn play_calls(
    rt: &HostRuntime,
    script: &Script,
    session: &mut Played<'_, '_>,
    held: &mut Held,
    account: Account,
) -> anyhow::Result<()> {
    for step in script.calls.iter() {
        let moment = play_call(session, held, step)?;
        match account {
            Account::People => people::print(rt, script, session, step, &moment)?,
            Account::Machines => rows::print(rt, script, session, held, step, &moment)?,
        }
    }
    if account == Account::People {
        people::print_end(rt, script, session)?;
    }
    Ok(())
}

// Makes one call, and keeps what is needed to tell what it did.
fn play_call(session: &mut Played<'_, '_>, held: &mut Held, step: &Step) -> anyhow::Result<Moment> {
    let before = held.clone()?;
    let sent = session.link().sent().len();
    let taken = session.link().taken();
    let call = Call {
        ask: Ask::from(&step.ask),
        lent: step.lent,
    };
    let answer = make(session, call, &mut lend(held));
    Ok(Moment {
        before,
        sent,
        taken,
        answer,
    })
}
