// Plays written sessions through the session's public calls, and prints what happened.
//
//     replay [FILE..] [rows [FILE..]]
//
// Each FILE is played in turn; without one the script comes from standard input. After the word `rows` it prints one
// line for each call, for machines, in the place of the account for people.
#![tactic(auto)]

mod moment;
mod people;
mod play;
mod rows;
mod shown;

use crate::play::{Account, play};
use script::parse;
use std::io::Read;
use std::process::ExitCode;
use std::{env, fs};

// An error is told in one line, and ends the program with status 1.
fn main(rt: HostRuntime) -> anyhow::Result<ExitCode> {
    if let Err(error) = replay(&rt) {
        eprintln!(rt; "replay: {error}")?;
        return Ok(ExitCode::FAILURE);
    }
    Ok(ExitCode::SUCCESS)
}

fn replay(rt: &HostRuntime) -> anyhow::Result<()> {
    let mut account = Account::People;
    let mut played = false;
    for word in env::args(rt)?.skip(1) {
        if word.as_str() == "rows" {
            account = Account::Machines;
        } else {
            play_file(rt, word.as_str(), account)?;
            played = true;
        }
    }
    if played {
        return Ok(());
    }
    play_input(rt, account)
}

fn play_file(rt: &HostRuntime, name: &str, account: Account) -> anyhow::Result<()> {
    let text = fs::read(rt, name)?;
    if account == Account::Machines {
        return play_text(rt, text.as_slice(), account);
    }
    println!(rt; "=== {name}")?;
    println!(rt; "")?;
    play_text(rt, text.as_slice(), account)?;
    println!(rt; "")?;
    Ok(())
}

fn play_input(rt: &HostRuntime, account: Account) -> anyhow::Result<()> {
    let mut text = Vec::new(rt.alloc());
    rt.stdin().read_to_end(&mut text)?;
    play_text(rt, text.as_slice(), account)
}

// A script that cannot be read is an error that names its line, and nothing of it is played.
fn play_text(rt: &HostRuntime, text: &[u8], account: Account) -> anyhow::Result<()> {
    let script = parse(rt.alloc(), text)?;
    play(rt, &script, account)
}
