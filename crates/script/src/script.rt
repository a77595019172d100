// What a script says.
ghost use Rattle.std.specs.Prelude.{◌≤◌};

use crate::choice::EncodingName;
use carrier::Entry;
use link::Ending;
use session::Settings;
use tally::{Ask, Lent};

#[derive(Drop)]
pub struct Script {
    pub settings: Settings,
    pub encoding: EncodingName,
    // How many bytes the link takes.
    pub room: usize,
    // What comes after the server's bytes.
    pub ending: Ending,
    // What every byte of a lent area is before the first call.
    pub fill: u8,
    pub server: Vec<u8>,
    // The host's answers, one to each ask of the carrier.
    pub host: Vec<Entry>,
    pub calls: Vec<Step>,
    ghost room_bound: { room ≤ 16777216 },
}

// What is asked of the session, with its texts.
pub type OwnedAsk = Ask<Vec<u8>>;

// One call, with the line of the script that it stands in.
#[derive(Drop)]
pub struct Step {
    pub line: usize,
    pub ask: OwnedAsk,
    pub lent: Lent,
    ghost reply_bound: { lent.reply ≤ 1048576 },
    ghost wide_bound: { lent.wide ≤ 1048576 },
    ghost narrow_bound: { lent.narrow ≤ 1048576 },
}
