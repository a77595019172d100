// The lines that are settings, each of which is said at most once.
ghost use Rattle.std.specs.Prelude.{◌≡◌, ◌≤◌, false, [], ◌∷◌, unwrap_or};
ghost use Rattle.std.specs.Option.{option_map_or};
ghost use Rattle.script.specs.Settings.{said_once, first_said};

use crate::choice::EncodingName;
use crate::error::Problem;
use crate::name::SettingName;
use crate::words::Words;
use carrier::{IpAddr, PeerRule};
use link::Ending;
use session::{Mode, Settings};

// The most bytes that a link takes.
const MOST_ROOM: u64 = 16_777_216;

// How many bytes the link takes.
#[derive(Clone, Copy)]
struct Room {
    bytes: usize,
    ghost bound: { bytes ≤ 16777216 },
}

// What was said so far.
#[derive(Clone, Copy, Default)]
pub(crate) struct Said {
    mode: Option<Mode>,
    nat_workaround: Option<bool>,
    peer: Option<IpAddr>,
    peer_rule: Option<PeerRule>,
    limit: Option<usize>,
    encoding: Option<EncodingName>,
    room: Option<Room>,
    ending: Option<Ending>,
    fill: Option<u8>,
}

// Puts a value into a place that has none yet.
fn once<T: Drop>(place: &mut Option<T>, value: T) -> Result<(), Problem>
    ensures answer { result ≡ said_once place.old }
    ensures after { place.new ≡ first_said place.old value }
{
    if place.is_some() {
        return Err(Problem::SaidTwice);
    }
    *place = Some(value);
    Ok(())
}

impl Said {
    pub(crate) fn say(&mut self, name: SettingName, words: &mut Words) -> Result<(), Problem> {
        match name {
            SettingName::Mode => once(&mut self.mode, words.choice()?),
            SettingName::Nat => once(&mut self.nat_workaround, words.choice()?),
            SettingName::Peer => once(&mut self.peer, words.address()?),
            SettingName::Callers => once(&mut self.peer_rule, words.choice()?),
            SettingName::Limit => once(&mut self.limit, words.number(u64::MAX)?),
            SettingName::Encoding => once(&mut self.encoding, words.choice()?),
            SettingName::Room => once(
                &mut self.room,
                Room {
                    bytes: words.number(MOST_ROOM)?,
                },
            ),
            SettingName::Ending => once(&mut self.ending, words.choice()?),
            SettingName::Fill => once(&mut self.fill, words.number(u8::MAX.into())?),
        }
    }

    pub(crate) fn settings(&self) -> Settings
        ensures mode { result.mode ≡ unwrap_or self.now.mode Mode.Passive }
        ensures nat_workaround { result.nat_workaround ≡ unwrap_or self.now.nat_workaround false }
        ensures peer { result.peer ≡ unwrap_or self.now.peer (IpAddr.V4 (192 ∷ 0 ∷ 2 ∷ 1 ∷ [])) }
        ensures peer_rule { result.peer_rule ≡ unwrap_or self.now.peer_rule PeerRule.ControlPeer }
        ensures limit { result.limit ≡ unwrap_or self.now.limit 4096 }
    {
        Settings {
            mode: self.mode.unwrap_or(Mode::Passive),
            nat_workaround: self.nat_workaround.unwrap_or(false),
            peer: self.peer.unwrap_or(IpAddr::V4([192, 0, 2, 1])),
            peer_rule: self.peer_rule.unwrap_or(PeerRule::ControlPeer),
            limit: self.limit.unwrap_or(4096),
        }
    }

    pub(crate) fn encoding(&self) -> EncodingName
        ensures { result ≡ unwrap_or self.now.encoding EncodingName.Utf8 }
    {
        self.encoding.unwrap_or(EncodingName::Utf8)
    }

    pub(crate) fn room(&self) -> usize
        ensures value { result ≡ option_map_or (λ r. r.bytes) self.now.room 65536 }
        ensures bound { result ≤ 16777216 }
    {
        self.room.map_or(65_536, |room| room.bytes)
    }

    pub(crate) fn ending(&self) -> Ending
        ensures { result ≡ unwrap_or self.now.ending Ending.Closed }
    {
        self.ending.unwrap_or(Ending::Closed)
    }

    pub(crate) fn fill(&self) -> u8
        ensures { result ≡ unwrap_or self.now.fill 0 }
    {
        self.fill.unwrap_or(0)
    }
}
