// Types whose values a script writes as words.
#![tactic(auto, using(crate::proofs::Choices::apart))]

ghost use Rattle.std.specs.Prelude.{◌≡◌, ℕ, List, Option};
ghost use Rattle.script.specs.Choices.{mode_of, switch_of, peer_rule_of, encoding_name_of, ending_of, format_control_of};

use carrier::PeerRule;
use command::FormatControl;
use link::Ending;
use session::Mode;

// A type whose values are named by words.
pub(crate) trait Named: Sized {
    ghost named: { List ℕ → Option Self };

    fn named(word: &str) -> Option<Self>
        ensures { result ≡ named word.now };
}

// The encodings of the control connection by their names.
#[derive(Clone, Copy)]
pub enum EncodingName {
    Utf8,
}

impl Named for Mode {
    ghost named = { mode_of };

    fn named(word: &str) -> Option<Mode> {
        match word {
            "passive" => Some(Mode::Passive),
            "extended" => Some(Mode::ExtendedPassive),
            "active" => Some(Mode::Active),
            _ => None,
        }
    }
}

// A switch.
impl Named for bool {
    ghost named = { switch_of };

    fn named(word: &str) -> Option<bool> {
        match word {
            "on" => Some(true),
            "off" => Some(false),
            _ => None,
        }
    }
}

impl Named for PeerRule {
    ghost named = { peer_rule_of };

    fn named(word: &str) -> Option<PeerRule> {
        match word {
            "peer" => Some(PeerRule::ControlPeer),
            "any" => Some(PeerRule::Any),
            _ => None,
        }
    }
}

impl Named for EncodingName {
    ghost named = { encoding_name_of };

    fn named(word: &str) -> Option<EncodingName> {
        match word {
            "utf-8" => Some(EncodingName::Utf8),
            _ => None,
        }
    }
}

impl Named for Ending {
    ghost named = { ending_of };

    fn named(word: &str) -> Option<Ending> {
        match word {
            "closed" => Some(Ending::Closed),
            "broken" => Some(Ending::Broken),
            _ => None,
        }
    }
}

impl Named for FormatControl {
    ghost named = { format_control_of };

    fn named(word: &str) -> Option<FormatControl> {
        match word {
            "nonprint" => Some(FormatControl::NonPrint),
            "telnet" => Some(FormatControl::Telnet),
            "asa" => Some(FormatControl::Asa),
            _ => None,
        }
    }
}
