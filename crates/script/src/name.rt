// The words that a line may begin with.
#![tactic(auto, using(crate::proofs::Choices::apart))]

ghost use Rattle.std.specs.Prelude.{◌≡◌};
ghost use Rattle.script.specs.Names.{setting_name_of, call_name_of};

use crate::choice::Named;

#[derive(Clone, Copy)]
pub(crate) enum SettingName {
    Mode,
    Nat,
    Peer,
    Callers,
    Limit,
    Encoding,
    Room,
    Ending,
    Fill,
}

#[derive(Clone, Copy)]
pub(crate) enum CallName {
    Greet,
    Login,
    Cwd,
    Cdup,
    Dele,
    Rmd,
    Mkd,
    Noop,
    Quit,
    Rename,
    TransferType,
    Resume,
}

impl Named for SettingName {
    ghost named = { setting_name_of };

    fn named(word: &str) -> Option<SettingName> {
        match word {
            "mode" => Some(SettingName::Mode),
            "nat" => Some(SettingName::Nat),
            "peer" => Some(SettingName::Peer),
            "callers" => Some(SettingName::Callers),
            "limit" => Some(SettingName::Limit),
            "encoding" => Some(SettingName::Encoding),
            "room" => Some(SettingName::Room),
            "ending" => Some(SettingName::Ending),
            "fill" => Some(SettingName::Fill),
            _ => None,
        }
    }
}

impl Named for CallName {
    ghost named = { call_name_of };

    fn named(word: &str) -> Option<CallName> {
        match word {
            "greet" => Some(CallName::Greet),
            "login" => Some(CallName::Login),
            "cwd" => Some(CallName::Cwd),
            "cdup" => Some(CallName::Cdup),
            "dele" => Some(CallName::Dele),
            "rmd" => Some(CallName::Rmd),
            "mkd" => Some(CallName::Mkd),
            "noop" => Some(CallName::Noop),
            "quit" => Some(CallName::Quit),
            "rename" => Some(CallName::Rename),
            "type" => Some(CallName::TransferType),
            "resume" => Some(CallName::Resume),
            _ => None,
        }
    }
}
