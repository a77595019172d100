// The statuses that a call expects, by the names and codes of RFC 959.
ghost use Rattle.std.specs.Prelude.{◌≡◌};
ghost use Rattle.reply.specs.Statuses.{status_code, expects, preliminary};

#[derive(Clone, Copy, PartialEq, Eq, Debug)]
pub enum Status {
    CommandOk = 200,
    Ready = 220,
    Closing = 221,
    LoggedIn = 230,
    RequestedFileActionOk = 250,
    PathCreated = 257,
    NeedPassword = 331,
    RequestFilePending = 350,
}

impl Status {
    pub fn code(self) -> u16
        ensures { result ≡ status_code self }
    {
        self as u16
    }
}

// Is the code that of one of the statuses?
pub fn is_expected(expected: &[Status], code: u16) -> bool
    ensures { result ≡ expects expected.now code }
{
    expected.iter().any(|status| status.code() == code)
}

// A code from 100 to 199 only announces another reply.
pub fn is_preliminary(code: u16) -> bool
    ensures { result ≡ preliminary code }
{
    matches!(code, 100..=199)
}
