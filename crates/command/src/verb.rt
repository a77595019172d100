// The verbs of the command lines.
ghost use Rattle.std.specs.Prelude.{◌≡◌, Some};
ghost use Rattle.command.specs.Verbs.{word};

use std::fmt;

#[derive(Clone, Copy, PartialEq, Eq, Debug)]
pub enum Verb {
    User,
    Pass,
    Cwd,
    Cdup,
    Dele,
    Rmd,
    Mkd,
    Rnfr,
    Rnto,
    Type,
    Noop,
    Quit,
}

impl Verb {
    pub fn name(self) -> &'static str
        ensures { result.now ≡ word self }
    {
        match self {
            Verb::User => "USER",
            Verb::Pass => "PASS",
            Verb::Cwd => "CWD",
            Verb::Cdup => "CDUP",
            Verb::Dele => "DELE",
            Verb::Rmd => "RMD",
            Verb::Mkd => "MKD",
            Verb::Rnfr => "RNFR",
            Verb::Rnto => "RNTO",
            Verb::Type => "TYPE",
            Verb::Noop => "NOOP",
            Verb::Quit => "QUIT",
        }
    }

    // The verb as it stands in a line.
    pub fn word(self) -> &'static [u8]
        ensures { result.now ≡ word self }
    {
        self.name().as_bytes()
    }
}

impl fmt::Display for Verb {
    ghost output = { λ verb. Some (word verb) };

    fn fmt<W: fmt::Write>(&self, f: &mut fmt::Formatter<W>) -> fmt::Result {
        f.write_str(self.name())
    }
}
