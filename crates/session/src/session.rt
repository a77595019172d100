// The session, what it keeps, and how it is made and looked at.
ghost use Rattle.std.specs.Prelude.{◌≡◌};
ghost use Rattle.session.specs.Model.{model, fresh};

use crate::settings::Settings;
use carrier::Carrier;
use encoding::Encoding;
use link::Link;

// What a session remembers between calls, as one value that can be looked at and kept.
#[derive(Clone, Copy)]
pub struct Record {
    // As given, with the limit clamped.
    pub settings: Settings,
    // A 220 was read.
    pub greeted: bool,
    // Every line so far has its own reply.
    pub in_step: bool,
    pub transfer_open: bool,
    // Where the next transfer is to start, unless at 0.
    pub restart: Option<u64>,
    // The transfers that were complete.
    pub completed: u16,
}

// Without a `Model`, which would hide the link and the carrier: `link`, `carrier` and `into_parts` promise them themselves.
pub struct Session<L, C, E> {
    pub(crate) link: L,
    pub(crate) carrier: C,
    pub(crate) encoding: E,
    pub(crate) kept: Record,
}

impl<L: Link, C: Carrier, E: Encoding> Session<L, C, E> {
    // A session that has read nothing yet. The carrier is closed.
    pub fn new(link: L, mut carrier: C, encoding: E, settings: Settings) -> Session<L, C, E>
        ensures { model L.Link.means C.Carrier.means E.Encoding.means result ≡ fresh settings (L.Link.means link) (C.Carrier.means carrier) (E.Encoding.means encoding) }
    {
        carrier.close();
        let settings = Settings {
            limit: settings.clamped_limit(),
            ..settings
        };
        let kept = Record {
            settings,
            greeted: false,
            in_step: true,
            transfer_open: false,
            restart: None,
            completed: 0,
        };
        Session {
            link,
            carrier,
            encoding,
            kept,
        }
    }

    pub fn record(&self) -> Record
        ensures { result ≡ self.now.kept }
    {
        self.kept
    }

    pub fn link(&self) -> &L
        ensures { result.now ≡ self.now.link }
    {
        &self.link
    }

    pub fn carrier(&self) -> &C
        ensures { result.now ≡ self.now.carrier }
    {
        &self.carrier
    }

    // The parts that the session was made of, as they are now.
    pub fn into_parts(self) -> (L, C, E)
        ensures { (result.0 ≡ self.link) × (result.1 ≡ self.carrier) × (result.2 ≡ self.encoding) }
    {
        let Session {
            link,
            carrier,
            encoding,
            kept: _,
        } = self;
        (link, carrier, encoding)
    }
}
