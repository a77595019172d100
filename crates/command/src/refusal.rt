// Why a call is refused: one case for each question that a call is put, with its number and its layer.
ghost use Rattle.std.specs.Prelude.{◌≡◌, Some};
ghost use Rattle.command.specs.Refusals.{number_of, layer_of, layer_word};

use std::fmt;

// The cases in the order of the questions, each with its number.
#[derive(Clone, Copy, PartialEq, Eq, Debug)]
pub enum Refusal {
    AreaTooShort = 1,
    OutOfStep = 2,
    GreetingDue = 3,
    TransferOpen = 4,
    NoTransfer = 5,
    ArgumentTooLong = 6,
    ArgumentNotUtf8 = 7,
    ArgumentNotOneLine = 8,
    NoEncoding = 9,
    LineNotEnded = 10,
    LineNotOne = 11,
    LinkFull = 12,
    LinkClosed = 13,
    LinkBroken = 14,
    ReplyTooLong = 15,
    ReplyIllBegun = 16,
    UnexpectedStatus = 17,
    NoDecoding = 18,
    BadResponse = 19,
    UnexpectedResponse = 20,
    TableFull = 21,
    NotListening = 22,
    NotDialled = 23,
    NoCaller = 24,
}

// Which part of the session refused.
#[derive(Clone, Copy, PartialEq, Eq, Debug)]
pub enum Layer {
    Session,
    Line,
    Link,
    Reply,
    Carrier,
}

impl Layer {
    fn name(self) -> &'static str
        ensures { result.now ≡ layer_word self }
    {
        match self {
            Layer::Session => "session",
            Layer::Line => "line",
            Layer::Link => "link",
            Layer::Reply => "reply",
            Layer::Carrier => "carrier",
        }
    }
}

impl fmt::Display for Layer {
    ghost output = { λ layer. Some (layer_word layer) };

    fn fmt<W: fmt::Write>(&self, f: &mut fmt::Formatter<W>) -> fmt::Result {
        f.write_str(self.name())
    }
}

impl Refusal {
    pub fn number(self) -> u8
        ensures { result ≡ number_of self }
    {
        self as u8
    }

    pub fn layer(self) -> Layer
        ensures { result ≡ layer_of self }
    {
        match self {
            Refusal::AreaTooShort
            | Refusal::OutOfStep
            | Refusal::GreetingDue
            | Refusal::TransferOpen
            | Refusal::NoTransfer => Layer::Session,
            Refusal::ArgumentTooLong
            | Refusal::ArgumentNotUtf8
            | Refusal::ArgumentNotOneLine
            | Refusal::NoEncoding
            | Refusal::LineNotEnded
            | Refusal::LineNotOne => Layer::Line,
            Refusal::LinkFull | Refusal::LinkClosed | Refusal::LinkBroken => Layer::Link,
            Refusal::ReplyTooLong
            | Refusal::ReplyIllBegun
            | Refusal::UnexpectedStatus
            | Refusal::NoDecoding
            | Refusal::BadResponse
            | Refusal::UnexpectedResponse
            | Refusal::TableFull => Layer::Reply,
            Refusal::NotListening | Refusal::NotDialled | Refusal::NoCaller => Layer::Carrier,
        }
    }

    // What the refused question asked, for people.
    fn sentence(self) -> &'static str {
        match self {
            Refusal::AreaTooShort => "the reply area or a work area is too short",
            Refusal::OutOfStep => "the session is out of step: a reply was lost or came too early",
            Refusal::GreetingDue =>
                "the server's greeting has not been read, or greet was asked to read it again",
            Refusal::TransferOpen => "a transfer is open: finish it, abort it or hang up first",
            Refusal::NoTransfer => "no transfer is open",
            Refusal::ArgumentTooLong => "the argument is longer than 4,096 bytes",
            Refusal::ArgumentNotUtf8 => "the argument is not well-formed UTF-8",
            Refusal::ArgumentNotOneLine => "the argument has a line break in it",
            Refusal::NoEncoding => "the encoding does not give the line in 4,352 bytes or less",
            Refusal::LineNotEnded => "the encoded line does not end with CR LF",
            Refusal::LineNotOne => "the encoded line has a line break before its end",
            Refusal::LinkFull => "the link does not take the line",
            Refusal::LinkClosed => "the link closed before the reply was whole",
            Refusal::LinkBroken => "the link broke before the reply was whole",
            Refusal::ReplyTooLong => "the reply is longer than the limit",
            Refusal::ReplyIllBegun => "the reply's first line does not begin with a code",
            Refusal::UnexpectedStatus => "the server answered with a status that was not expected",
            Refusal::NoDecoding => "the reply cannot be decoded into the text area",
            Refusal::BadResponse => "the reply's content cannot be read",
            Refusal::UnexpectedResponse => "the reply has no address or no quoted path",
            Refusal::TableFull => "the feature table is full",
            Refusal::NotListening => "the carrier does not listen for a data connection",
            Refusal::NotDialled => "the carrier did not dial the data connection",
            Refusal::NoCaller => "no allowed caller was kept for the data connection",
        }
    }
}

impl fmt::Display for Refusal {
    fn fmt<W: fmt::Write>(&self, f: &mut fmt::Formatter<W>) -> fmt::Result {
        f.write_str(self.sentence())
    }
}
