// Tests of the command lines on examples, with an encoding that leaves every text as it is.
#![tactic(auto)]

ghost use Rattle.command_tests.specs.Asis.{as_is};
ghost use Rattle.std.proofs.Common.{rules};

use encoding::Encoding;
use text::{Parts, write_front};

pub struct AsIs;

impl Encoding for AsIs {
    ghost means = { λ _. as_is };

    ghost back = { Prim.search rules };

    fn encode(&self, text: &[u8], area: &mut [u8]) -> Option<usize> {
        write_front(Parts(&[text]), area)
    }

    fn decode(&self, bytes: &[u8], area: &mut [u8]) -> Option<usize> {
        write_front(Parts(&[bytes]), area)
    }
}

#[cfg(test)]
mod tests {
    use super::*;
    use command::{
        Command, Fault, FileType, FormatControl, Layer, Refusal, Verb, encode_line,
        escape_telnet_iac, unescape_telnet_iac,
    };
    use std::process::Abort;
    use std::test::Fail;

    fn line_is(
        rt: &impl Abort,
        verb: Verb,
        argument: Option<&[u8]>,
        line: &[u8],
    ) -> Result<(), Fail> {
        let mut wide = [0; 8704];
        let mut narrow = [0; 4352];
        let length = encode_line(Command { verb, argument }, &AsIs, &mut wide, &mut narrow)?;
        assert!(rt; &wide[0..length] == line);
        Ok(())
    }

    fn refused_in(rt: &impl Abort, wide: &mut [u8], argument: &[u8], refusal: Refusal) {
        let mut narrow = [0; 4352];
        let command = Command {
            verb: Verb::Cwd,
            argument: Some(argument),
        };
        assert_eq!(rt;
            encode_line(command, &AsIs, wide, &mut narrow),
            Err(refusal)
        );
    }

    fn refused(rt: &impl Abort, argument: &[u8], refusal: Refusal) {
        let mut wide = [0; 8704];
        refused_in(rt, &mut wide, argument, refusal);
    }

    #[test]
    fn lines_have_their_texts(rt: HostRuntime) -> Result<(), Fail> {
        line_is(&rt, Verb::Noop, None, b"NOOP\r\n")?;
        line_is(&rt, Verb::Cwd, Some(b""), b"CWD \r\n")?;
        line_is(&rt, Verb::User, Some(b"a b"), b"USER a b\r\n")
    }

    #[test]
    fn arguments_are_refused(rt: HostRuntime) {
        refused(&rt, &[b'a'; 4097], Refusal::ArgumentTooLong);
        refused(&rt, &[255; 4097], Refusal::ArgumentTooLong);
        refused(&rt, b"a\xff\n", Refusal::ArgumentNotUtf8);
        refused(&rt, b"a\r", Refusal::ArgumentNotOneLine);
        refused(&rt, b"a\nNOOP", Refusal::ArgumentNotOneLine);
    }

    #[test]
    fn short_areas_are_refused(rt: HostRuntime) {
        let mut wide = [0; 8703];
        refused_in(&rt, &mut wide, b"a\n", Refusal::AreaTooShort);
    }

    #[test]
    fn bytes_255_are_doubled(rt: HostRuntime) {
        let mut area = [7; 6];
        assert_eq!(rt; escape_telnet_iac(&[1, 255, 255, 2], &mut area), Some(6));
        assert!(rt; area == [1, 255, 255, 255, 255, 2]);
        assert_eq!(rt; escape_telnet_iac(&[255, 255, 255, 255], &mut area), None);
        assert!(rt; area == [1, 255, 255, 255, 255, 2]);
    }

    #[test]
    fn doubled_255s_are_made_single(rt: HostRuntime) {
        let mut area = [7; 4];
        assert_eq!(rt;
            unescape_telnet_iac(&[255, 255, 255, 1, 255], &mut area),
            Some(4)
        );
        assert!(rt; area == [255, 255, 1, 255]);
        assert_eq!(rt; unescape_telnet_iac(&[1, 2, 3, 4, 5], &mut area), None);
        assert!(rt; area == [255, 255, 1, 255]);
    }

    fn type_is(rt: &impl Abort, kind: FileType, text: &[u8]) {
        assert!(rt; kind.text().as_str().as_bytes() == text);
    }

    #[test]
    fn types_have_their_texts(rt: HostRuntime) {
        type_is(&rt, FileType::Ascii(FormatControl::Default), b"A N");
        type_is(&rt, FileType::Ascii(FormatControl::Telnet), b"A T");
        type_is(&rt, FileType::Ebcdic(FormatControl::Asa), b"E C");
        type_is(&rt, FileType::Binary, b"I");
        type_is(&rt, FileType::Local(8), b"L 8");
        type_is(&rt, FileType::Local(36), b"L 36");
        type_is(&rt, FileType::Local(205), b"L 205");
    }

    #[test]
    fn refusals_have_numbers_and_layers(rt: HostRuntime) {
        assert_eq!(rt; Refusal::AreaTooShort.number(), 1);
        assert_eq!(rt; Refusal::NoCaller.number(), 24);
        assert_eq!(rt; Refusal::NoTransfer.layer(), Layer::Session);
        assert_eq!(rt; Refusal::LineNotOne.layer(), Layer::Line);
        assert_eq!(rt; Refusal::LinkBroken.layer(), Layer::Link);
        assert_eq!(rt; Refusal::TableFull.layer(), Layer::Reply);
        assert_eq!(rt; Refusal::NotListening.layer(), Layer::Carrier);
    }

    // The numbers that a session's calls answer so far.
    #[test]
    fn faults_have_the_numbers_of_their_refusals(rt: HostRuntime) {
        let numbers = [
            (1, Refusal::AreaTooShort),
            (2, Refusal::OutOfStep),
            (3, Refusal::GreetingDue),
            (6, Refusal::ArgumentTooLong),
            (7, Refusal::ArgumentNotUtf8),
            (8, Refusal::ArgumentNotOneLine),
            (9, Refusal::NoEncoding),
            (10, Refusal::LineNotEnded),
            (11, Refusal::LineNotOne),
            (12, Refusal::LinkFull),
            (13, Refusal::LinkClosed),
            (14, Refusal::LinkBroken),
            (15, Refusal::ReplyTooLong),
            (16, Refusal::ReplyIllBegun),
            (17, Refusal::UnexpectedStatus),
        ];
        for (number, refusal) in numbers {
            let fault = Fault {
                refusal,
                verb: None,
                code: 0,
                length: 0,
            };
            assert_eq!(rt; fault.number(), number);
        }
    }

    #[test]
    fn refusals_have_words(rt: HostRuntime) -> Result<(), Fail> {
        let text = format!(in rt.alloc(); "{}: {}", Verb::Cwd, Refusal::ArgumentNotUtf8)?;
        assert!(rt; text.as_str() == "CWD: the argument is not well-formed UTF-8");
        Ok(())
    }

    #[test]
    fn layers_have_words(rt: HostRuntime) -> Result<(), Fail> {
        let text = format!(in rt.alloc(); "{}, {}", Layer::Session, Layer::Carrier)?;
        assert!(rt; text.as_str() == "session, carrier");
        Ok(())
    }

    #[test]
    fn types_print_their_texts(rt: HostRuntime) -> Result<(), Fail> {
        let ascii = FileType::Ascii(FormatControl::Telnet);
        let text = format!(in rt.alloc(); "{ascii}, {}, {}", FileType::Image, FileType::Local(36))?;
        assert!(rt; text.as_str() == "A T, I, L 36");
        Ok(())
    }
}
