// Scripts read as a whole, and each thing that can be wrong with one.
#![tactic(auto)]

#[cfg(test)]
mod tests {
    use carrier::{Entry, IpAddr, PeerRule, SocketAddr};
    use command::{FileType, FormatControl};
    use link::Ending;
    use script::{OwnedAsk, Problem, Script, parse};
    use session::Mode;
    use std::alloc::Global;
    use std::test::Fail;

    fn read(heap: Global, text: &str) -> Result<Script, Fail> {
        Ok(parse(heap, text.as_bytes())?)
    }

    #[test]
    fn settings_are_read(rt: HostRuntime) -> Result<(), Fail> {
        let text =
            "mode active\nnat on\r\n\n# a comment\n \tpeer 2001:db8:0:0:0:0:0:A1\ncallers any\nlimit 100\nencoding utf-8\nroom 1024\nending broken\nfill 170";
        let script = read(rt.alloc(), text)?;
        let settings = script.settings;
        let peer = settings.peer;
        assert!(rt; matches!(settings.mode, Mode::Active));
        assert!(rt; settings.nat_workaround);
        assert!(rt; peer == IpAddr::V6([8193, 3512, 0, 0, 0, 0, 0, 161]));
        assert!(rt; matches!(settings.peer_rule, PeerRule::Any));
        assert!(rt; settings.limit == 100);
        assert!(rt; script.room == 1024);
        assert!(rt; matches!(script.ending, Ending::Broken));
        assert!(rt; script.fill == 170);
        Ok(())
    }

    #[test]
    fn settings_have_defaults(rt: HostRuntime) -> Result<(), Fail> {
        let script = read(rt.alloc(), "")?;
        let settings = script.settings;
        let peer = settings.peer;
        assert!(rt; matches!(settings.mode, Mode::Passive));
        assert!(rt; !settings.nat_workaround);
        assert!(rt; peer == IpAddr::V4([192, 0, 2, 1]));
        assert!(rt; matches!(settings.peer_rule, PeerRule::ControlPeer));
        assert!(rt; settings.limit == 4096);
        assert!(rt; script.room == 65536);
        assert!(rt; matches!(script.ending, Ending::Closed));
        assert!(rt; script.fill == 0);
        Ok(())
    }

    #[test]
    fn bytes_are_read(rt: HostRuntime) -> Result<(), Fail> {
        let text = "server \"220 h\\xC3\\xa9 é\\r\\n\" \nserver \"\\0\\t\\\\\\\"\"";
        let script = read(rt.alloc(), text)?;
        assert!(rt; script.server.as_slice() == b"220 h\xc3\xa9 \xc3\xa9\r\n\0\t\\\"".as_slice());
        Ok(())
    }

    #[test]
    fn answers_are_read(rt: HostRuntime) -> Result<(), Fail> {
        let text =
            "host listens 10.0.0.1 2000\nhost dials\nhost caller 10.0.0.255 65535\nhost none-yet\nhost refuses";
        let script = read(rt.alloc(), text)?;
        match script.host.as_slice() {
            [
                Entry::Listens(at),
                Entry::Dials,
                Entry::Calls(from),
                Entry::NoneYet,
                Entry::Refuses,
            ] => {
                assert!(rt;
                    matches!(
                        at,
                        SocketAddr {
                            ip: IpAddr::V4([10, 0, 0, 1]),
                            port: 2000
                        }
                    )
                );
                assert!(rt;
                    matches!(
                        from,
                        SocketAddr {
                            ip: IpAddr::V4([10, 0, 0, 255]),
                            port: 65535
                        }
                    )
                );
                Ok(())
            }
            _ => Err(Fail::new("other answers")),
        }
    }

    #[test]
    fn calls_are_read(rt: HostRuntime) -> Result<(), Fail> {
        let text =
            "greet\nlogin \"ana\" \"x y\" with 0 1 1048576\n\nrename \"a\" \"b\"\nresume 18446744073709551615";
        let script = read(rt.alloc(), text)?;
        match script.calls.as_slice() {
            [greet, login, rename, resume] => {
                assert!(rt; matches!(greet.ask, OwnedAsk::Greet) && greet.line == 1);
                assert!(rt;
                    greet.lent.reply == 4096 && greet.lent.wide == 8704 && greet.lent.narrow == 4352
                );
                assert!(rt;
                    login.lent.reply == 0 && login.lent.wide == 1 && login.lent.narrow == 1_048_576
                );
                assert!(rt; rename.line == 4);
                assert!(rt; matches!(resume.ask, OwnedAsk::Resume(u64::MAX)));
                Ok(())
            }
            _ => Err(Fail::new("other calls")),
        }
    }

    #[test]
    fn types_are_read(rt: HostRuntime) -> Result<(), Fail> {
        let text =
            "type ascii\ntype ascii with 1 2 3\ntype ebcdic asa\ntype image\ntype binary\ntype local 255\nlimit 1";
        let script = read(rt.alloc(), text)?;
        match script.calls.as_slice() {
            [plain, short, carriage, image, binary, local] => {
                assert!(rt;
                    matches!(
                        plain.ask,
                        OwnedAsk::TransferType(FileType::Ascii(FormatControl::Default))
                    )
                );
                assert!(rt; plain.lent.reply == 512 && short.lent.reply == 1);
                assert!(rt;
                    matches!(
                        carriage.ask,
                        OwnedAsk::TransferType(FileType::Ebcdic(FormatControl::Asa))
                    )
                );
                assert!(rt; matches!(image.ask, OwnedAsk::TransferType(FileType::Image)));
                assert!(rt; matches!(binary.ask, OwnedAsk::TransferType(FileType::Binary)));
                assert!(rt; matches!(local.ask, OwnedAsk::TransferType(FileType::Local(255))));
                Ok(())
            }
            _ => Err(Fail::new("other calls")),
        }
    }

    #[test]
    fn errors_name_their_line(rt: HostRuntime) -> Result<(), Fail> {
        let heap = rt.alloc();
        let wrong = [
            ("greet\nhello", 2, Problem::UnknownWord),
            ("mode fast", 1, Problem::UnknownChoice),
            ("host sings", 1, Problem::UnknownChoice),
            ("type text", 1, Problem::UnknownChoice),
            ("login \"a\"", 1, Problem::MissingWord),
            ("# one\n\nnoop now", 3, Problem::ExtraWord),
            ("noop with 1 2", 1, Problem::MissingWord),
            ("mode", 1, Problem::MissingWord),
            ("peer", 1, Problem::MissingWord),
            ("host", 1, Problem::MissingWord),
            ("nat on\nnat on", 2, Problem::SaidTwice),
            ("limit +1", 1, Problem::NotANumber),
            (
                "limit 18446744073709551616",
                1,
                Problem::NumberTooLarge(u64::MAX),
            ),
            ("fill 256", 1, Problem::NumberTooLarge(255)),
            ("room 16777217", 1, Problem::NumberTooLarge(16_777_216)),
            (
                "host caller 10.0.0.1 65536",
                1,
                Problem::NumberTooLarge(65_535),
            ),
            (
                "noop with 0 1048577 0",
                1,
                Problem::NumberTooLarge(1_048_576),
            ),
            ("peer 10.0.0.256", 1, Problem::NotAnAddress),
            ("peer 10.0.0", 1, Problem::NotAnAddress),
            ("peer 1:2:3:4:5:6:7:12345", 1, Problem::NotAnAddress),
            ("peer 1:2:3:4:5:6:7:8:9", 1, Problem::NotAnAddress),
            ("cwd glossaries", 1, Problem::NotAText),
            ("cwd \"glossaries", 1, Problem::UnclosedQuote),
            ("cwd \"\\q\"", 1, Problem::BadEscape),
            ("cwd \"\\x4g\"", 1, Problem::BadEscape),
            ("login \"a\"\"b\"", 1, Problem::NoBlankAfterQuote),
        ];
        for (text, line, problem) in wrong {
            match parse(heap, text.as_bytes()) {
                Ok(_) => return Err(Fail::new(text)),
                Err(error) => assert!(rt;
                    error.line == line && error.problem == problem,
                    "{}",
                    text
                ),
            }
        }
        Ok(())
    }
}
