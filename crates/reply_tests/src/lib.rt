// Replies read over a link of two buffers.
#![tactic(auto)]

#[cfg(test)]
mod tests {
    use command::{Fault, Refusal, Verb};
    use link::{Buffers, Ending};
    use reply::{Reply, Rule, read_response};
    use std::alloc::Global;
    use std::test::Fail;

    // What was answered, and how many bytes were taken so far.
    fn heard(link: &mut Buffers<'_>, area: &mut [u8], rule: Rule) -> (Result<Reply, Fault>, usize) {
        let answer = read_response(link, area, rule, Some(Verb::Noop));
        (answer, link.taken())
    }

    fn reply(code: u16, length: usize) -> Result<Reply, Fault> {
        Ok(Reply { code, length })
    }

    fn fault(refusal: Refusal, code: u16, length: usize) -> Result<Reply, Fault> {
        Err(Fault {
            refusal,
            verb: Some(Verb::Noop),
            code,
            length,
        })
    }

    // A reply of one line that has `length` bytes.
    fn long_line(heap: Global, length: usize) -> Result<Vec<u8>, Fail> {
        let mut line = Vec::new(heap);
        line.extend_from_slice(b"220 ")?;
        for _ in 6..length {
            line.push(b'a')?;
        }
        line.extend_from_slice(b"\r\n")?;
        Ok(line)
    }

    #[test]
    fn one_line_and_the_next(rt: HostRuntime) {
        let mut out = [0u8; 1];
        let mut area = [7u8; 12];
        let mut link = Buffers::new(&mut out, b"220 hi\r\n226 \n20", Ending::Closed);
        assert_eq!(rt;
            heard(&mut link, &mut area, Rule::Usual),
            (reply(220, 8), 8)
        );
        assert_eq!(rt; &area, b"220 hi\r\n\x07\x07\x07\x07");
        assert_eq!(rt;
            heard(&mut link, &mut area, Rule::Usual),
            (reply(226, 5), 13)
        );
        assert_eq!(rt; &area, b"226 \ni\r\n\x07\x07\x07\x07");
        assert_eq!(rt;
            heard(&mut link, &mut area, Rule::Usual),
            (fault(Refusal::LinkClosed, 0, 2), 15)
        );
        assert_eq!(rt; &area, b"206 \ni\r\n\x07\x07\x07\x07");
    }

    #[test]
    fn an_opening_does_not_decide(rt: HostRuntime) {
        let mut out = [0u8; 1];
        let mut area = [7u8; 32];
        let mut link = Buffers::new(
            &mut out,
            b"250-a\r\n b\r\n226 c\r\n220-a\r\n",
            Ending::Closed,
        );
        assert_eq!(rt;
            heard(&mut link, &mut area, Rule::Usual),
            (reply(226, 18), 18)
        );
        assert_eq!(rt;
            heard(&mut link, &mut area, Rule::Usual),
            (fault(Refusal::LinkClosed, 0, 7), 25)
        );
    }

    #[test]
    fn ill_begun(rt: HostRuntime) {
        let mut out = [0u8; 1];
        let mut area = [7u8; 5];
        // each as long as the area or shorter, and no byte behind it is taken
        let mut link = Buffers::new(&mut out, b"220\r\n220\n+12 \n220_\n", Ending::Closed);
        assert_eq!(rt;
            heard(&mut link, &mut area, Rule::Usual),
            (fault(Refusal::ReplyIllBegun, 0, 5), 5)
        );
        assert_eq!(rt;
            heard(&mut link, &mut area, Rule::Usual),
            (fault(Refusal::ReplyIllBegun, 0, 4), 9)
        );
        assert_eq!(rt;
            heard(&mut link, &mut area, Rule::Feat),
            (fault(Refusal::ReplyIllBegun, 0, 5), 14)
        );
        assert_eq!(rt;
            heard(&mut link, &mut area, Rule::Usual),
            (fault(Refusal::ReplyIllBegun, 0, 5), 19)
        );
        assert_eq!(rt; &area, b"220_\n");
    }

    #[test]
    fn the_link_closes_at_the_limit(rt: HostRuntime) {
        let mut out = [0u8; 1];
        let mut area = [7u8; 3];
        let mut link = Buffers::new(&mut out, b"220", Ending::Closed);
        assert_eq!(rt;
            heard(&mut link, &mut area, Rule::Usual),
            (fault(Refusal::LinkClosed, 0, 3), 3)
        );
    }

    #[test]
    fn the_link_breaks(rt: HostRuntime) {
        let mut out = [0u8; 1];
        let mut area = [7u8; 3];
        let mut link = Buffers::new(&mut out, b"220 22", Ending::Broken);
        assert_eq!(rt;
            heard(&mut link, &mut area, Rule::Usual),
            (fault(Refusal::ReplyTooLong, 0, 3), 4)
        );
        assert_eq!(rt;
            heard(&mut link, &mut area, Rule::Usual),
            (fault(Refusal::LinkBroken, 0, 2), 6)
        );
        assert_eq!(rt;
            heard(&mut link, &mut area, Rule::Usual),
            (fault(Refusal::LinkBroken, 0, 0), 6)
        );
        assert_eq!(rt; &area, b"220");
    }

    #[test]
    fn features(rt: HostRuntime) {
        let mut out = [0u8; 1];
        let mut area = [7u8; 32];
        let coming = b"211-a\r\n200 b\r\n211 c\r\n500-a\r\n502 b\r\n211 d\r\n211-a\r\n200 b\r\n";
        let mut link = Buffers::new(&mut out, coming, Ending::Closed);
        assert_eq!(rt;
            heard(&mut link, &mut area, Rule::Feat),
            (reply(211, 21), 21)
        );
        assert_eq!(rt;
            heard(&mut link, &mut area, Rule::Feat),
            (reply(502, 14), 35)
        );
        assert_eq!(rt;
            heard(&mut link, &mut area, Rule::Feat),
            (reply(211, 7), 42)
        );
        assert_eq!(rt;
            heard(&mut link, &mut area, Rule::Usual),
            (reply(200, 14), 56)
        );
    }

    #[test]
    fn as_long_as_the_limit(rt: HostRuntime) -> Result<(), Fail> {
        let mut out = [0u8; 1];
        let mut area = [7u8; 512];
        let line = long_line(rt.alloc(), 512)?;
        let mut link = Buffers::new(&mut out, line.as_slice(), Ending::Closed);
        assert_eq!(rt;
            heard(&mut link, &mut area, Rule::Usual),
            (reply(220, 512), 512)
        );
        let longer = long_line(rt.alloc(), 513)?;
        let mut other = [0u8; 1];
        let mut over = Buffers::new(&mut other, longer.as_slice(), Ending::Closed);
        assert_eq!(rt;
            heard(&mut over, &mut area, Rule::Usual),
            (fault(Refusal::ReplyTooLong, 0, 512), 513)
        );
        Ok(())
    }

    #[test]
    fn the_widest_limit(rt: HostRuntime) -> Result<(), Fail> {
        let mut out = [0u8; 1];
        let mut area = long_line(rt.alloc(), 262_144)?;
        let line = long_line(rt.alloc(), 262_144)?;
        let mut link = Buffers::new(&mut out, line.as_slice(), Ending::Closed);
        assert_eq!(rt;
            heard(&mut link, area.as_mut_slice(), Rule::Usual),
            (reply(220, 262_144), 262_144)
        );
        let longer = long_line(rt.alloc(), 262_145)?;
        let mut other = [0u8; 1];
        let mut over = Buffers::new(&mut other, longer.as_slice(), Ending::Closed);
        assert_eq!(rt;
            heard(&mut over, area.as_mut_slice(), Rule::Usual),
            (fault(Refusal::ReplyTooLong, 0, 262_144), 262_145)
        );
        Ok(())
    }
}
