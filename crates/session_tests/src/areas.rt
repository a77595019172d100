// What a session is made with, what it remembers, and what it leaves in the areas that it is lent.
use crate::cases::settings;
use carrier::{Carrier, CarrierState, Dialler, IpAddr, SocketAddr};
use command::Refusal;
use encoding::Utf8Encoding;
use link::{Buffers, Ending};
use session::{Areas, Session};

// The code of the reply to greet, or why it was refused.
fn greet_in(reply: &mut [u8], wide: &mut [u8], narrow: &mut [u8]) -> Result<u16, Refusal> {
    let mut areas = Areas {
        reply,
        wide,
        narrow,
    };
    let mut out = [0; 1];
    let link = Buffers::new(&mut out, b"220 a\r\n", Ending::Closed);
    let mut session = Session::new(link, Dialler::new(), Utf8Encoding, settings(512));
    let answer = session.greet(&mut areas);
    let (_link, _carrier, _encoding) = session.into_parts();
    answer
        .map(|reply| reply.code)
        .map_err(|fault| fault.refusal)
}

#[test]
fn areas_are_wiped(rt: HostRuntime) {
    let mut reply = [7; 12];
    let mut wide = [7; 8705];
    let mut narrow = [7; 4353];
    assert_eq!(rt;
        greet_in(&mut reply, &mut wide, &mut narrow),
        Err(Refusal::AreaTooShort)
    );
    assert!(rt; reply == [7; 12] && wide == [7; 8705] && narrow == [7; 4353]);
    let mut longer = [7; 600];
    assert_eq!(rt; greet_in(&mut longer, &mut wide, &mut narrow), Ok(220));
    assert!(rt; &longer[0..7] == b"220 a\r\n".as_slice() && &longer[7..600] == [7; 593].as_slice());
    assert!(rt; wide == [0; 8705] && narrow == [0; 4353]);
}

#[test]
fn short_work_areas_are_refused(rt: HostRuntime) {
    let mut reply = [7; 512];
    let mut wide = [7; 8703];
    let mut narrow = [7; 4352];
    assert_eq!(rt;
        greet_in(&mut reply, &mut wide, &mut narrow),
        Err(Refusal::AreaTooShort)
    );
    let mut longer = [7; 8704];
    let mut shorter = [7; 4351];
    assert_eq!(rt;
        greet_in(&mut reply, &mut longer, &mut shorter),
        Err(Refusal::AreaTooShort)
    );
    assert!(rt; reply == [7; 512] && wide == [7; 8703] && narrow == [7; 4352]);
    assert!(rt; longer == [7; 8704] && shorter == [7; 4351]);
}

// The limit of a new session, and its carrier's state.
fn made_with(limit: usize) -> (usize, CarrierState) {
    let mut out = [0; 1];
    let link = Buffers::new(&mut out, b"", Ending::Closed);
    let mut carrier = Dialler::new();
    let to = SocketAddr {
        ip: IpAddr::V4([127, 0, 0, 1]),
        port: 20,
    };
    let _ = carrier.dial(to);
    let session = Session::new(link, carrier, Utf8Encoding, settings(limit));
    let limit = session.record().settings.limit;
    let state = session.carrier().state();
    let (_link, _carrier, _encoding) = session.into_parts();
    (limit, state)
}

#[test]
fn new_sessions(rt: HostRuntime) {
    assert_eq!(rt; made_with(0), (512, CarrierState::Closed));
    assert_eq!(rt; made_with(600), (600, CarrierState::Closed));
    assert_eq!(rt; made_with(262_145), (262_144, CarrierState::Closed));
}

// What a session that was told two offsets remembers after each.
fn restarts(first: u64, second: u64) -> (Option<u64>, Option<u64>) {
    let mut out = [0; 1];
    let link = Buffers::new(&mut out, b"", Ending::Closed);
    let mut session = Session::new(link, Dialler::new(), Utf8Encoding, settings(512));
    session.resume(first);
    let one = session.record().restart;
    session.resume(second);
    let two = session.record().restart;
    let (_link, _carrier, _encoding) = session.into_parts();
    (one, two)
}

#[test]
fn resumes(rt: HostRuntime) {
    assert_eq!(rt; restarts(1, 0), (Some(1), None));
    assert_eq!(rt;
        restarts(0, 18_446_744_073_709_551_615),
        (None, Some(18_446_744_073_709_551_615))
    );
}
