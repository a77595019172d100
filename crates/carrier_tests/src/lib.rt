// The carriers on small runs.
#![tactic(auto)]

#[cfg(test)]
mod tests {
    use carrier::{
        Carrier, CarrierRefusal, CarrierState, Dialler, Entry, IpAddr, Script, SocketAddr,
    };
    use std::alloc::AllocError;

    const HERE: SocketAddr = SocketAddr {
        ip: IpAddr::V4([10, 0, 0, 2]),
        port: 2000,
    };

    const THERE: SocketAddr = SocketAddr {
        ip: IpAddr::V6([0x2001, 0xdb8, 0, 0, 0, 0, 0, 1]),
        port: 20,
    };

    // A caller that is not kept may be followed by none, and then by another.
    #[test]
    fn script_in_order(rt: HostRuntime) {
        let entries = [
            Entry::Listens(HERE),
            Entry::Calls(HERE),
            Entry::NoneYet,
            Entry::Calls(THERE),
        ];
        let mut script = Script::new(&entries);
        assert!(rt; script.listen() == Ok(HERE));
        assert!(rt; script.caller() == Ok(Some(HERE)));
        assert!(rt; script.caller() == Ok(None));
        assert!(rt; script.state() == CarrierState::Listening);
        assert!(rt; script.caller() == Ok(Some(THERE)));
        assert!(rt; script.state() == CarrierState::Holding);
    }

    #[test]
    fn kept_and_closed(rt: HostRuntime) {
        let entries = [Entry::Listens(HERE), Entry::Calls(THERE)];
        let mut script = Script::new(&entries);
        assert!(rt; script.listen().is_ok());
        assert!(rt; script.caller().is_ok());
        script.keep();
        assert!(rt; script.state() == CarrierState::Standing);
        script.close();
        assert!(rt; script.state() == CarrierState::Closed);
    }

    #[test]
    fn misfit_is_used_up(rt: HostRuntime) {
        let entries = [Entry::Calls(HERE), Entry::Dials];
        let mut script = Script::new(&entries);
        assert!(rt; script.listen() == Err(CarrierRefusal));
        assert!(rt; script.state() == CarrierState::Closed);
        assert!(rt; script.dial(THERE) == Ok(()));
        assert!(rt; script.state() == CarrierState::Standing);
    }

    #[test]
    fn end_refuses(rt: HostRuntime) {
        let entries = [Entry::Dials];
        let mut script = Script::new(&entries);
        assert!(rt; script.dial(THERE) == Ok(()));
        assert!(rt; script.dial(THERE) == Err(CarrierRefusal));
        assert!(rt; script.state() == CarrierState::Closed);
    }

    // A caller asked of a closed carrier fails, and has used up its entry.
    #[test]
    fn caller_in_wrong_state(rt: HostRuntime) {
        let entries = [Entry::Calls(THERE), Entry::Listens(HERE)];
        let mut script = Script::new(&entries);
        assert!(rt; script.caller() == Err(CarrierRefusal));
        assert!(rt; script.listen() == Ok(HERE));
    }

    #[test]
    fn states_by_name(rt: HostRuntime) -> Result<(), AllocError> {
        let alloc = rt.alloc();
        assert_eq!(rt;
            format!(in alloc; "{}", CarrierState::Closed)?.as_str(),
            "closed"
        );
        assert_eq!(rt;
            format!(in alloc; "{}", CarrierState::Listening)?.as_str(),
            "listening"
        );
        assert_eq!(rt;
            format!(in alloc; "{}", CarrierState::Holding)?.as_str(),
            "holding"
        );
        assert_eq!(rt;
            format!(in alloc; "{}", CarrierState::Standing)?.as_str(),
            "standing"
        );
        Ok(())
    }

    #[test]
    fn dialler_only_dials(rt: HostRuntime) {
        let mut dialler = Dialler::new();
        assert!(rt; dialler.listen() == Err(CarrierRefusal));
        assert!(rt; dialler.dial(THERE) == Ok(()));
        dialler.keep();
        assert!(rt; dialler.state() == CarrierState::Standing);
        assert!(rt; dialler.caller() == Err(CarrierRefusal));
        assert!(rt; dialler.state() == CarrierState::Closed);
    }
}
