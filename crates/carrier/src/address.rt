// Where a data connection goes to or comes from.

// An IPv4 address by its four octets, an IPv6 address by its eight groups, each from the first written to the last.
#[derive(Clone, Copy, PartialEq, Eq, Debug)]
pub enum IpAddr {
    V4([u8; 4]),
    V6([u16; 8]),
}

#[derive(Clone, Copy, PartialEq, Eq, Debug)]
pub struct SocketAddr {
    pub ip: IpAddr,
    pub port: u16,
}

// Whose data connections are accepted in active mode: the server's on the control connection alone, or anybody's. In
// suppaftp this is `ActivePeerCheck`.
#[derive(Clone, Copy, PartialEq, Eq, Debug)]
pub enum PeerRule {
    ControlPeer,
    Any,
}
