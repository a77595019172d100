// The lines that are answers of the host, which makes the data connections.
use crate::error::Problem;
use crate::words::Words;
use carrier::{Entry, SocketAddr};

pub(crate) fn read_answer(words: &mut Words) -> Result<Entry, Problem> {
    match words.name()? {
        Some("listens") => Ok(Entry::Listens(read_socket(words)?)),
        Some("dials") => Ok(Entry::Dials),
        Some("caller") => Ok(Entry::Calls(read_socket(words)?)),
        Some("none-yet") => Ok(Entry::NoneYet),
        Some("refuses") => Ok(Entry::Refuses),
        _ => Err(Problem::UnknownChoice),
    }
}

// An address and a port.
fn read_socket(words: &mut Words) -> Result<SocketAddr, Problem> {
    Ok(SocketAddr {
        ip: words.address()?,
        port: words.number(u16::MAX.into())?,
    })
}
