// Reading a link one byte at a time.
ghost use Rattle.std.specs.Prelude.{◌≡◌};
ghost use Rattle.link.specs.Wire.{past, next_byte};

use crate::link::Link;
use crate::wire::BrokenLink;

// The next byte, or none where the link is closed.
pub fn read_byte<L: Link>(link: &mut L) -> Result<Option<u8>, BrokenLink>
    ensures value { result ≡ next_byte (L.means link.old) }
    ensures after { L.means link.new ≡ past 1 (L.means link.old) }
{
    let mut one = [0u8; 1];
    let count = link.pull(&mut one)?;
    Ok((count > 0).then_some(one[0]))
}
