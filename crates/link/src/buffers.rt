// A link over two borrowed buffers: one that is written to, and one with the bytes that come.
ghost use Rattle.std.specs.Prelude.{◌≡◌, ◌-◌, ◌≤◌, length, drop, min, IfOk, OnOk, OnErr};
ghost use Rattle.link.specs.Wire.{put_of, put_answer, Pulled};

use crate::link::Link;
use crate::wire::{BrokenLink, Ending, FullLink};

// `used` bytes of `out` were sent, and `coming` is the end of `incoming` that was not pulled yet.
#[derive(Drop)]
pub struct Buffers<'a> {
    out: &'a mut [u8],
    // A place beside the buffer, since nothing may be allocated and `sent` lends the buffer's front.
    used: usize,
    incoming: &'a [u8],
    coming: &'a [u8],
    ending: Ending,
    ghost used_fits: { used ≤ length out.now },
    ghost coming_is_left: { coming.now ≡ drop (length incoming.now - length coming.now) incoming.now },
}

impl<'a> Buffers<'a> {
    ghost use Rattle.link.specs.Buffered.{wire_of, fresh};

    // Nothing is sent yet and nothing pulled.
    pub fn new(out: &'a mut [u8], incoming: &'a [u8], ending: Ending) -> Buffers<'a>
        ensures { wire_of result ≡ fresh out.old incoming.now ending }
    {
        Buffers {
            out,
            used: 0,
            incoming,
            coming: incoming,
            ending,
        }
    }

    // The bytes sent so far.
    pub fn sent(&self) -> &[u8]
        ensures { result.now ≡ (wire_of self.now).sent }
    {
        &self.out[..self.used]
    }

    // How many bytes were pulled so far.
    pub fn taken(&self) -> usize
        ensures { result ≡ length self.now.incoming.now - length (wire_of self.now).coming }
    {
        self.incoming.len() - self.coming.len()
    }
}

impl Link for Buffers<'_> {
    ghost use Rattle.link.specs.Buffered.{wire_of, written};

    ghost means = { wire_of };

    // What a link promises, and that the buffer stays as it was but for the bytes that are sent.
    fn put(&mut self, bytes: &[u8]) -> Result<(), FullLink>
        ensures value { result ≡ put_answer bytes.now (wire_of self.old) }
        ensures after { wire_of self.new ≡ put_of bytes.now (wire_of self.old) }
        ensures buffer { OnOk result (self.new.out.now ≡ written self.old.out.now self.old.used bytes.now) }
        ensures kept { OnErr result (self.new.out.now ≡ self.old.out.now) }
    {
        if bytes.len() > self.out.len() - self.used {
            return Err(FullLink);
        }
        let end = self.used + bytes.len();
        self.out[self.used..end].copy_from_slice(bytes);
        self.used = end;
        Ok(())
    }

    // What a link promises, and that as many bytes are moved as are coming and have room.
    fn pull(&mut self, area: &mut [u8]) -> Result<usize, BrokenLink>
        ensures moves { Pulled (wire_of self.old) (wire_of self.new) area.old area.new result }
        ensures most { IfOk result (λ count. count ≡ min (length self.old.coming.now) (length area.old)) }
    {
        // The two that move nothing go first: behind them a byte asked for alone is known to come, and is no call to copy.
        if area.is_empty() {
            return Ok(0);
        }
        if self.coming.is_empty() {
            return match self.ending {
                Ending::Closed => Ok(0),
                Ending::Broken => Err(BrokenLink),
            };
        }
        let count = self.coming.len().min(area.len());
        let (first, later) = self.coming.split_at(count);
        area[..count].copy_from_slice(first);
        self.coming = later;
        Ok(count)
    }
}
