// The areas that calls are lent, and what is known of one call.
use script::Script;
use session::Areas;
use std::alloc::{AllocError, Global};
use tally::Answer;

// What the areas hold.
pub type Held = Areas<Vec<u8>>;

// As long as the longest that a call is lent, and every byte the fill.
pub fn filled(heap: Global, script: &Script) -> Result<Held, AllocError> {
    let calls = &script.calls;
    let reply = calls.iter().map(|step| step.lent.reply).max().unwrap_or(0);
    let wide = calls.iter().map(|step| step.lent.wide).max().unwrap_or(0);
    let narrow = calls.iter().map(|step| step.lent.narrow).max().unwrap_or(0);
    Ok(Areas {
        reply: vec![in heap; script.fill; reply]?,
        wide: vec![in heap; script.fill; wide]?,
        narrow: vec![in heap; script.fill; narrow]?,
    })
}

pub fn lend(held: &mut Held) -> Areas<&mut [u8]> {
    Areas {
        reply: held.reply.as_mut_slice(),
        wide: held.wide.as_mut_slice(),
        narrow: held.narrow.as_mut_slice(),
    }
}

// What the areas held before a call, how many bytes were sent and taken by then, and what the call answered.
#[derive(Drop)]
pub struct Moment {
    pub before: Held,
    pub sent: usize,
    pub taken: usize,
    pub answer: Answer,
}
