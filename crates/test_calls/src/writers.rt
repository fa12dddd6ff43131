// The helper and the calendar, each with a buffer that is filled before.
use std::alloc::{AllocError, Global};
use testing::answers::Written;

// How long an annotation can be.
pub const LONGEST_ANNOTATION: usize = 25604;

// A buffer of so many bytes before something is written into it.
pub fn filled(alloc: Global, room: usize) -> Result<Vec<u8>, AllocError> {
    vec![in alloc; 170u8; room]
}

// What a writer replied, what it wrote, and whether the rest of its buffer is as it was: all of it where it refuses.
#[derive(Drop)]
pub struct Output {
    pub reply: Written,
    pub file: Vec<u8>,
    pub rest_kept: bool,
}

// Calls a writer with a buffer in which these bytes stand.
fn called<W: FnOnce(&mut [u8]) -> Written>(
    alloc: Global,
    before: &[u8],
    writer: W,
) -> Result<Output, AllocError>
    requires { W.IsAlwaysCallable writer }
{
    let mut file = before.to_vec(alloc)?;
    let reply = writer(file.as_mut_slice());
    let length = reply.map_or(0, |k| k as usize);
    let rest_kept = file
        .iter()
        .zip(before)
        .skip(length)
        .all(|(b, was)| *b == *was);
    file.truncate(length);
    Ok(Output {
        reply,
        file,
        rest_kept,
    })
}

// Has the helper annotate a network, in a buffer in which these bytes stand.
pub fn annotate(alloc: Global, net: &[u8], before: &[u8]) -> Result<Output, AllocError> {
    called(alloc, before, |buffer| helper::annotate(net, buffer))
}

// Has the calendar write the network of a minute, by windows of a position, a first minute and an end.
pub fn schedule(
    alloc: Global,
    net: &[u8],
    windows: &[[u32; 3]],
    minute: u32,
    before: &[u8],
) -> Result<Output, AllocError> {
    called(
        alloc,
        before,
        |buffer| calendar::schedule(net, windows, minute, buffer),
    )
}
