// One network at one minute: what the calendar writes is compared with what another writer makes of it, then annotated and judged, and
// the answer compared with the true one of the open arcs alone.
use super::minutes::{gates, left};
use super::tables;
use judging::judge;
use points::Point;
use reference::arcs::{Arc, arcs};
use reference::instances::{Net, Question};
use reference::random::below;
use reference::{network_files, truth};
use std::alloc::{AllocError, Global};
use test_calls::writers::{LONGEST_ANNOTATION, Output, annotate, filled, schedule};
use testing::bytes::get;

// How many arcs are open and closed, the true answer, and how many things are wrong.
#[derive(Clone, Copy)]
pub struct Outcome {
    pub open: usize,
    pub closed: usize,
    pub answer: Option<u64>,
    pub wrong: usize,
}

// How many bytes the calendar may write: more than any network has.
const ROOM: usize = 32768;

// Is what the calendar wrote the file of these arcs, with all else as it was filled?
fn is_file(alloc: Global, output: &Output, net: Net, arcs: &[Arc]) -> Result<bool, AllocError> {
    let wanted = network_files::file(alloc, net, arcs)?;
    Ok(output.reply.is_ok() && output.rest_kept && output.file.as_slice() == wanted.as_slice())
}

// A point that looks random.
fn any_point(seed: usize, place: usize) -> u32 {
    (below(2147483647, seed, place, 5) & 0xffffffff) as u32
}

// The key of the first arc of a network; a number below p also where there is no arc.
fn key_of_first(net: &[u8]) -> u32 {
    if net.len() < 15 {
        return 1431644842;
    }
    Arc::from(get::<4>(net, 11)).key()
}

// Has the helper annotate a network in a buffer that begins with it, and judges at two points that look random, and at the key of an arc,
// where the products are 0, with one of them and twice: how many answers are not the true one.
fn wrong_answers(
    alloc: Global,
    seed: usize,
    answer: Option<u64>,
    net: &[u8],
) -> Result<usize, AllocError> {
    let mut before = filled(alloc, LONGEST_ANNOTATION)?;
    for (byte, of_net) in before.as_mut_slice().iter_mut().zip(net) {
        *byte = *of_net;
    }
    let ann = annotate(alloc, net, before.as_slice())?.file;
    let key = key_of_first(net);
    let any = any_point(seed, 0);
    let pairs = [(any, any_point(seed, 1)), (key, any), (key, key)];
    Ok(
        pairs
            .iter()
            .filter(|(first, second)| {
                let point = Point {
                    first: *first,
                    second: *second,
                };
                judge(net, ann.as_slice(), point) != Ok(answer)
            })
            .count(),
    )
}

pub fn run(alloc: Global, net: Net) -> Result<Outcome, AllocError> {
    let all = arcs(alloc, net)?;
    let windows = tables::windows(alloc, net.count, net.seed)?;
    let minute = tables::minute(windows.len(), net.seed);
    let gates = gates(alloc, all.len(), windows.as_slice(), minute)?;
    let open = left(alloc, all.as_slice(), gates.as_slice(), false)?;
    let answer = truth(net, open.as_slice());
    let file = network_files::file(alloc, net, all.as_slice())?;
    let before = filled(alloc, ROOM)?;
    let output = schedule(
        alloc,
        file.as_slice(),
        windows.as_slice(),
        minute,
        before.as_slice(),
    )?;
    let stays = net.question == Question::Discharge;
    let rest = left(alloc, all.as_slice(), gates.as_slice(), stays)?;
    let right = is_file(alloc, &output, net, rest.as_slice())?;
    let wrong = wrong_answers(alloc, net.seed, answer, output.file.as_slice())?;
    Ok(Outcome {
        open: open.len(),
        closed: all.len().saturating_sub(open.len()),
        answer,
        wrong: wrong.saturating_add(usize::from(!right)),
    })
}
