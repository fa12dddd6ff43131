// Windows and minutes that look random.
use reference::random::below;
use std::alloc::{AllocError, Global};

// How many windows: none, as many as there may be, or any number; none where there is no arc.
fn count(m: usize, seed: usize) -> usize {
    if m == 0 {
        return 0;
    }
    match seed % 16 {
        0 => 0,
        1 => 64,
        _ => below(65, seed, 0, 6),
    }
}

// The position of window i: of any arc, or of one of the first, so that some have several windows in a large network too.
fn position(m: usize, seed: usize, i: usize) -> usize {
    if seed % 2 == 0 {
        return below(m, seed, i.saturating_add(100), 6);
    }
    below(m.min(25), seed, i.saturating_add(100), 6)
}

// The first minute of window i: of every eighth the first of the week, else any.
fn first(seed: usize, i: usize) -> usize {
    if i % 8 == 0 {
        return 0;
    }
    below(10080, seed, i.saturating_add(200), 6)
}

// Its end, after its first: of every eighth the last of all, of another eighth the next minute, else any.
fn end(first: usize, seed: usize, i: usize) -> usize {
    let next = first.saturating_add(1);
    match i % 8 {
        1 => 10080,
        2 => next,
        _ => {
            let later = below(
                10080usize.saturating_sub(first),
                seed,
                i.saturating_add(300),
                6,
            );
            next.saturating_add(later)
        }
    }
}

fn low_word(x: usize) -> u32 {
    (x & 0xffffffff) as u32
}

fn row(m: usize, seed: usize, i: usize) -> [u32; 3] {
    let from = first(seed, i);
    [
        low_word(position(m, seed, i)),
        low_word(from),
        low_word(end(from, seed, i)),
    ]
}

// Windows for a network of m arcs, each with a position, its first minute and its end.
pub fn windows(alloc: Global, m: usize, seed: usize) -> Result<Vec<[u32; 3]>, AllocError> {
    (0..count(m, seed)).map(|i| row(m, seed, i)).collect(alloc)
}

// A minute: the first of a window, its last, its end, the one before it, or any.
pub fn minute(count: usize, seed: usize) -> u32 {
    let i = below(count, seed, 1, 7);
    let from = first(seed, i);
    let to = end(from, seed, i);
    let t = match below(5, seed, 0, 7) {
        0 => from,
        1 => to.saturating_sub(1),
        2 => to.min(10079),
        3 => from.saturating_sub(1),
        _ => below(10080, seed, 2, 7),
    };
    low_word(t)
}
