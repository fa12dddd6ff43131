// Which arcs are closed at a minute, by one walk over the windows, and what is left of a network then.
use reference::arcs::Arc;
use std::alloc::{AllocError, Global};

// What the windows seen so far say of an arc.
#[derive(Clone, Copy, PartialEq, Eq)]
pub enum Gate {
    // It has none.
    Unseen,
    // It has windows, and none has the minute.
    Closed,
    // One has the minute.
    Open,
}

// Is the minute less far from the first than the end is? A minute before it is further than any end, since its distance wraps.
fn is_inside(window: [u32; 3], minute: u32) -> bool {
    let [_, first, end] = window;
    minute.wrapping_sub(first) < end.wrapping_sub(first)
}

// What the windows say of each of so many arcs.
pub fn gates(
    alloc: Global,
    count: usize,
    windows: &[[u32; 3]],
    minute: u32,
) -> Result<Vec<Gate>, AllocError> {
    let mut gates = vec![in alloc; Gate::Unseen; count]?;
    for window in windows {
        if let Some(gate) = gates.get_mut(window[0] as usize) {
            if is_inside(*window, minute) {
                *gate = Gate::Open;
            } else if *gate == Gate::Unseen {
                *gate = Gate::Closed;
            }
        }
    }
    Ok(gates)
}

// What is left of an arc: a closed one stays, with the weight 0, or goes.
fn left_of(arc: Arc, gate: Gate, stays: bool) -> Option<Arc> {
    if gate != Gate::Closed {
        return Some(arc);
    }
    let Arc { ends, .. } = arc;
    stays.then_some(Arc { ends, weight: 0 })
}

// What is left of all arcs.
pub fn left(
    alloc: Global,
    arcs: &[Arc],
    gates: &[Gate],
    stays: bool,
) -> Result<Vec<Arc>, AllocError> {
    arcs.iter()
        .zip(gates)
        .filter_map(|(arc, gate)| left_of(*arc, *gate, stays))
        .collect(alloc)
}
