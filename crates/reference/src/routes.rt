// Least lengths by Bellman and Ford: every arc as often as there are vertices.
use super::arcs::Arc;

// The least length to each vertex that is known so far.
pub type Lengths = [Option<u64>; 256];

// Tries every arc.
fn pass(arcs: &[Arc], lengths: &mut Lengths) {
    for arc in arcs {
        if let Some(length) = lengths[arc.tail()] {
            let longer = length.saturating_add(u64::from(arc.weight));
            if lengths[arc.head()].is_none_or(|known| longer < known) {
                lengths[arc.head()] = Some(longer);
            }
        }
    }
}

// The least length of a chain from s to each of n vertices.
pub fn lengths(arcs: &[Arc], n: u8, s: u8) -> Lengths {
    let mut lengths = [None; 256];
    lengths[usize::from(s)] = Some(0);
    for _ in 0..n {
        pass(arcs, &mut lengths);
    }
    lengths
}
