// Is there a loop? By the longest chains: every arc as often as there are vertices, and a chain to its tail goes on to its head. Without a
// loop no chain has as many arcs as there are vertices, so that soon no arc makes a longer one; round a loop one always does.
use super::arcs::Arc;

// How many arcs the longest chain has that is known to end in each vertex.
type Longest = [usize; 256];

// Tries every arc: does one make a longer chain?
fn pass(arcs: &[Arc], longest: &mut Longest) -> bool {
    let mut longer = false;
    for arc in arcs {
        let k = longest[arc.tail()].saturating_add(1);
        if longest[arc.head()] < k {
            longest[arc.head()] = k;
            longer = true;
        }
    }
    longer
}

// None where the arcs of n vertices hold a loop, else 0.
pub fn zero_or_none(arcs: &[Arc], n: u8) -> Option<u64> {
    let mut longest = [0usize; 256];
    for _ in 0..n {
        if !pass(arcs, &mut longest) {
            return Some(0);
        }
    }
    None
}
