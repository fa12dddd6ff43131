// A site of a pairing given another pump: an arc to it that was not chosen in an annotation is chosen, and the one that was is not.
use super::annotations::{amount, arc, arc_at, node_number, put_amount, put_node_number};
use super::places::Case;
use super::self_loops::first;
use super::twists::Round;

fn is_chosen(c: Case, ann: &[u8], e: usize) -> bool {
    amount(ann, arc_at(c.net.n, e)) == 1
}

// The first arc from e on that is not chosen.
fn next(c: Case, ann: &[u8], e: usize) -> Option<usize> {
    first(c, e, |i| !is_chosen(c, ann, i))
}

// The chosen arc of a site.
fn serving(c: Case, ann: &[u8], site: u8) -> Option<usize> {
    (0..c.net.count).find(|e| arc(ann, arc_at(c.net.n, *e)).ends.head == site
        && is_chosen(c, ann, *e))
}

// How many chosen arcs leave a pump.
fn uses(c: Case, ann: &[u8], pump: u8) -> usize {
    (0..c.net.count)
        .filter(|e| arc(ann, arc_at(c.net.n, *e)).ends.tail == pump && is_chosen(c, ann, *e))
        .count()
}

// Is there an arc that is not chosen?
pub fn applies(c: Case, ann: &[u8]) -> bool {
    next(c, ann, 0).is_some()
}

// Adds the difference of two weights to the node number of a vertex.
fn shift(ann: &mut [u8], v: u8, more: u16, less: u16) {
    let y = node_number(ann, usize::from(v));
    let shifted = y
        .wrapping_add(u32::from(more))
        .wrapping_sub(u32::from(less));
    put_node_number(ann, usize::from(v), shifted);
}

// Gives the site of the first arc from e on that is not chosen the pump of that arc. Is the annotation still right then? It is
// where that pump has no other site and costs as much. What the new arc costs more goes off the node number of its pump in the second
// round, or onto that of its site in the third, so that the two sums agree again; in the first round they stay apart.
pub fn give(round: Round, c: Case, ann: &mut [u8], e: usize) -> bool {
    let to = arc_at(c.net.n, next(c, ann, e).unwrap_or(c.net.count));
    let new = arc(ann, to);
    let from = arc_at(
        c.net.n,
        serving(c, ann, new.ends.head).unwrap_or(c.net.count),
    );
    let old = arc(ann, from);
    put_amount(ann, from, 0);
    put_amount(ann, to, 1);
    match round {
        Round::First => {}
        Round::Second => shift(ann, new.ends.tail, old.weight, new.weight),
        Round::Third => shift(ann, new.ends.head, new.weight, old.weight),
    }
    new.weight == old.weight && uses(c, ann, new.ends.tail) == 1
}
