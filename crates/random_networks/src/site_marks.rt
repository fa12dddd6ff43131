// Sites of a pairing marked in an annotation that says none: right as long as more sites than pumps are unmarked.
use super::annotations::{node_number, put_node_number};
use super::places::Case;
use super::twists::Round;
use std::ops::Range;

fn is_marked(ann: &[u8], v: u8) -> bool {
    node_number(ann, usize::from(v)) == 1
}

// How many of some vertices have no mark.
fn unmarked(ann: &[u8], vertices: Range<u8>) -> usize {
    vertices.filter(|v| !is_marked(ann, *v)).count()
}

// Marks the first unmarked of some vertices, so many of them.
fn put_marks(ann: &mut [u8], vertices: Range<u8>, count: usize) {
    let mut left = count;
    for v in vertices {
        if 0 < left && !is_marked(ann, v) {
            put_node_number(ann, usize::from(v), 1);
            left -= 1;
        }
    }
}

// How many sites are marked, by the round: so many that as many sites as pumps are unmarked, one less, or all.
fn marks(round: Round, more: usize, all: usize) -> usize {
    match round {
        Round::First => more,
        Round::Second => more.saturating_sub(1),
        Round::Third => all,
    }
}

// Marks sites. Is the annotation still right then?
pub fn give(round: Round, c: Case, ann: &mut [u8]) -> bool {
    let (n, pumps) = (c.net.n, c.net.s);
    let sites = unmarked(ann, pumps..n);
    let more = sites.saturating_sub(unmarked(ann, 0..pumps));
    put_marks(ann, pumps..n, marks(round, more, sites));
    round == Round::Second
}
