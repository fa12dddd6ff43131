// An annotation as a file: where things stand in it, and its arcs read and exchanged.
use reference::arcs::Arc;
use testing::bytes::{get, put};

// Where the claim and the count of the arcs stand.
pub const CLAIM: usize = 5;

pub const COUNT: usize = 6;

// How many bytes an arc and its amount have.
pub const ARC_SIZE: usize = 6;

// Where the node number of vertex v stands.
pub fn number_at(v: usize) -> usize {
    8 + 4 * (v % 256)
}

// Where arc e stands after n node numbers.
pub fn arc_at(n: u8, e: usize) -> usize {
    8 + 4 * usize::from(n) + ARC_SIZE * (e % 8192)
}

// How long an annotation of n node numbers and m arcs is.
pub fn size(n: u8, m: usize) -> usize {
    arc_at(n, m)
}

// The arc at a place.
pub fn arc(ann: &[u8], at: usize) -> Arc {
    Arc::from(get::<4>(ann, at))
}

// The amount of the arc at a place.
pub fn amount(ann: &[u8], at: usize) -> u16 {
    u16::from_be_bytes(get(ann, at.saturating_add(4)))
}

pub fn put_amount(ann: &mut [u8], at: usize, x: u16) {
    put(ann, at.saturating_add(4), x.to_be_bytes());
}

// The node number of a vertex, in 32 bits.
pub fn node_number(ann: &[u8], v: usize) -> u32 {
    u32::from_be_bytes(get(ann, number_at(v)))
}

pub fn put_node_number(ann: &mut [u8], v: usize, y: u32) {
    put(ann, number_at(v), y.to_be_bytes());
}

// Exchanges the arcs at two places.
pub fn exchange(ann: &mut [u8], i: usize, j: usize) {
    let x = get::<ARC_SIZE>(ann, i);
    let y = get::<ARC_SIZE>(ann, j);
    put(ann, i, y);
    put(ann, j, x);
}
