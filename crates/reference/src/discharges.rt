// The greatest discharge by augmenting paths: flow goes along the path with most room, until there is none.
use super::arcs::Arc;
use super::paths::Paths;

// The room left from each vertex to each.
type Room = [[u64; 256]; 256];

// More paths than the method ever takes in a network that is tried.
const PATHS: usize = 1000000;

// What leads from each vertex to each: all capacities together.
fn add_capacities(arcs: &[Arc], room: &mut Room) {
    for arc in arcs {
        let sum = room[arc.tail()][arc.head()].saturating_add(u64::from(arc.weight));
        room[arc.tail()][arc.head()] = sum;
    }
}

// Continues from u to every vertex. The value of a path is the least room on it.
fn scan(room: &Room, paths: &mut Paths<u64>, u: u8, value: u64) {
    for (v, left) in (0..=255u8).zip(&room[usize::from(u)]) {
        if 0 < *left {
            paths.reach(u, v, value.min(*left));
        }
    }
}

// Finds the path from s to t with most room, and how much that is.
fn search(room: &Room, s: u8, t: u8) -> Option<(Paths<u64>, u64)> {
    let mut paths = Paths::begin(s, u64::MAX);
    for _ in 0..256 {
        let (u, value) = paths.next()?;
        if u == t {
            return Some((paths, value));
        }
        scan(room, &mut paths, u, value);
    }
    None
}

// Takes x off the room from u to v, and adds it the other way.
fn shift(room: &mut Room, u: u8, v: u8, x: u64) {
    let (u, v) = (usize::from(u), usize::from(v));
    room[u][v] = room[u][v].saturating_sub(x);
    room[v][u] = room[v][u].saturating_add(x);
}

// Sends x along the path that was found to t.
fn send(room: &mut Room, paths: &Paths<u64>, t: u8, x: u64) {
    let mut v = t;
    for _ in 0..256 {
        let Some(u) = paths.before(v) else {
            return;
        };
        shift(room, u, v, x);
        v = u;
    }
}

// The greatest flow from s to t.
pub fn greatest(arcs: &[Arc], s: u8, t: u8) -> u64 {
    let mut room = [[0u64; 256]; 256];
    add_capacities(arcs, &mut room);
    let mut sum: u64 = 0;
    for _ in 0..PATHS {
        let Some((paths, x)) = search(&room, s, t) else {
            return sum;
        };
        send(&mut room, &paths, t, x);
        sum = sum.saturating_add(x);
    }
    sum
}
