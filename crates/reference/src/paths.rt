// A best path from one vertex to each, for the two questions that send things along paths: what is best is said by a value of each path,
// the larger the better, which no arc makes larger. The best vertex that paths were not continued from is the next to continue from.

#[derive(Drop)]
pub struct Paths<V> {
    // The value of the best path known to each vertex.
    value: [Option<V>; 256],
    // The vertex before it on that path.
    before: [Option<u8>; 256],
    // Were paths continued from it?
    taken: [bool; 256],
}

impl<V: Copy + Ord> Paths<V> {
    // The one path known has no arc.
    pub fn begin(from: u8, value: V) -> Paths<V> {
        let mut values = [None; 256];
        values[usize::from(from)] = Some(value);
        Paths {
            value: values,
            before: [None; 256],
            taken: [false; 256],
        }
    }

    // There is a path to v of a value, by u.
    pub fn reach(&mut self, u: u8, v: u8, value: V) {
        if self.value[usize::from(v)] < Some(value) {
            self.value[usize::from(v)] = Some(value);
            self.before[usize::from(v)] = Some(u);
        }
    }

    // The best vertex to continue from, which it says is done from now on, and the value of its path.
    pub fn next(&mut self) -> Option<(u8, V)> {
        let mut best: Option<(u8, V)> = None;
        for v in 0..=255u8 {
            best = self.better(best, v);
        }
        let (v, _) = best?;
        self.taken[usize::from(v)] = true;
        best
    }

    fn better(&self, best: Option<(u8, V)>, v: u8) -> Option<(u8, V)> {
        let Some(value) = self.value[usize::from(v)] else {
            return best;
        };
        if self.taken[usize::from(v)] || Some(value) <= best.map(|(_, x)| x) {
            return best;
        }
        Some((v, value))
    }

    // The value of the path to a vertex that paths were continued from.
    pub fn continued(&self, v: u8) -> Option<V> {
        if self.taken[usize::from(v)] {
            return self.value[usize::from(v)];
        }
        None
    }

    // The vertex before another on its path.
    pub fn before(&self, v: u8) -> Option<u8> {
        self.before[usize::from(v)]
    }
}
