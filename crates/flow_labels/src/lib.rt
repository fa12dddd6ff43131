// Labels of the vertices: a breadth-first search back from a root over the residual arcs, the lowest label next to a vertex, and how many have a label.
// No contract says what a label is: it is below 256, so it is an index by its type.
#![tactic(auto)]

ghost use Rattle.std.specs.Prelude.{◌≡◌, ◌<◌, ◌≤◌, length};

use flow_arcs::Network;
use flow_arcs::direction::Direction;

// The label of a vertex from which the root is not reached. It is above every other, so that the lowest of labels is their `min`, and a label takes one byte.
pub const NO_LABEL: u8 = 255;

// The labels, the vertices in the order in which they are reached, and for each label how many vertices have it.
#[derive(Drop)]
pub struct Labels {
    pub label: [u8; 256],
    order: [u8; 256],
    found: usize,
    count: [u8; 256],
    ghost in_order: { found ≤ 256 },
}

impl Labels {
    // No vertex has a label.
    pub fn new() -> Self {
        Labels {
            label: [NO_LABEL; 256],
            order: [0; 256],
            found: 0,
            count: [0; 256],
        }
    }

    // ---- the search

    // Labels v and puts it at the end of the order, unless it has a label.
    fn reach(&mut self, v: usize, l: u8)
        requires { v < 256 }
    {
        if self.label[v] == NO_LABEL && self.found < 256 {
            self.label[v] = l;
            self.order[self.found] = v as u8;
            self.found += 1;
        }
    }

    // The start of the residual arc e is reached, where there is such an arc.
    fn reach_start(&mut self, direction: Direction, e: usize, l: u8, net: Network<'_>, x: &[u16])
        requires { (e < length net.arcs.now) × (length x.now ≡ length net.arcs.now) }
    {
        let arc = net.arcs[e];
        if direction.room(arc, x[e]) != 0 {
            self.reach(direction.start_of(arc), l);
        }
    }

    // The starts of the residual arcs to v, in this direction, are reached with the label l.
    fn reach_starts(&mut self, direction: Direction, v: usize, l: u8, net: Network<'_>, x: &[u16])
        requires { (v < 256) × (length x.now ≡ length net.arcs.now) }
    {
        let mut e = net.first_from(direction.reverse(), v);
        while e < net.arcs.len() {
            self.reach_start(direction, e, l, net, x);
            e = net.next_from(direction.reverse(), e);
        }
    }

    // Labels every vertex by how many residual arcs lead from it to the root, and orders those that are reached: how many.
    pub fn label_from(&mut self, root: usize, net: Network<'_>, x: &[u16]) -> usize
        requires { (root < 256) × (length x.now ≡ length net.arcs.now) }
        ensures { result ≤ 256 }
    {
        self.label.fill(NO_LABEL);
        self.found = 0;
        self.reach(root, 0);
        // no `for`: the vertices in the order grow while they are looked at
        let mut done = 0;
        while done < self.found {
            let v = usize::from(self.order[done]);
            let l = self.label[v].saturating_add(1).min(254);
            self.reach_starts(Direction::Forward, v, l, net, x);
            self.reach_starts(Direction::Back, v, l, net, x);
            done += 1;
        }
        self.found
    }

    // ---- the lowest label next to a vertex

    // The lower of low and the label of the end of the residual arc e, where there is such an arc.
    fn lower_end(&self, direction: Direction, e: usize, low: u8, net: Network<'_>, x: &[u16]) -> u8
        requires { (e < length net.arcs.now) × (length x.now ≡ length net.arcs.now) }
    {
        let arc = net.arcs[e];
        if direction.room(arc, x[e]) == 0 {
            return low;
        }
        low.min(self.label[direction.end_of(arc)])
    }

    // The lowest label at the ends of the residual arcs from v, in this direction.
    fn lowest_end(&self, direction: Direction, v: usize, net: Network<'_>, x: &[u16]) -> u8
        requires { (v < 256) × (length x.now ≡ length net.arcs.now) }
    {
        let mut low = NO_LABEL;
        let mut e = net.first_from(direction, v);
        while e < net.arcs.len() {
            low = self.lower_end(direction, e, low, net, x);
            e = net.next_from(direction, e);
        }
        low
    }

    // One more than the lowest label that a residual arc leads to from v, if that is below n, the number of vertices.
    pub fn raised(&self, v: usize, n: usize, net: Network<'_>, x: &[u16]) -> Option<u8>
        requires { (v < 256) × (length x.now ≡ length net.arcs.now) }
    {
        let forward = self.lowest_end(Direction::Forward, v, net, x);
        let back = self.lowest_end(Direction::Back, v, net, x);
        forward
            .min(back)
            .checked_add(1)
            .filter(|l| *l != NO_LABEL && usize::from(*l) < n)
    }

    // ---- how many have a label

    // One more vertex has the label l.
    pub fn count_one(&mut self, l: u8) {
        let i = usize::from(l);
        self.count[i] = self.count[i].saturating_add(1);
    }

    // One vertex fewer has the label l: was it the last?
    pub fn was_last(&mut self, l: u8) -> bool {
        let i = usize::from(l);
        self.count[i] = self.count[i].saturating_sub(1);
        self.count[i] == 0
    }

    // Counts the labels of the n vertices.
    pub fn count_all(&mut self, n: usize)
        requires { n ≤ 256 }
    {
        self.count.fill(0);
        for v in 0..n {
            self.count_one(self.label[v]);
        }
    }

    // Takes the label of v away where it is from or more.
    fn lift_one(&mut self, v: usize, from: u8)
        requires { v < 256 }
    {
        let l = self.label[v];
        if from <= l {
            self.count[usize::from(l)] = 0;
            self.label[v] = NO_LABEL;
        }
    }

    // Takes away every label that is from or more: no vertex is left one below, so none of these reaches the root.
    pub fn lift(&mut self, from: u8, n: usize)
        requires { n ≤ 256 }
    {
        for v in 0..n {
            self.lift_one(v, from);
        }
    }
}
