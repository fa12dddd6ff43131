// The arcs of a network, each found from the network's description and the arc's place.
ghost use Rattle.std.specs.Prelude.{◌<◌};

use super::instances::{Net, Question, Shape, Weights, self_loop_period};
use super::random::{below, low_byte, quotient};
use super::{pairs, shapes};
use std::alloc::{AllocError, Global};

// The numbers of two vertices.
#[derive(Clone, Copy, PartialEq, Eq)]
pub struct Ends {
    pub tail: u8,
    pub head: u8,
}

#[derive(Clone, Copy, PartialEq, Eq)]
pub struct Arc {
    pub ends: Ends,
    pub weight: u16,
}

// From a to b.
pub fn joining(a: usize, b: usize) -> Ends {
    Ends {
        tail: low_byte(a),
        head: low_byte(b),
    }
}

impl Arc {
    // Is it a basin?
    pub fn is_self_loop(self) -> bool {
        self.ends.tail == self.ends.head
    }

    pub fn tail(self) -> usize
        ensures { result < 256 }
    {
        usize::from(self.ends.tail)
    }

    pub fn head(self) -> usize
        ensures { result < 256 }
    {
        usize::from(self.ends.head)
    }

    // What the panel multiplies for it: the point at which its factor is 0.
    pub fn key(self) -> u32 {
        u32::from(self.ends.tail) * 8388608
            + u32::from(self.ends.head) * 32768
            + u32::from(self.weight)
    }
}

// As a file has it.
impl From<Arc> for [u8; 4] {
    fn from(arc: Arc) -> [u8; 4] {
        let [high, low] = arc.weight.to_be_bytes();
        [arc.ends.tail, arc.ends.head, high, low]
    }
}

impl From<[u8; 4]> for Arc {
    fn from(bytes: [u8; 4]) -> Arc {
        let [tail, head, high, low] = bytes;
        Arc {
            ends: Ends { tail, head },
            weight: u16::from_be_bytes([high, low]),
        }
    }
}

fn weight(kind: Weights, seed: usize, i: usize) -> usize {
    match kind {
        Weights::FewDifferent => below(3, seed, i, 3),
        Weights::Any => below(32768, seed, i, 3),
        Weights::Highest => 32765 + below(3, seed, i, 3) % 3,
        Weights::Zero => 0,
        Weights::Small => below(10, seed, i, 3),
        Weights::Extremes => 32767 * (below(2, seed, i, 3) % 2),
        Weights::Greatest => 32767,
    }
}

// The place of the arc that arc i is equal to: in one shape of pairings three in a row are equal, in one of the others four.
fn place(shape: Shape, i: usize) -> usize {
    match shape {
        Shape::Pairing(pairs::Shape::ThreeEqual) => i / 3,
        Shape::Other(shapes::Shape::FourEqual) => i / 4,
        _ => i,
    }
}

// How many basins come before arc i: they stand at equal distances, the first anywhere.
fn self_loops_before(question: Question, seed: usize, i: usize) -> usize {
    let period = self_loop_period(question, seed);
    quotient(i.saturating_add(below(period, seed, 0, 0)), period)
}

// The weight of arc i; to a contested site of a pairing a sixteenth of it.
fn weight_of(net: Net, i: usize) -> usize {
    let w = weight(net.weights, net.seed, i);
    match net.shape {
        Shape::Pairing(shape) if pairs::is_contested(shape, i) => w / 16,
        _ => w,
    }
}

// The ends of arc i of a network but a pairing. Basins stand between the arcs of the network's shape, so that a chain stays whole.
fn spread_ends(net: Net, shape: shapes::Shape, i: usize) -> Ends {
    let before = self_loops_before(net.question, net.seed, i);
    let n = usize::from(net.n);
    if before < self_loops_before(net.question, net.seed, i.saturating_add(1)) {
        return shapes::self_loop(n, net.seed, i, usize::from(net.s), usize::from(net.t));
    }
    shapes::ends(
        shape,
        n,
        net.seed,
        i.saturating_sub(before),
        usize::from(net.s),
        usize::from(net.t),
    )
}

fn arc_ends(net: Net, i: usize) -> Ends {
    match net.shape {
        Shape::Pairing(shape) => {
            let pumps = usize::from(net.s);
            let sites = usize::from(net.n).saturating_sub(pumps);
            pairs::ends(shape, pumps, sites, net.seed, i)
        }
        Shape::Other(shape) => spread_ends(net, shape, i),
    }
}

fn arc_at(net: Net, i: usize) -> Arc {
    let k = place(net.shape, i);
    Arc {
        ends: arc_ends(net, k),
        weight: (weight_of(net, k) & 0xffff) as u16,
    }
}

// All arcs of a network.
pub fn arcs(alloc: Global, net: Net) -> Result<Vec<Arc>, AllocError> {
    (0..net.count).map(|i| arc_at(net, i)).collect(alloc)
}
