// The ends of the arcs of a network but a pairing, for n vertices, a seed and the arc's place.
use super::arcs::{Ends, joining};
use super::random::{below, modulo};

#[derive(Clone, Copy, PartialEq, Eq)]
pub enum Shape {
    Any,
    Chain,
    ChainBackwards,
    FromFew,
    Down,
    Forward,
    ChainAndAny,
    Star,
    // Any, and four in a row are equal.
    FourEqual,
    BothWays,
    // The ring of all vertices.
    Ring,
    DownAndUp,
}

// The last two are for loops alone.
pub const SHAPES: [Shape; 12] = [
    Shape::Any,
    Shape::Chain,
    Shape::ChainBackwards,
    Shape::FromFew,
    Shape::Down,
    Shape::Forward,
    Shape::ChainAndAny,
    Shape::Star,
    Shape::FourEqual,
    Shape::BothWays,
    Shape::Ring,
    Shape::DownAndUp,
];

// From a to the vertex that is 1 + steps further round the ring of all vertices.
fn around(n: usize, a: usize, steps: usize) -> Ends {
    let from = modulo(a, n);
    let on = modulo(steps, n.saturating_sub(1)).saturating_add(1);
    joining(from, modulo(from.saturating_add(on), n))
}

// From b back to the vertex that `around` with so many steps led to it from.
fn back(n: usize, b: usize, steps: usize) -> Ends {
    around(n, b, n.saturating_sub(2).saturating_sub(steps))
}

// Between any two vertices.
fn any(n: usize, seed: usize, i: usize) -> Ends {
    around(n, below(n, seed, i, 1), below(n, seed, i, 2))
}

// Arc i of a chain from the first vertex to the last, and again from the first.
fn chain(n: usize, i: usize) -> Ends {
    around(n, modulo(i, n.saturating_sub(1)), 0)
}

// The same, from the last arc of the chain to the first.
fn chain_backwards(n: usize, i: usize) -> Ends {
    around(
        n,
        n.saturating_sub(2)
            .saturating_sub(modulo(i, n.saturating_sub(1))),
        0,
    )
}

// From one of the first three vertices: many parallel arcs, and vertices that none reaches.
fn from_few(n: usize, seed: usize, i: usize) -> Ends {
    around(n, below(3, seed, i, 1), below(n, seed, i, 2))
}

// To a vertex of a lower number, so that a sink above the source is not reached.
fn down(n: usize, seed: usize, i: usize) -> Ends {
    let a = 1 + below(n.saturating_sub(1), seed, i, 1) % 254;
    joining(a, below(a, seed, i, 2))
}

// The same, but for one arc from the first vertex to the last: a loop, where a chain leads back.
fn down_and_up(n: usize, seed: usize, i: usize) -> Ends {
    if i == seed % 16 {
        return joining(0, n.saturating_sub(1));
    }
    down(n, seed, i)
}

// One to three further along, never past the last vertex.
fn forward(n: usize, seed: usize, i: usize) -> Ends {
    let a = below(n.saturating_sub(1), seed, i, 1);
    let room = n.saturating_sub(1).saturating_sub(a);
    around(n, a, modulo(below(3, seed, i, 2), room))
}

// The first arcs are a chain, then any.
fn chain_and_any(n: usize, seed: usize, i: usize) -> Ends {
    if i.saturating_add(1) < n {
        return chain(n, i);
    }
    any(n, seed, i)
}

// By turns out of the source and into the sink.
fn star(n: usize, seed: usize, i: usize, s: usize, t: usize) -> Ends {
    let steps = modulo(below(n, seed, i, 1), n.saturating_sub(1));
    if i % 2 == 0 {
        return around(n, s, steps);
    }
    back(n, t.saturating_add(steps).saturating_add(1), steps)
}

// By turns an arc and one that leads back between the same two vertices.
fn both_ways(n: usize, seed: usize, i: usize) -> Ends {
    let a = below(n, seed, i / 2, 1);
    let steps = modulo(below(n, seed, i / 2, 2), n.saturating_sub(1));
    if i % 2 == 0 {
        return around(n, a, steps);
    }
    back(n, a.saturating_add(steps).saturating_add(1), steps)
}

// The vertex of basin i: often the source or the sink, else any.
fn self_loop_vertex(n: usize, seed: usize, i: usize, s: usize, t: usize) -> usize {
    let x = below(65536, seed, i.saturating_add(1), 0);
    match x % 4 {
        0 => s,
        1 => t,
        _ => modulo(x / 4, n),
    }
}

// The ends of arc i where it is a basin.
pub fn self_loop(n: usize, seed: usize, i: usize, s: usize, t: usize) -> Ends {
    let v = self_loop_vertex(n, seed, i, s, t);
    joining(v, v)
}

// The ends of arc i of a network of a shape, from s to t.
pub fn ends(shape: Shape, n: usize, seed: usize, i: usize, s: usize, t: usize) -> Ends {
    match shape {
        Shape::Any | Shape::FourEqual => any(n, seed, i),
        Shape::Chain => chain(n, i),
        Shape::ChainBackwards => chain_backwards(n, i),
        Shape::FromFew => from_few(n, seed, i),
        Shape::Down => down(n, seed, i),
        Shape::Forward => forward(n, seed, i),
        Shape::ChainAndAny => chain_and_any(n, seed, i),
        Shape::Star => star(n, seed, i, s, t),
        Shape::BothWays => both_ways(n, seed, i),
        Shape::Ring => around(n, i, 0),
        Shape::DownAndUp => down_and_up(n, seed, i),
    }
}
