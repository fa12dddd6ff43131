// The ends of the arcs of a pairing of so many pumps with so many sites.
use super::arcs::{Ends, joining};
use super::random::{below, modulo, quotient};

#[derive(Clone, Copy, PartialEq, Eq)]
pub enum Shape {
    // Any pump with any site.
    Any,
    // Site k with pumps up to the k-th alone: one assignment at most, and spare pumps without arcs.
    Forced,
    // Every pump with every site.
    Whole,
    // The first sites / 2 + 1 sites with the first sites / 2 pumps alone: no assignment, if there are two sites or more.
    Crowded,
    // An assignment first, if there are pumps enough, then any.
    Assigned,
    // Any, and three in a row are equal.
    ThreeEqual,
    // Each pump with three sites that follow one another.
    Band,
    // One assignment after another.
    Assignments,
    // Pump after pump with the one site that is contested, and with the next of all sites.
    Contested,
    // Site k with pumps k and k + 1 alone: where one of these pumps is spare, that decides the pump of every site.
    Ladder,
}

pub const SHAPES: [Shape; 10] = [
    Shape::Any,
    Shape::Forced,
    Shape::Whole,
    Shape::Crowded,
    Shape::Assigned,
    Shape::ThreeEqual,
    Shape::Band,
    Shape::Assignments,
    Shape::Contested,
    Shape::Ladder,
];

// From pump p to the q-th site.
fn between(pumps: usize, sites: usize, p: usize, q: usize) -> Ends {
    joining(modulo(p, pumps), pumps.saturating_add(modulo(q, sites)))
}

fn any(pumps: usize, sites: usize, seed: usize, i: usize) -> Ends {
    between(
        pumps,
        sites,
        below(pumps, seed, i, 1),
        below(sites, seed, i, 2),
    )
}

fn forced(pumps: usize, sites: usize, seed: usize, i: usize) -> Ends {
    if i < sites {
        return between(pumps, sites, i, i);
    }
    let q = below(sites, seed, i, 2);
    between(pumps, sites, below(q.saturating_add(1), seed, i, 1), q)
}

fn crowded(pumps: usize, sites: usize, seed: usize, i: usize) -> Ends {
    let q = below(sites, seed, i, 2);
    if q <= sites / 2 {
        return between(pumps, sites, below(sites / 2, seed, i, 1), q);
    }
    between(pumps, sites, below(pumps, seed, i, 1), q)
}

fn assigned(pumps: usize, sites: usize, seed: usize, i: usize) -> Ends {
    if i < sites {
        return between(pumps, sites, i.saturating_add(seed), i);
    }
    any(pumps, sites, seed, i)
}

fn band(pumps: usize, sites: usize, seed: usize, i: usize) -> Ends {
    let p = modulo(i, pumps);
    between(pumps, sites, p, p.saturating_add(below(3, seed, i, 2)))
}

fn contested(pumps: usize, sites: usize, seed: usize, i: usize) -> Ends {
    if i % 2 == 0 {
        return between(pumps, sites, i / 2, seed);
    }
    between(pumps, sites, i / 2, i / 2)
}

// Does arc i of a shape lead to a contested site? It then costs little, so that most pumps have their cheapest arc there, and all but
// one in vain.
pub fn is_contested(shape: Shape, i: usize) -> bool {
    shape == Shape::Contested && i % 2 == 0
}

fn ladder(pumps: usize, sites: usize, i: usize) -> Ends {
    let q = modulo(i / 2, sites);
    between(pumps, sites, q.saturating_add(i % 2), q)
}

// The ends of arc i of a pairing of a shape.
pub fn ends(shape: Shape, pumps: usize, sites: usize, seed: usize, i: usize) -> Ends {
    let round = quotient(i, sites);
    match shape {
        Shape::Any | Shape::ThreeEqual => any(pumps, sites, seed, i),
        Shape::Forced => forced(pumps, sites, seed, i),
        Shape::Whole => between(pumps, sites, round, i),
        Shape::Crowded => crowded(pumps, sites, seed, i),
        Shape::Assigned => assigned(pumps, sites, seed, i),
        Shape::Band => band(pumps, sites, seed, i),
        Shape::Assignments => between(pumps, sites, i.saturating_add(round), i),
        Shape::Contested => contested(pumps, sites, seed, i),
        Shape::Ladder => ladder(pumps, sites, i),
    }
}
