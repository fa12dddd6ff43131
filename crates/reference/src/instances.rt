// Which network a seed stands for: its size, its source and sink, or how many pumps it has, the shape of its arcs and the kind of its
// weights, and its basins.
use super::random::{below, low_byte, modulo};
use super::{pairs, shapes};

#[derive(Clone, Copy, PartialEq, Eq)]
pub enum Question {
    Route = 1,
    Discharge,
    Pairing,
    Loops,
}

pub const QUESTIONS: [Question; 4] = [
    Question::Route,
    Question::Discharge,
    Question::Pairing,
    Question::Loops,
];

#[derive(Clone, Copy)]
pub enum Shape {
    Pairing(pairs::Shape),
    Other(shapes::Shape),
}

// What weights look random among.
#[derive(Clone, Copy)]
pub enum Weights {
    FewDifferent,
    Any,
    Highest,
    Zero,
    Small,
    Extremes,
    Greatest,
}

const WEIGHTS: [Weights; 7] = [
    Weights::FewDifferent,
    Weights::Any,
    Weights::Highest,
    Weights::Zero,
    Weights::Small,
    Weights::Extremes,
    Weights::Greatest,
];

// A network before its arcs are made: how many they are is `count`. For a pairing s is the number of pumps.
#[derive(Clone, Copy)]
pub struct Net {
    pub question: Question,
    pub n: u8,
    pub s: u8,
    pub t: u8,
    pub count: usize,
    pub shape: Shape,
    pub weights: Weights,
    pub seed: usize,
}

// Of every 64 networks the next starts one further.
fn turn(seed: usize) -> usize {
    seed.saturating_add(seed / 64)
}

// Of every 64 networks the last four are large.
fn class(seed: usize) -> usize {
    seed % 64
}

// How many sizes small networks have: more for a pairing, of whose vertices only some are sites.
fn sizes(question: Question) -> usize {
    if question == Question::Pairing {
        return 20;
    }
    11
}

// How many vertices a large network has less than others: 0, or for a pairing 0 or 1, so that their number is odd or even.
fn fewer(question: Question, seed: usize) -> usize {
    if question == Question::Pairing {
        return below(2, seed, 0, 1);
    }
    0
}

// How many vertices.
fn vertices(question: Question, seed: usize) -> usize {
    if class(seed) < 60 {
        return below(sizes(question), seed, 0, 1).saturating_add(2);
    }
    if class(seed) < 62 {
        return 40usize.saturating_sub(fewer(question, seed));
    }
    255usize.saturating_sub(fewer(question, seed))
}

// How many of n vertices are to be sites of a pairing, by turns: as many as pumps, half as many, about a tenth, one, all but one, one more
// than half, any number.
fn wanted_sites(n: usize, seed: usize) -> usize {
    match turn(seed) % 11 {
        0 | 1 | 2 => n / 2,
        3 | 4 => n / 3,
        5 | 6 => n / 11 + 1,
        7 => 1,
        8 => n.saturating_sub(1),
        9 => n / 2 + 1,
        _ => below(n, seed, 0, 4),
    }
}

// How many pumps a pairing of n vertices has: all but its sites, with at least one of each.
fn pumps(n: usize, seed: usize) -> usize {
    let sites = modulo(wanted_sites(n, seed).saturating_sub(1), n.saturating_sub(1)).saturating_add(
        1,
    );
    n.saturating_sub(sites)
}

// How many arcs.
fn arcs(seed: usize) -> usize {
    if class(seed) < 15 {
        return below(13, seed, 0, 2);
    }
    if class(seed) < 60 {
        return below(61, seed, 0, 2);
    }
    if class(seed) % 2 == 0 {
        return 400;
    }
    4096
}

// 12 shapes where loops are asked for, 10 of pairings, 10 of other networks, of which the chains come up in all kinds at the size of 255
// vertices and 400 arcs.
fn shape_of(question: Question, seed: usize) -> Shape {
    match question {
        Question::Pairing => Shape::Pairing(pairs::SHAPES[seed / 64 % 10]),
        Question::Loops => Shape::Other(shapes::SHAPES[turn(seed) % 12]),
        _ if class(seed) == 62 && seed / 64 % 2 == 0 => Shape::Other(shapes::Shape::Chain),
        _ if class(seed) == 62 => Shape::Other(shapes::Shape::ChainBackwards),
        _ => Shape::Other(shapes::SHAPES[seed / 64 % 10]),
    }
}

fn weights_of(seed: usize) -> Weights {
    if class(seed) == 62 {
        return WEIGHTS[seed / 128 % 7];
    }
    WEIGHTS[below(7, seed, 0, 3) % 7]
}

// One in so many records is a basin, but for pairings: all in one network of sixteen, none, for 0, in two. One in three leaves enough of
// 400 arcs for a chain over 255 vertices. Where loops are asked for twelve of sixteen have none, since a basin by itself is one.
pub fn self_loop_period(question: Question, seed: usize) -> usize {
    let k = turn(seed) % 16;
    if question == Question::Loops && k % 5 != 0 {
        return 0;
    }
    match k {
        0 => 1,
        1 | 2 => 0,
        3 | 4 | 5 | 6 => 3,
        _ => 8,
    }
}

// Does the shape lead from the first vertex to the last?
fn is_end_to_end(shape: Shape) -> bool {
    matches!(
        shape,
        Shape::Other(
            shapes::Shape::Chain
                | shapes::Shape::ChainBackwards
                | shapes::Shape::Forward
                | shapes::Shape::ChainAndAny
        )
    )
}

// The first vertex for such a shape and for loops, else any. For a pairing the number of pumps, which stands in its place.
fn source(question: Question, n: usize, shape: Shape, seed: usize) -> usize {
    match question {
        Question::Pairing => pumps(n, seed),
        Question::Loops => 0,
        _ if is_end_to_end(shape) => 0,
        _ => below(n, seed, 0, 4),
    }
}

fn sink(question: Question, n: usize, shape: Shape, s: usize, seed: usize) -> usize {
    match question {
        Question::Pairing | Question::Loops => 0,
        _ if is_end_to_end(shape) => n.saturating_sub(1),
        _ => {
            let steps = below(n.saturating_sub(1), seed, 0, 5);
            modulo(s.saturating_add(1).saturating_add(steps), n)
        }
    }
}

pub fn network(question: Question, seed: usize) -> Net {
    let n = vertices(question, seed);
    let shape = shape_of(question, seed);
    let s = source(question, n, shape, seed);
    Net {
        question,
        n: low_byte(n),
        s: low_byte(s),
        t: low_byte(sink(question, n, shape, s, seed)),
        count: arcs(seed),
        shape,
        weights: weights_of(seed),
        seed,
    }
}
