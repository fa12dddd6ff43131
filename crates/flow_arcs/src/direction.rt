// Residual arcs: an arc forward, from its tail to its head, where there is room, or back, where it carries something.
ghost use Rattle.std.specs.Prelude.{◌≡◌, ◌<◌};
ghost use Rattle.flow_arcs.specs.Directions.{reverse, start_of, end_of, room};

use packed_arcs::arcs::{capacity_of, head_of, tail_of};

// The way along an arc.
#[derive(Clone, Copy, PartialEq, Eq)]
pub enum Direction {
    Forward,
    Back,
}

impl Direction {
    // The other way.
    pub fn reverse(self) -> Self
        ensures { result ≡ reverse self }
    {
        match self {
            Direction::Forward => Direction::Back,
            Direction::Back => Direction::Forward,
        }
    }

    // The vertex that the residual arc leads from.
    pub fn start_of(self, arc: u64) -> usize
        ensures { (result ≡ start_of self arc) × (result < 256) }
    {
        match self {
            Direction::Forward => tail_of(arc),
            Direction::Back => head_of(arc),
        }
    }

    // The vertex that it leads to. Two arms are plainer than by `reverse`.
    pub fn end_of(self, arc: u64) -> usize
        ensures { (result ≡ end_of self arc) × (result < 256) }
    {
        match self {
            Direction::Forward => head_of(arc),
            Direction::Back => tail_of(arc),
        }
    }

    // How much fits along it, where the arc carries the amount: there is such a residual arc where this is not 0.
    pub fn room(self, arc: u64, amount: u16) -> u16
        ensures { result ≡ room self arc amount }
    {
        match self {
            Direction::Forward => capacity_of(arc).saturating_sub(amount),
            Direction::Back => amount,
        }
    }
}
