// Packed arcs: their columns, and the limits of what flows take.
#![tactic(auto)]

pub mod arcs;
pub mod limits;

// The input of a search is not within its limits.
#[derive(Clone, Copy, Debug, PartialEq, Eq)]
pub struct OutOfLimits;
