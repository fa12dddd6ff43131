// parts
#![tactic(auto)]

pub mod index;
pub mod path;

// What the search found: an order, or a cycle.
#[derive(Clone, Copy, Debug, PartialEq, Eq)]
pub enum Found {
    Order,
    Cycle,
}
