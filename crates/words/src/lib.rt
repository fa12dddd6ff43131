// The signed and bit operations that the other crates are built from.
#![tactic(auto)]

pub mod entries;
pub mod marks;
pub mod signed;
