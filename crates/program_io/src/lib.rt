// What the programs share: the front of a file and how much of it counts, a line of text, and saving bytes in a file.
#![tactic(auto)]

pub mod counted;
pub mod front;
pub mod line;
pub mod saving;
