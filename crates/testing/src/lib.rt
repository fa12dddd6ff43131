// What the test programs share: answers in words, scripts of cases, numbers in the bytes of a file, names with counts, and counts of networks.
#![tactic(auto)]

pub mod answers;
pub mod bytes;
pub mod names;
pub mod script;
pub mod tally;
