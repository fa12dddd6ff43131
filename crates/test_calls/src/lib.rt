// What the test programs call: the helper and the calendar, each with a buffer that is filled before.
#![tactic(auto)]

pub mod writers;
