// The rules of the certificates (PANEL 5) on an annotation as functions, one `match` on the row each: checks 9 to 12.
#![tactic(auto)]

pub mod annotation;
