// Fields of a file (PANEL 7): numbers of one, two and four bytes, read and written, and what begins a file.
#![tactic(auto)]

pub mod bytes;
pub mod layout;
