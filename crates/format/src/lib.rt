// The two files of a network and its annotation (PANEL 7), read and written in bytes.
#![tactic(auto)]

pub mod annotation_file;
mod arcs;
mod inner;
pub mod network_file;
