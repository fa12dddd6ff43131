// What the annotating program does with a network file: the line for its bytes and for a file that is named, and the annotation that is saved.
#![tactic(auto)]

pub mod annotation_line;
