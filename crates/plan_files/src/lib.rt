// What the judging program does with the files of a plan: the line for the bytes of the files, and for files that are named.
#![tactic(auto)]

pub mod answer_line;
