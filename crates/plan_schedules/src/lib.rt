// What the scheduling program does with a tide table and a network file: the line for its argument and for files that are named, and the file that is saved.
#![tactic(auto)]

pub mod schedule_line;
