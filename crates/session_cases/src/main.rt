// Drives sessions step by step through every refusal of every step.
// The cases are lines of standard input, which says at its top how it is written; a line is printed for each.
#![tactic(auto)]

mod cases;
mod rows;
mod steps;

use std::io;

// All cases of the script.
fn run(rt: &HostRuntime) -> io::Result<()> {
    let script = io::read_to_string(rt.alloc(), rt.reader())?;
    cases::run(rt, script.as_str())
}

// A script that cannot be read has no cases, and a line that cannot be printed is not told of.
fn main(rt: HostRuntime) {
    let _ = run(&rt);
}
