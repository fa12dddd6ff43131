// Has the helper annotate random networks, judges its annotations at several pairs of points, in another order and twisted, and compares every answer
// with another implementation. A network is wrong that gets any answer but the true one.
#![tactic(auto)]

mod annotations;
mod collisions;
mod other_pumps;
mod places;
mod self_loops;
mod site_marks;
mod tally;
mod trial;
mod twists;

use reference::instances::{QUESTIONS, Question, network};
use std::io;
use tally::Tally;

// How many networks there are for each question; of every 64 two have all 4096 arcs.
const COUNT: usize = 1920;

// One network; names its seed if it is wrong.
fn turn<R: Print + AllocGlobal>(
    rt: &R,
    question: Question,
    seed: usize,
    tally: &mut Tally,
) -> io::Result<()> {
    let before = tally.wrong;
    trial::run(rt.alloc(), network(question, seed), tally)?;
    if before < tally.wrong {
        print!(rt; "wrong: {seed}")?;
    }
    Ok(())
}

// All networks of one question.
fn ask<R: Print + AllocGlobal>(rt: &R, names: &str, question: Question) -> io::Result<()> {
    let mut tally = Tally::new();
    for seed in 0..COUNT {
        turn(rt, question, seed, &mut tally)?;
    }
    tally.show(rt, names, question)
}

// All networks; where the names cannot be read, they are empty.
fn run(rt: &HostRuntime) -> io::Result<()> {
    let names = io::read_to_string(rt.alloc(), rt.reader()).unwrap_or(String::new(rt.alloc()));
    for question in QUESTIONS.iter() {
        ask(rt, names.as_str(), *question)?;
    }
    Ok(())
}

// A line that cannot be printed is not told of.
fn main(rt: HostRuntime) {
    let _ = run(&rt);
}
