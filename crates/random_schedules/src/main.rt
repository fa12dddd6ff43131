// Has the calendar write the file of a minute for random networks and windows, compares it with what another writer makes of them, has the
// helper annotate it and judges that. A network is wrong where a byte differs, or an answer from the true one of its open arcs.
#![tactic(auto)]

mod minutes;
mod tables;
mod tally;
mod trial;

use reference::instances::{QUESTIONS, Question, network};
use std::io;
use tally::Tally;
use testing::names::name;

// How many networks there are for each question; of every 64 two have all 4096 arcs.
const COUNT: usize = 640;

// One network; names its seed if it is wrong.
fn turn<R: Print + AllocGlobal>(
    rt: &R,
    question: Question,
    seed: usize,
    tally: &mut Tally,
) -> io::Result<()> {
    let outcome = trial::run(rt.alloc(), network(question, seed))?;
    tally.count(outcome);
    if outcome.wrong != 0 {
        println!(rt; "wrong: {seed}")?;
    }
    Ok(())
}

// All networks of one question, whose name stands at its place of the names.
fn ask<R: Print + AllocGlobal>(
    rt: &R,
    names: &str,
    place: usize,
    question: Question,
) -> io::Result<()> {
    let mut tally = Tally::new();
    for seed in 0..COUNT {
        turn(rt, question, seed, &mut tally)?;
    }
    rt.print(name(names, place))?;
    tally.show(rt, names)
}

// All networks; where the names cannot be read, they are empty.
fn run(rt: &HostRuntime) -> io::Result<()> {
    let names = io::read_to_string(rt.alloc(), rt.reader()).unwrap_or(String::new(rt.alloc()));
    for (place, question) in QUESTIONS.iter().enumerate() {
        ask(rt, names.as_str(), place, *question)?;
    }
    Ok(())
}

// A line that cannot be printed is not told of.
fn main(rt: HostRuntime) {
    let _ = run(&rt);
}
