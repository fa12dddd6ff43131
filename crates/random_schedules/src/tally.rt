// What is counted of the networks of a question, and how it is shown. The names are a list on standard input: the four questions, and what
// is counted.
use super::trial::Outcome;
use std::io;
use testing::names::print_counts;
use testing::tally::{self, add};

#[derive(Drop)]
pub struct Tally {
    networks: tally::Tally,
    open: usize,
    closed: usize,
    wrong: usize,
}

impl Tally {
    pub fn new() -> Tally {
        Tally {
            networks: tally::Tally::new(),
            open: 0,
            closed: 0,
            wrong: 0,
        }
    }

    // Counts what came of one network.
    pub fn count(&mut self, outcome: Outcome) {
        self.networks.count(outcome.answer);
        add(&mut self.open, outcome.open);
        add(&mut self.closed, outcome.closed);
        add(&mut self.wrong, outcome.wrong);
    }

    // Sums up the networks of one question, after its name.
    pub fn show<R: Print>(&self, rt: &R, names: &str) -> io::Result<()> {
        let tally::Tally {
            networks,
            values,
            nones,
        } = self.networks;
        let counts = [networks, values, nones, self.open, self.closed, self.wrong];
        print_counts(rt, names, 4, &counts)
    }
}
