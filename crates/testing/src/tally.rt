// How many networks were tried, and how many of them have a value or none.
#[derive(Clone, Copy)]
pub struct Tally {
    pub networks: usize,
    pub values: usize,
    pub nones: usize,
}

impl Tally {
    pub fn new() -> Tally {
        Tally {
            networks: 0,
            values: 0,
            nones: 0,
        }
    }

    // Counts a network by its true answer.
    pub fn count(&mut self, answer: Option<u64>) {
        add(&mut self.networks, 1);
        match answer {
            Some(_) => add(&mut self.values, 1),
            None => add(&mut self.nones, 1),
        }
    }
}

// Adds to a count, which stays far below its greatest value.
pub fn add(count: &mut usize, more: usize) {
    *count = count.saturating_add(more);
}
