// What a channel record is in code, the limits, and arrays with one entry for each vertex.
#![tactic(auto)]

ghost use Rattle.std.specs.Prelude.{◌≡◌};
ghost use Rattle.arc_records.specs.Arcs.{arc_held, word_arc};

// An arc from its tail to its head with a weight, as it is read from a file or handed to a step: any numbers of 32 bits.
#[derive(Clone, Copy)]
pub struct Record {
    pub tail: u32,
    pub head: u32,
    pub weight: u32,
}

// The limits (PANEL 3): the most vertices, the most arcs that are read, the greatest weight, and the largest size of a potential.
pub const MOST_VERTICES: u32 = 255;

pub const MOST_ARCS: u32 = 4096;

pub const MOST_WEIGHT: u32 = 32767;

pub const MOST_POTENTIAL: i32 = 8322818;

// A node number for each vertex.
pub type Potentials = [i32; MOST_VERTICES as usize];

// A balance for each vertex.
pub type Balances = [i64; MOST_VERTICES as usize];

// The record whose four bytes, read as one number, are the word.
pub fn arc_in(word: u32) -> Record
    ensures { arc_held result ≡ word_arc word }
{
    Record {
        tail: word / 16777216 % 256,
        head: word / 65536 % 256,
        weight: word % 65536,
    }
}
