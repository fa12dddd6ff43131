// The ranges of node numbers (PANEL 5, check 10): one table for all certificates, and the test of a number by it.
#![tactic(auto)]

ghost use Rattle.std.specs.Prelude.{◌≡◌, map};
ghost use Rattle.ranges.specs.Ranges.{node_ranges, range_held, covers, in_table};

// A row of the table: the question, the claim, the lowest and the highest node number.
#[derive(Clone, Copy)]
struct Range(u8, u8, i32, i32);

const ROWS: usize = 7;

// question, claim, low, high
const RANGES: [Range; ROWS] = [
    Range(1, 1, -8322818, 8322818), // route, value
    Range(1, 2, 0, 1), // route, none
    Range(2, 1, 0, 1), // discharge, value
    Range(3, 1, -8322818, 8322818), // pairing, value
    Range(3, 2, 0, 1), // pairing, none
    Range(4, 1, -8322818, 8322818), // loops, value
    Range(4, 2, 0, 0), // loops, none
];

// The table, row by row and in the order of the definition.
fn table() -> [Range; ROWS]
    ensures { map range_held result ≡ node_ranges }
{
    RANGES
}

// Is the row for the question and the claim, and z in its range?
fn covers(range: Range, question: u8, claim: u32, z: i32) -> bool
    ensures { result ≡ covers question claim z (range_held range) }
{
    let Range(asked, claimed, low, high) = range;
    question == asked && claim == u32::from(claimed) && low <= z && z <= high
}

// 10: is there a row for the question and the claim, and z in its range?
pub fn in_table(question: u8, claim: u32, z: i32) -> bool
    ensures { result ≡ in_table question claim z }
{
    table()
        .iter()
        .any(|range| covers(*range, question, claim, z))
}
