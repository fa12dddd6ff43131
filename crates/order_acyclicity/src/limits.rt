// What the search takes for granted, tested: few enough vertices and records, a mark for each record, and arcs that join vertices.
ghost use Rattle.std.specs.Prelude.{◌≡◌};
ghost use Rattle.prelude.specs.Lists.{all};
ghost use Rattle.order_path.specs.Search.{joins_below, searchable};

use arc_records::{MOST_ARCS, MOST_VERTICES, arc_in};

// Does the arc of the record join vertices below n?
fn joins_below(n: usize, word: u32) -> bool
    ensures { result ≡ joins_below n word }
{
    let arc = arc_in(word);
    (arc.tail as usize) < n && (arc.head as usize) < n
}

// Does the arc of every record?
fn each_joins_below(n: usize, records: &[u32]) -> bool
    ensures { result ≡ all (joins_below n) records.now }
{
    records.iter().all(|word| joins_below(n, *word))
}

// Is this what the search answers?
pub(crate) fn is_searchable(records: &[u32], n: usize, marks: usize) -> bool
    ensures { result ≡ searchable records.now n marks }
{
    n <= MOST_VERTICES as usize
        && records.len() <= MOST_ARCS as usize
        && marks == records.len()
        && each_joins_below(n, records)
}
