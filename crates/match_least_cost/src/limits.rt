// What the search for a matching takes for granted, tested: left vertices among the vertices, few enough of them and of records, an amount for each record, and arcs from left to right.
ghost use Rattle.std.specs.Prelude.{◌≡◌};
ghost use Rattle.prelude.specs.Lists.{all};
ghost use Rattle.match_least_cost.specs.Outcome.{leads_across, matchable};

use arc_index::NO_ARC;
use arc_records::{MOST_VERTICES, MOST_WEIGHT, arc_in};

// Does the arc of the record lead from a left vertex, below h, to a right one below n, at a weight within the limit?
fn leads_across(h: usize, n: usize, word: u32) -> bool
    ensures { result ≡ leads_across h n word }
{
    let arc = arc_in(word);
    (arc.tail as usize) < h
        && h <= arc.head as usize
        && (arc.head as usize) < n
        && arc.weight <= MOST_WEIGHT
}

fn each_leads_across(h: usize, n: usize, records: &[u32]) -> bool
    ensures { result ≡ all (leads_across h n) records.now }
{
    records.iter().all(|word| leads_across(h, n, *word))
}

// Is this what `solve` answers?
pub(crate) fn is_matchable(records: &[u32], h: usize, n: usize, amounts: usize) -> bool
    ensures { result ≡ matchable records.now h n amounts }
{
    h <= n
        && n <= MOST_VERTICES as usize
        && records.len() <= NO_ARC as usize
        && amounts == records.len()
        && each_leads_across(h, n, records)
}
