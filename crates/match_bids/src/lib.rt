// Bids, before the searches: an exposed right vertex takes its cheapest left vertex, and both their potentials rise as far as its second choice allows.
#![tactic(auto)]

ghost use Rattle.std.specs.Prelude.{◌<◌, ◌≤◌, length};
ghost use Rattle.packed_arcs.specs.Entries.{entry};
ghost use Rattle.arc_index.specs.Columns.{record_tails, record_heads, record_weights};
ghost use Rattle.match_state.specs.Rows.{Rows};
ghost use Rattle.match_state.specs.Matching.{State};

use arc_index::NO_ARC;
use match_offers::{assign, both_cheapest, choose, cost_of};

// No potential is above this.
const MOST: u32 = 8322818;

// The bid of the right vertex t, where it is exposed: it takes its cheapest arc for what the cheapest from another vertex costs.
fn bid(h: usize, t: usize, records: &[u32], rows: &[u64], mate: &mut [u16], pi: &mut [u32])
    requires state { State h (length pi.old) (record_tails records.now) (record_heads records.now) (record_weights records.now) mate.old pi.old × Rows (record_tails records.now) (record_heads records.now) (record_weights records.now) rows.now }
    requires h_le_t { (h ≤ t) × (t < length pi.old) }
    ensures { State h (length pi.old) (record_tails records.now) (record_heads records.now) (record_weights records.now) mate.new pi.new }
{
    if mate[t] < NO_ARC {
        return;
    }
    let Some(two) = both_cheapest(t, records, rows, pi) else {
        return;
    };
    let u = cost_of(two.second, records, pi);
    if MOST < u {
        return;
    }
    let e = choose(two.first, two.second, u, records, mate, pi);
    assign(t, e, u, records, mate, pi);
}

// A round of bids, by every right vertex that is exposed at its turn.
fn bid_round(h: usize, records: &[u32], rows: &[u64], mate: &mut [u16], pi: &mut [u32])
    requires { State h (length pi.old) (record_tails records.now) (record_heads records.now) (record_weights records.now) mate.old pi.old × Rows (record_tails records.now) (record_heads records.now) (record_weights records.now) rows.now }
    ensures { State h (length pi.old) (record_tails records.now) (record_heads records.now) (record_weights records.now) mate.new pi.new }
{
    for t in h..pi.len() {
        bid(h, t, records, rows, mate, pi);
    }
}

// Two rounds of bids: later ones match few more.
pub fn bid_all(h: usize, records: &[u32], rows: &[u64], mate: &mut [u16], pi: &mut [u32])
    requires { State h (length pi.old) (record_tails records.now) (record_heads records.now) (record_weights records.now) mate.old pi.old × Rows (record_tails records.now) (record_heads records.now) (record_weights records.now) rows.now }
    ensures { State h (length pi.old) (record_tails records.now) (record_heads records.now) (record_weights records.now) mate.new pi.new }
{
    bid_round(h, records, rows, mate, pi);
    bid_round(h, records, rows, mate, pi);
}
