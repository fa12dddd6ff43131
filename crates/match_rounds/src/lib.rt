// Right vertices that are exposed, matched one after the other.
#![tactic(auto)]

ghost use Rattle.std.specs.Prelude.{◌≡◌, ◌<◌, ◌≤◌, length, unwrap_or, IfSome};
ghost use Rattle.packed_arcs.specs.Entries.{entry};
ghost use Rattle.arc_index.specs.ArcIndex.{no_arc};
ghost use Rattle.arc_index.specs.Columns.{record_tails, record_heads, record_weights};
ghost use Rattle.match_state.specs.Rows.{Rows};
ghost use Rattle.match_state.specs.Matching.{State};
ghost use Rattle.match_slack.specs.Slack.{Lightest};
ghost use Rattle.match_rounds.specs.Serving.{Served, PassOutcome};

use arc_index::NO_ARC;
use match_augmenting::match_reached;
use match_search::search;

// Before the first pass; each takes a fourth: 16, 4 and 1.
const FIRST_STEP: usize = 64;

// The arrays are lent one by one: a search writes `dist`, `par` and `order` while it reads the others, and every clause names each of them, so that a struct would only put a name before each.
// Matches the exposed right vertex t, at least cost: whether an exposed left vertex was reached. If not, nothing is changed but the arrays of the search.
fn serve(
    t: usize,
    records: &[u32],
    rows: &mut [u64],
    lightest: &[u16],
    mate: &mut [u16],
    pi: &mut [u32],
    dist: &mut [u32],
    par: &mut [u16],
    order: &mut [u8],
) -> bool
    requires state { State (length dist.old) (length pi.old) (record_tails records.now) (record_heads records.now) (record_weights records.now) mate.old pi.old }
    requires rows { Rows (record_tails records.now) (record_heads records.now) (record_weights records.now) rows.old × Lightest (record_tails records.now) (record_weights records.now) lightest.now × (length lightest.now ≡ length dist.old) }
    requires dist_len_bound { (length dist.old ≤ t) × (t < length pi.old) × (entry mate.old t ≡ no_arc) × (length par.old ≡ length dist.old) × (length order.old ≡ length dist.old) }
    ensures served { Served (length dist.old) (length pi.old) (record_tails records.now) (record_heads records.now) (record_weights records.now) mate.old t dist.new mate.new pi.new result }
    ensures rows_2 { Rows (record_tails records.now) (record_heads records.now) (record_weights records.now) rows.new }
{
    let Some(r) = search(t, records, rows, lightest, mate, pi, dist, par, order) else {
        return false;
    };
    match_reached(r, t, records, dist, par, order, mate, pi);
    true
}

// Matches the right vertex t where it is exposed: whether it is matched then.
fn serve_exposed(
    t: usize,
    records: &[u32],
    rows: &mut [u64],
    lightest: &[u16],
    mate: &mut [u16],
    pi: &mut [u32],
    dist: &mut [u32],
    par: &mut [u16],
    order: &mut [u8],
) -> bool
    requires state { State (length dist.old) (length pi.old) (record_tails records.now) (record_heads records.now) (record_weights records.now) mate.old pi.old }
    requires rows { Rows (record_tails records.now) (record_heads records.now) (record_weights records.now) rows.old × Lightest (record_tails records.now) (record_weights records.now) lightest.now × (length lightest.now ≡ length dist.old) }
    requires dist_len_bound { (length dist.old ≤ t) × (t < length pi.old) × (length par.old ≡ length dist.old) × (length order.old ≡ length dist.old) }
    ensures served { Served (length dist.old) (length pi.old) (record_tails records.now) (record_heads records.now) (record_weights records.now) mate.old t dist.new mate.new pi.new result }
    ensures rows_2 { Rows (record_tails records.now) (record_heads records.now) (record_weights records.now) rows.new }
{
    if mate[t] < NO_ARC {
        return true;
    }
    serve(t, records, rows, lightest, mate, pi, dist, par, order)
}

// Matches every step-th right vertex that is exposed, from the first on: one that cannot be matched, if there is one.
fn pass(
    step: usize,
    records: &[u32],
    rows: &mut [u64],
    lightest: &[u16],
    mate: &mut [u16],
    pi: &mut [u32],
    dist: &mut [u32],
    par: &mut [u16],
    order: &mut [u8],
) -> Option<usize>
    requires state { State (length dist.old) (length pi.old) (record_tails records.now) (record_heads records.now) (record_weights records.now) mate.old pi.old }
    requires rows { Rows (record_tails records.now) (record_heads records.now) (record_weights records.now) rows.old × Lightest (record_tails records.now) (record_weights records.now) lightest.now × (length lightest.now ≡ length dist.old) }
    requires step_nonzero { (0 < step) × (step ≤ 16) × (length par.old ≡ length dist.old) × (length order.old ≡ length dist.old) }
    ensures pass_outcome { PassOutcome (length dist.old) (length pi.old) (record_tails records.now) (record_heads records.now) (record_weights records.now) step dist.new mate.new pi.new (unwrap_or result (length pi.old)) }
    ensures in_mate { IfSome result (λ t. t < length mate.old) }
    ensures rows_2 { Rows (record_tails records.now) (record_heads records.now) (record_weights records.now) rows.new }
{
    // Not step_by: it would need a measure of this loop and what it yields besides, where `t += step` says both.
    let mut t = dist.len();
    while t < mate.len() {
        if !serve_exposed(t, records, rows, lightest, mate, pi, dist, par, order) {
            return Some(t);
        }
        t += step;
    }
    None
}

// Matches every right vertex: one that cannot be matched, if there is one. Every sixteenth comes first, then every fourth: where costs rise along the vertices, each search is then shorter.
pub fn serve_all(
    records: &[u32],
    rows: &mut [u64],
    lightest: &[u16],
    mate: &mut [u16],
    pi: &mut [u32],
    dist: &mut [u32],
    par: &mut [u16],
    order: &mut [u8],
) -> Option<usize>
    requires state { State (length dist.old) (length pi.old) (record_tails records.now) (record_heads records.now) (record_weights records.now) mate.old pi.old }
    requires rows { Rows (record_tails records.now) (record_heads records.now) (record_weights records.now) rows.old × Lightest (record_tails records.now) (record_weights records.now) lightest.now × (length lightest.now ≡ length dist.old) }
    requires par_len { (length par.old ≡ length dist.old) × (length order.old ≡ length dist.old) }
    ensures pass_outcome { PassOutcome (length dist.old) (length pi.old) (record_tails records.now) (record_heads records.now) (record_weights records.now) 1 dist.new mate.new pi.new (unwrap_or result (length pi.old)) }
    ensures in_mate { IfSome result (λ t. t < length mate.old) }
    ensures rows_2 { Rows (record_tails records.now) (record_heads records.now) (record_weights records.now) rows.new }
{
    let mut step = FIRST_STEP;
    while 1 < step {
        step /= 4;
        if let Some(t) = pass(step, records, rows, lightest, mate, pi, dist, par, order) {
            return Some(t);
        }
    }
    None
}
