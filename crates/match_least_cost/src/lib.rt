// A matching of least cost that saturates the right vertices of a bipartite network, by augmenting paths of least reduced cost; or marks that show that there is none.
// Left vertices are those below h, and every arc leads from a left vertex to a right one. What is not within the limits is refused, and then nothing is changed.
#![tactic(auto)]

ghost use Rattle.std.specs.Prelude.{◌≡◌, ◌+◌, ◌<◌, length, replicate, unwrap_or, IfSome};
ghost use Rattle.packed_arcs.specs.Entries.{zero_list};
ghost use Rattle.arc_index.specs.ArcIndex.{no_arc};
ghost use Rattle.arc_index.specs.Columns.{record_tails, record_heads, record_weights};
ghost use Rattle.match_state.specs.Rows.{Rows};
ghost use Rattle.match_state.specs.Matching.{Bipartite, State};
ghost use Rattle.match_slack.specs.Slack.{Lightest};
ghost use Rattle.match_rounds.specs.Serving.{PassOutcome};
ghost use Rattle.match_least_cost.specs.Outcome.{FindOutcome, MatchOutcome};

use arc_index::NO_ARC;
use limits::is_matchable;
use match_bids::bid_all;
use match_results::{write_amounts, write_marks};
use match_rounds::serve_all;
use match_rows::write_rows;
use match_slack::write_lightest;
use packed_arcs::OutOfLimits;

mod limits;

// What was found: a matching that saturates the right vertices, or that there is none.
#[derive(Clone, Copy, Debug, PartialEq, Eq)]
pub enum Match {
    Saturating,
    Deficient,
}

// Puts the arcs into rows, and matches by bids, where nothing is matched.
fn arrange_and_bid(h: usize, records: &[u32], rows: &mut [u64], mate: &mut [u16], pi: &mut [u32])
    requires bipartite { Bipartite h (length pi.old) (record_tails records.now) (record_heads records.now) (record_weights records.now) × (length rows.old ≡ 769 + length records.now) }
    requires mate_value { (mate.old ≡ replicate (length pi.old) no_arc) × (pi.old ≡ zero_list (length pi.old)) }
    ensures state { State h (length pi.old) (record_tails records.now) (record_heads records.now) (record_weights records.now) mate.new pi.new }
    ensures rows { Rows (record_tails records.now) (record_heads records.now) (record_weights records.now) rows.new }
{
    write_rows(records, rows);
    bid_all(h, records, rows, mate, pi);
}

// Notes the least weight of the arcs from each left vertex, where there are more left vertices than right ones; else 0, which is of no use, stays.
fn note_lightest(n: usize, records: &[u32], lightest: &mut [u16])
    requires { Bipartite (length lightest.old) n (record_tails records.now) (record_heads records.now) (record_weights records.now) × (lightest.old ≡ zero_list (length lightest.old)) }
    ensures { Lightest (record_tails records.now) (record_weights records.now) lightest.new }
{
    if 2 * lightest.len() <= n {
        return;
    }
    write_lightest(records, lightest);
}

// Writes what the search found: a vertex that cannot be matched, or that there is none.
fn write_found(
    unmatched: Option<usize>,
    records: &[u32],
    mate: &[u16],
    dist: &[u32],
    pi: &mut [u32],
    x: &mut [u16],
) -> Match
    requires pass_outcome { PassOutcome (length dist.now) (length pi.old) (record_tails records.now) (record_heads records.now) (record_weights records.now) 1 dist.now mate.now pi.old (unwrap_or unmatched (length pi.old)) }
    requires in_mate { IfSome unmatched (λ t. t < length mate.now) }
    requires x_len { length x.old ≡ length records.now }
    ensures { FindOutcome (length dist.now) (length pi.old) (record_tails records.now) (record_heads records.now) (record_weights records.now) pi.new x.new result }
{
    if let Some(t) = unmatched {
        write_marks(t, records, mate, dist, pi);
        x.fill(0);
        return Match::Deficient;
    }
    write_amounts(records, mate, x);
    Match::Saturating
}

// The search on arrays in which nothing is matched.
fn find(
    records: &[u32],
    rows: &mut [u64],
    lightest: &mut [u16],
    mate: &mut [u16],
    pi: &mut [u32],
    dist: &mut [u32],
    par: &mut [u16],
    order: &mut [u8],
    x: &mut [u16],
) -> Match
    requires bipartite { Bipartite (length dist.old) (length pi.old) (record_tails records.now) (record_heads records.now) (record_weights records.now) }
    requires rows_len { (length rows.old ≡ 769 + length records.now) × (length par.old ≡ length dist.old) × (length order.old ≡ length dist.old) × (length x.old ≡ length records.now) × (length lightest.old ≡ length dist.old) × (lightest.old ≡ zero_list (length lightest.old)) }
    requires mate_value { (mate.old ≡ replicate (length pi.old) no_arc) × (pi.old ≡ zero_list (length pi.old)) }
    ensures { FindOutcome (length dist.old) (length pi.old) (record_tails records.now) (record_heads records.now) (record_weights records.now) pi.new x.new result }
{
    arrange_and_bid(dist.len(), records, rows, mate, pi);
    note_lightest(pi.len(), records, lightest);
    let unmatched = serve_all(records, rows, lightest, mate, pi, dist, par, order);
    write_found(unmatched, records, mate, dist, pi, x)
}

// The same, in arrays of its own.
fn find_by_search(records: &[u32], h: usize, pi: &mut [u32], x: &mut [u16]) -> Match
    requires bipartite { Bipartite h (length pi.old) (record_tails records.now) (record_heads records.now) (record_weights records.now) }
    requires x_len { (length x.old ≡ length records.now) × (pi.old ≡ zero_list (length pi.old)) }
    ensures { FindOutcome h (length pi.old) (record_tails records.now) (record_heads records.now) (record_weights records.now) pi.new x.new result }
{
    let n = pi.len();
    let m = records.len();
    let mut rows = [0u64; 4865];
    let mut lightest = [0u16; 255];
    // NO_ARC stands for no arc: an Option<u16> would take twice the room in memory that is fixed.
    let mut mate = [NO_ARC; 255];
    let mut dist = [0u32; 255];
    let mut par = [0u16; 255];
    let mut order = [0u8; 255];
    find(
        records,
        &mut rows[..769 + m],
        &mut lightest[..h],
        &mut mate[..n],
        pi,
        &mut dist[..h],
        &mut par[..h],
        &mut order[..h],
        x,
    )
}

// For a saturating matching its amounts, and potentials that show that none is cheaper; for none amounts of 0, and in place of potentials marks that show it.
// Where the right vertices are more than the left ones, marks that are all 0 show it.
pub fn solve(records: &[u32], h: usize, pi: &mut [u32], x: &mut [u16]) -> Result<Match, OutOfLimits>
    ensures { MatchOutcome records.now h pi.old x.old pi.new x.new result }
{
    let n = pi.len();
    if !is_matchable(records, h, n, x.len()) {
        return Err(OutOfLimits);
    }
    pi.fill(0);
    if h < n - h {
        x.fill(0);
        return Ok(Match::Deficient);
    }
    Ok(find_by_search(records, h, pi, x))
}
