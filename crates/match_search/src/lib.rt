// A search back from an exposed right vertex, by reduced cost, until an exposed left vertex is reached.
#![tactic(auto)]

ghost use Rattle.std.specs.Prelude.{◌≡◌, true, false, ◌+◌, ◌<◌, ◌≤◌, min, ltb, length, unwrap_or, IfSome};
ghost use Rattle.prelude.specs.Choice.{pick};
ghost use Rattle.packed_arcs.specs.Entries.{entry};
ghost use Rattle.arc_index.specs.ArcIndex.{no_arc};
ghost use Rattle.arc_index.specs.Columns.{record_tails, record_heads, record_weights};
ghost use Rattle.match_state.specs.Rows.{Rows};
ghost use Rattle.match_state.specs.Matching.{State};
ghost use Rattle.match_slack.specs.Slack.{Lightest, Slack};
ghost use Rattle.match_tree.specs.Tree.{SearchedBack};
ghost use Rattle.match_search.specs.Bringing.{BroughtNear};

use arc_index::NO_ARC;
use match_slack::slack_of;
use match_state::arc_at;
use match_tree::{exposed_distance, scan};
use vertex_queue::{VertexQueue, WAITS_NOT};

// How far a left vertex at the distance d is, with m noted as its arc, when matched ones are no farther than k.
fn near_distance(m: u16, d: u32, k: u32) -> u32
    ensures { result ≡ pick (ltb m no_arc) (min d k) d }
{
    if m < NO_ARC {
        return d.min(k);
    }
    d
}

// Brings matched left vertices to the distance k, where that is less than best.
fn bring_near(best: u32, k: u32, mate: &[u16], dist: &mut [u32])
    requires { length dist.old ≤ length mate.now }
    ensures { BroughtNear best k mate.now dist.old dist.new }
{
    if best <= k {
        return;
    }
    for (a, d) in dist.iter_mut().enumerate() {
        *d = near_distance(mate[a], *d, k);
    }
}

// The slack, once one vertex was taken, if there are more left vertices than right ones: searches that end before that do without it.
fn slack_after(nd: u8, slack: u32, lightest: &[u16], mate: &[u16], pi: &[u32]) -> u32
    requires { Slack lightest.now mate.now pi.now slack × (length lightest.now ≤ length pi.now) × (length mate.now ≡ length pi.now) × (length pi.now ≤ 255) }
    ensures { Slack lightest.now mate.now pi.now result }
{
    if nd != 1 {
        return slack;
    }
    if 2 * lightest.len() <= pi.len() {
        return slack;
    }
    slack_of(lightest, mate, pi)
}

// Is an exposed vertex at the distance best no farther than who waits, the nearest at k, by more than the slack?
fn is_near(best: u32, k: u32, slack: u32) -> bool
    ensures { (result ≡ true → best ≤ k + slack) × (result ≡ false → k + slack < best) }
{
    best.saturating_sub(k) <= slack
}

// The nearest exposed left vertex from the exposed right vertex t, where there is one: takes the vertices that wait, the nearest first, and looks at the arcs
// to what they are matched to, until an exposed one that was found is near enough. Where an arc from an exposed vertex costs more by the slack than any matched one pays, that is before
// all nearer ones were taken: all that are matched may then count as near as the next.
pub fn search(
    t: usize,
    records: &[u32],
    rows: &mut [u64],
    lightest: &[u16],
    mate: &[u16],
    pi: &[u32],
    dist: &mut [u32],
    par: &mut [u16],
    order: &mut [u8],
) -> Option<usize>
    requires state { State (length dist.old) (length pi.now) (record_tails records.now) (record_heads records.now) (record_weights records.now) mate.now pi.now }
    requires rows { Rows (record_tails records.now) (record_heads records.now) (record_weights records.now) rows.old × Lightest (record_tails records.now) (record_weights records.now) lightest.now × (length lightest.now ≡ length dist.old) }
    requires dist_len_bound { (length dist.old ≤ t) × (t < length pi.now) × (entry mate.now t ≡ no_arc) × (length par.old ≡ length dist.old) × (length order.old ≡ length dist.old) }
    ensures searched_back { SearchedBack (length dist.old) (length pi.now) (record_tails records.now)
        (record_heads records.now) (record_weights records.now) mate.now pi.now t dist.new
        par.new order.new (unwrap_or result (length dist.old)) }
    ensures in_dist { IfSome result (λ r. r < length dist.old) }
    ensures rows_2 { Rows (record_tails records.now) (record_heads records.now) (record_weights records.now) rows.new }
{
    dist.fill(WAITS_NOT);
    order.fill(0);
    let mut nearest = None;
    let mut queue = VertexQueue::new();
    let mut b = t;
    let mut k = 0;
    let mut nd: u8 = 0;
    let mut slack: u32 = 0;
    loop {
        nearest = scan(
            b, k, nearest, records, rows, mate, pi, dist, par, &mut queue,
        );
        let block = queue.least_block();
        k = queue.low[block];
        slack = slack_after(nd, slack, lightest, mate, pi);
        let best = exposed_distance(nearest, dist);
        if is_near(best, k, slack) {
            bring_near(best, k, mate, dist);
            return nearest;
        }
        let a = queue.take_from(block) as usize;
        nd += 1;
        order[a] = nd;
        let arc = arc_at(mate[a] as usize, records);
        b = arc.head as usize;
    }
}
