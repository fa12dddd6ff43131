// The arcs to a right vertex in the tree of a search: they bring their left vertices nearer to the root.
#![tactic(auto)]

ghost use Rattle.std.specs.Prelude.{◌≡◌, ◌+◌, ◌-◌, ◌<◌, ◌≤◌, length, unwrap_or, IfSome};
ghost use Rattle.packed_arcs.specs.Entries.{entry};
ghost use Rattle.arc_index.specs.Columns.{record_tails, record_heads, record_weights};
ghost use Rattle.match_state.specs.Rows.{row_number, row_tail, row_weight, Rows, Parted};
ghost use Rattle.match_state.specs.Matching.{State};
ghost use Rattle.match_tree.specs.Tree.{exposed_distance, Lowered, Relaxable, Scanned};

use arc_index::NO_ARC;
use match_rows::part::part_row;
use match_state::{row_number, row_record};
use vertex_queue::{VertexQueue, WAITS_NOT};

// How far the exposed left vertex is that was found; farther than any where there is none.
pub fn exposed_distance(nearest: Option<usize>, dist: &[u32]) -> u32
    ensures { result ≡ exposed_distance dist.now (unwrap_or nearest (length dist.now)) }
{
    let Some(r) = nearest else {
        return WAITS_NOT;
    };
    if r < dist.len() {
        return dist[r];
    }
    WAITS_NOT
}

// The left vertex a is no farther than far, by the arc e, unless that is no nearer than best: whether it came nearer and is exposed.
fn lower(
    a: usize,
    e: u16,
    far: u32,
    best: u32,
    mate: &[u16],
    dist: &mut [u32],
    par: &mut [u16],
    queue: &mut VertexQueue,
) -> bool
    requires { (a < length dist.old) × (a < length mate.now) × (length par.old ≡ length dist.old) × (a < 256) }
    ensures { Lowered a e far best mate.now dist.old par.old queue.old.keys queue.old.low dist.new par.new queue.new.keys queue.new.low result }
{
    if far < dist[a].min(best) {
        dist[a] = far;
        par[a] = e;
        queue.put(a as u8, far);
        return mate[a] == NO_ARC;
    }
    false
}

// Looks at an arc in the row of a vertex at the distance k, with the potential `price`: whether its tail came nearer, nearer than best, and is exposed.
fn relax(
    arc: u64,
    k: u32,
    price: u32,
    best: u32,
    mate: &[u16],
    pi: &[u32],
    dist: &mut [u32],
    par: &mut [u16],
    queue: &mut VertexQueue,
) -> bool
    requires { Relaxable arc k price mate.now pi.now dist.old par.old }
    ensures { Lowered (row_tail arc) (row_number arc) (k + (row_weight arc + entry pi.now (row_tail arc) - price)) best
        mate.now dist.old par.old queue.old.keys queue.old.low dist.new par.new
        queue.new.keys queue.new.low result }
{
    let record = row_record(arc);
    let a = record.tail as usize;
    let up = record.weight + pi[a];
    let far = k + (up - price);
    lower(a, row_number(arc) as u16, far, best, mate, dist, par, queue)
}

// Looks at the arcs in the row of the right vertex b, which is at the distance k, from the position `from` on: those before it are no nearer. The nearest exposed left vertex was `nearest`:
// which it is now, at once where it is as near as b.
fn scan_row(
    b: usize,
    k: u32,
    nearest: Option<usize>,
    from: usize,
    records: &[u32],
    rows: &[u64],
    mate: &[u16],
    pi: &[u32],
    dist: &mut [u32],
    par: &mut [u16],
    queue: &mut VertexQueue,
) -> Option<usize>
    requires state { State (length dist.old) (length pi.now) (record_tails records.now) (record_heads records.now) (record_weights records.now) mate.now pi.now }
    requires parted { Parted (record_tails records.now) (record_heads records.now) (record_weights records.now) mate.now rows.now rows.now b from }
    requires b_in_bounds { (b < length pi.now) × (k ≤ 2000000000) × (length par.old ≡ length dist.old) }
    ensures scanned { Scanned (length dist.old) (length pi.now) (record_tails records.now)
        (record_heads records.now) (record_weights records.now) mate.now pi.now dist.old
        par.old queue.old.keys queue.old.low dist.new par.new queue.new.keys queue.new.low b k (unwrap_or nearest (length dist.old)) (unwrap_or result (length dist.old)) }
    ensures in_dist { IfSome nearest (λ r. r < length dist.old) → IfSome result (λ r. r < length dist.old) }
{
    let price = pi[b];
    let mut found = nearest;
    let mut best = exposed_distance(nearest, dist);
    for i in from..rows[b + 1] as usize {
        if relax(rows[i], k, price, best, mate, pi, dist, par, queue) {
            let arc = row_record(rows[i]);
            let r = arc.tail as usize;
            found = Some(r);
            best = dist[r];
            if best <= k {
                return found;
            }
        }
    }
    found
}

// Looks at every arc to the right vertex b, which is at the distance k, where the nearest exposed left vertex was `nearest`: which it is now. Of the arcs from exposed vertices
// the cheapest is looked at for them all.
pub fn scan(
    b: usize,
    k: u32,
    nearest: Option<usize>,
    records: &[u32],
    rows: &mut [u64],
    mate: &[u16],
    pi: &[u32],
    dist: &mut [u32],
    par: &mut [u16],
    queue: &mut VertexQueue,
) -> Option<usize>
    requires state { State (length dist.old) (length pi.now) (record_tails records.now) (record_heads records.now) (record_weights records.now) mate.now pi.now }
    requires rows { Rows (record_tails records.now) (record_heads records.now) (record_weights records.now) rows.old }
    requires b_in_bounds { (b < length pi.now) × (k ≤ 2000000000) × (length par.old ≡ length dist.old) }
    ensures scanned { Scanned (length dist.old) (length pi.now) (record_tails records.now)
        (record_heads records.now) (record_weights records.now) mate.now pi.now dist.old
        par.old queue.old.keys queue.old.low dist.new par.new queue.new.keys queue.new.low b k (unwrap_or nearest (length dist.old)) (unwrap_or result (length dist.old)) }
    ensures in_dist { IfSome nearest (λ r. r < length dist.old) → IfSome result (λ r. r < length dist.old) }
    ensures rows_2 { Rows (record_tails records.now) (record_heads records.now) (record_weights records.now) rows.new }
{
    let from = part_row(b, records, rows, mate);
    scan_row(
        b, k, nearest, from, records, rows, mate, pi, dist, par, queue,
    )
}
