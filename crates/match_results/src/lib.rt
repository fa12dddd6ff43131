// What is written at the end: the amounts of a matching on the arcs, or marks of the vertices that a search did not reach.
#![tactic(auto)]

ghost use Rattle.std.specs.Prelude.{◌≡◌, ℕ, ◌<◌, length};
ghost use Rattle.packed_arcs.specs.Entries.{entry};
ghost use Rattle.arc_index.specs.Columns.{record_tails, record_heads, record_weights};
ghost use Rattle.match_state.specs.Matching.{Bipartite, Matching};
ghost use Rattle.match_state.specs.Amounts.{matched_amount, Amounts};
ghost use Rattle.match_results.specs.Results.{far_mark, unreached_mark, Marks};

use arc_index::NO_ARC;
use match_state::arc_at;
use vertex_queue::WAITS_NOT;

// 1 for an arc that is noted as matched at its head, else 0.
fn amount_of(e: usize, records: &[u32], mate: &[u16]) -> u16
    requires { (e < length records.now) × (entry (record_heads records.now) e < length mate.now) }
    ensures { result ≡ matched_amount (record_heads records.now) mate.now e }
{
    let arc = arc_at(e, records);
    u16::from(mate[arc.head as usize] as usize == e)
}

// The amounts of the matching on the arcs.
pub fn write_amounts(records: &[u32], mate: &[u16], x: &mut [u16])
    requires { (length x.old ≡ length records.now) × ((e : ℕ) → e < length records.now → entry (record_heads records.now) e < length mate.now) }
    ensures { Amounts (record_heads records.now) mate.now x.new }
{
    for (e, amount) in x.iter_mut().enumerate() {
        *amount = amount_of(e, records, mate);
    }
}

// 1 for the distance of a left vertex that was not reached, else 0.
fn far_mark(d: u32) -> u32
    ensures { result ≡ far_mark d }
{
    u32::from(WAITS_NOT <= d)
}

// The mark of the vertex v after a search from t.
fn mark_of(v: usize, t: usize, records: &[u32], mate: &[u16], dist: &[u32]) -> u32
    requires bipartite { Bipartite (length dist.now) (length mate.now) (record_tails records.now) (record_heads records.now) (record_weights records.now) }
    requires cases { Matching (length mate.now) (record_tails records.now) (record_heads records.now) mate.now × (v < length mate.now) }
    ensures { result ≡ unreached_mark (record_tails records.now) mate.now dist.now t v }
{
    if v < dist.len() {
        return far_mark(dist[v]);
    }
    if v == t {
        return 0;
    }
    let e = mate[v];
    if NO_ARC <= e {
        return 1;
    }
    let arc = arc_at(e as usize, records);
    far_mark(dist[arc.tail as usize])
}

// The marks of all vertices after a search from t, in place of their potentials.
pub fn write_marks(t: usize, records: &[u32], mate: &[u16], dist: &[u32], pi: &mut [u32])
    requires bipartite { Bipartite (length dist.now) (length pi.old) (record_tails records.now) (record_heads records.now) (record_weights records.now) }
    requires cases { Matching (length pi.old) (record_tails records.now) (record_heads records.now) mate.now }
    ensures { Marks (length pi.old) (record_tails records.now) mate.now dist.now t pi.new }
{
    for (v, mark) in pi.iter_mut().enumerate() {
        *mark = mark_of(v, t, records, mate, dist);
    }
}
