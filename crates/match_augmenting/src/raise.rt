// Potentials after a search that reached an exposed vertex.
ghost use Rattle.std.specs.Prelude.{◌≡◌, ℕ, ◌<◌, ◌≤◌, length};
ghost use Rattle.packed_arcs.specs.Entries.{entry};
ghost use Rattle.arc_index.specs.ArcIndex.{no_arc};
ghost use Rattle.arc_index.specs.Columns.{record_tails, record_heads, record_weights};
ghost use Rattle.match_state.specs.Matching.{State};
ghost use Rattle.match_augmenting.specs.Augmenting.{LowPair, pair_raised, Raised};

use match_state::arc_at;

// The potentials of the left vertex a and of what it is matched to rise by what a is nearer than d, if it is.
fn raise_pair(a: usize, d: u32, records: &[u32], mate: &[u16], dist: &[u32], pi: &mut [u32])
    requires { (a < length dist.now) × (d ≤ 8322818) × (entry dist.now a < d → LowPair (record_heads records.now) mate.now (length records.now) pi.old a) }
    ensures { pi.new ≡ pair_raised (record_heads records.now) mate.now dist.now d a pi.old }
{
    let far = dist[a];
    if d <= far {
        return;
    }
    let up = d - far;
    let arc = arc_at(mate[a] as usize, records);
    pi[a] += up;
    pi[arc.head as usize] += up;
}

// Potentials rise after a search from the root t that reached the distance d: those of left vertices that are nearer, by what they are nearer, and what they are matched to as much; the root by d.
pub(crate) fn raise(t: usize, d: u32, records: &[u32], mate: &[u16], dist: &[u32], pi: &mut [u32])
    requires state { State (length dist.now) (length pi.old) (record_tails records.now) (record_heads records.now) (record_weights records.now) mate.now pi.old }
    requires d_bound { (d ≤ 8322818) × (length dist.now ≤ t) × (t < length pi.old) × (entry mate.now t ≡ no_arc) × ((a : ℕ) → a < length dist.now → entry mate.now a ≡ no_arc → d ≤ entry dist.now a) }
    ensures { Raised (length dist.now) (record_tails records.now) mate.now dist.now t d pi.old pi.new }
{
    for a in 0..dist.len() {
        raise_pair(a, d, records, mate, dist, pi);
    }
    pi[t] += d;
}
