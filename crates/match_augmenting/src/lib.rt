// What follows a search that reached an exposed left vertex: potentials rise, and the matching grows along the path that was found.
#![tactic(auto)]

ghost use Rattle.std.specs.Prelude.{length};
ghost use Rattle.arc_index.specs.Columns.{record_tails, record_heads, record_weights};
ghost use Rattle.match_state.specs.Matching.{State};
ghost use Rattle.match_tree.specs.Tree.{Reached};
ghost use Rattle.match_augmenting.specs.Augmenting.{Augmented};

use augment::augment;
use raise::raise;

mod augment;
mod raise;

// The order of the vertex that was reached: after all others.
const LAST: u8 = 255;

// Matches the exposed right vertex t, from which a search reached the exposed left vertex r.
pub fn match_reached(
    r: usize,
    t: usize,
    records: &[u32],
    dist: &[u32],
    par: &[u16],
    order: &mut [u8],
    mate: &mut [u16],
    pi: &mut [u32],
)
    requires state { State (length dist.now) (length pi.old) (record_tails records.now) (record_heads records.now) (record_weights records.now) mate.old pi.old }
    requires reached { Reached (length dist.now) (length pi.old) (record_tails records.now) (record_heads records.now) (record_weights records.now) mate.old pi.old t dist.now par.now order.old r }
    ensures { Augmented (length dist.now) (length pi.old) (record_tails records.now) (record_heads records.now) (record_weights records.now) mate.old pi.new t mate.new }
{
    let d = dist[r];
    raise(t, d, records, mate, dist, pi);
    order[r] = LAST;
    augment(r, t, records, pi, par, order, mate);
}
