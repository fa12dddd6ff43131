// One residual arc looked at in a search: where it leads to a lower key, the vertex at its end waits with that key.
// A vertex's key is 256 × its reduced distance + the arcs on its path; the code of a residual arc is e for the arc e forward, 4096 + e back.
#![tactic(auto)]

ghost use Rattle.std.specs.Prelude.{◌≡◌, ◌<◌, length};
ghost use Rattle.flow_relaxing.specs.Relaxing.{residual_in, LowerOutcome, RelaxOutcome, SearchReady};

use packed_arcs::arcs::{capacity_of, cost_of, head_of, tail_of};
use vertex_queue::VertexQueue;

// Arcs, with the amounts x on them and the potentials pi of the vertices.
#[derive(Clone, Copy)]
pub struct Network<'a> {
    pub arcs: &'a [u64],
    pub x: &'a [u16],
    pub pi: &'a [u32],
}

// The key of v is at most reach, by the residual arc of the code: where it falls, v waits with it.
fn lower(v: usize, reach: u32, code: u16, key: &mut [u32], par: &mut [u16], queue: &mut VertexQueue)
    requires { (v < length key.old) × (length par.old ≡ length key.old) × (v < 256) }
    ensures { LowerOutcome v reach code key.old par.old queue.old.keys queue.old.low key.new par.new queue.new.keys queue.new.low }
{
    if key[v] <= reach {
        return;
    }
    key[v] = reach;
    par[v] = code;
    queue.put(v as u8, reach);
}

// Looks at the arc e, forward or back, from its start at the key k. A flag says which way, since the definition RelaxOutcome has one.
// key, par and queue stay three parameters: with all three in one struct that borrows key and par, the proof that `search` hands them back did not close.
pub fn relax(
    back: bool,
    e: usize,
    k: u32,
    net: Network<'_>,
    key: &mut [u32],
    par: &mut [u16],
    queue: &mut VertexQueue,
)
    requires { (e < length net.arcs.now) × (k < 2147483648) × (length par.old ≡ length key.old) × SearchReady (residual_in net) (length key.old) }
    ensures { RelaxOutcome (residual_in net.entry) back e k key.old par.old queue.old.keys queue.old.low key.new par.new queue.new.keys queue.new.low }
{
    let arc = net.arcs[e];
    let is_residual = if back {
        0 < net.x[e]
    } else {
        net.x[e] < capacity_of(arc)
    };
    if !is_residual {
        return;
    }
    let a = tail_of(arc);
    let b = head_of(arc);
    let up = cost_of(arc) + net.pi[a];
    if back {
        let len = net.pi[b] - up;
        lower(a, k + len * 256 + 1, (4096 + e) as u16, key, par, queue);
    } else {
        let len = up - net.pi[b];
        lower(b, k + len * 256 + 1, e as u16, key, par, queue);
    }
}
