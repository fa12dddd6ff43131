// A push-relabel heuristic: supply moves over residual arcs as far as it goes to a sink, and what is left over back to the source.
// Proved is that it ends and that what moves is conserved, and not how much arrives: labels, buckets and counts only guide it.
#![tactic(auto)]

ghost use Rattle.std.specs.Prelude.{◌<◌, length, is_ok};
ghost use Rattle.flow_moves.specs.Preflow.{Ready, Moves};
ghost use Rattle.flow_preflow.specs.Outcome.{PreflowOutcome};

use arc_index::End;
use arc_index::packed::index_packed;
use flow_arcs::Network;
use flow_moves::stand_at;
use flow_pushing::Guide;
use flow_stages::{push_to_sink, push_to_source};
use limits::is_preflowable;
use packed_arcs::OutOfLimits;

mod limits;
#[cfg(test)]
mod tests;

// Moves what stands at s as far as it goes to t, and what is left over at other vertices back to s.
fn push_all(s: usize, t: usize, net: Network<'_>, x: &mut [u16], left: &mut [u32])
    requires s_in_bounds { (s < length left.old) × (t < length left.old) }
    requires ready { Ready net.arcs.now x.old left.old }
    ensures { Moves net.entry.arcs.now x.old left.old x.new left.new }
{
    let mut guide = Guide::new();
    push_to_sink(s, t, net, &mut guide, x, left);
    push_to_source(s, t, net, &mut guide, x, left);
}

// Moves what it can of a supply that stands at s to t, over arcs within the limits; out and into become the index of the arcs by tail and by head.
// What is not within the limits is refused, and then nothing is changed. out and into are no Network here: they are written.
pub fn preflow(
    arcs: &[u64],
    s: usize,
    t: usize,
    supply: u32,
    x: &mut [u16],
    left: &mut [u32],
    out: &mut [u16],
    into: &mut [u16],
) -> Result<(), OutOfLimits>
    ensures { PreflowOutcome arcs.now s t supply x.old left.old out.old into.old x.new left.new out.new into.new (is_ok result) }
{
    let n = left.len();
    if !is_preflowable(arcs, s, t, supply, x.len(), n, out.len(), into.len()) {
        return Err(OutOfLimits);
    }
    stand_at(s, supply, x, left);
    index_packed(arcs, End::Tail, out);
    index_packed(arcs, End::Head, into);
    push_all(s, t, Network { arcs, out, into }, x, left);
    Ok(())
}
