// One search over the residual network of a list of packed arcs, and one push along a path of least cost.
// What is not within the limits is refused, and then nothing is changed.
#![tactic(auto)]

ghost use Rattle.flow_path.specs.Sending.{SendOutcome};

use packed_arcs::OutOfLimits;
use packed_arcs::limits::is_sendable;
use sending::index_and_send;

mod sending;

// Moves at most want from the vertices with supply left to the vertex t, along one path of least cost: how much reached t, or None where no path leads there. The amounts x start at 0, and keys are written over.
pub fn send(
    arcs: &[u64],
    t: usize,
    want: u32,
    x: &mut [u16],
    left: &mut [u32],
    key: &mut [u32],
) -> Result<Option<u32>, OutOfLimits>
    ensures { SendOutcome arcs.now t want x.old left.old key.old x.new left.new key.new result }
{
    let n = left.len();
    if !is_sendable(arcs, t, x.len(), n, key.len()) {
        return Err(OutOfLimits);
    }
    x.fill(0);
    let end = 256 + arcs.len();
    let mut out = [0u16; 4352];
    let pi = [0u32; 255];
    let mut par = [0u16; 255];
    let reached = index_and_send(
        t,
        want,
        arcs,
        &mut out[..end],
        &pi[..n],
        x,
        left,
        key,
        &mut par[..n],
    );
    Ok(reached)
}
