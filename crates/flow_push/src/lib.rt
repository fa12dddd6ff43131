// A push: an amount moves from a root of the search's tree to a vertex, along parent arcs.
#![tactic(auto)]

ghost use Rattle.std.specs.Prelude.{◌≡◌, ◌+◌, ◌-◌, ◌<◌, ◌≤◌, min, ltb, length, set};
ghost use Rattle.prelude.specs.Choice.{pick};
ghost use Rattle.packed_arcs.specs.Entries.{entry};
ghost use Rattle.packed_arcs.specs.PackedArcs.{tail_of, head_of, capacity_of};
ghost use Rattle.flow_residual.specs.PackedNetwork.{PackedPushReady, PackedMoved};
ghost use Rattle.flow_residual.specs.Push.{code_arc};
ghost use Rattle.flow_residual.specs.Residual.{unreached};

use packed_arcs::arcs::{capacity_of, head_of, tail_of};

// The arc of a code. The code of a residual arc stays a number: that is what the lent array of parents holds, in 16 bits, and code_arc is a definition.
fn arc_of(code: u16) -> usize
    ensures { result ≡ code_arc code }
{
    if code < 4096 {
        return usize::from(code);
    }
    usize::from(code - 4096)
}

// The vertex that a residual arc comes from.
fn start_of(code: u16, arc: u64) -> usize
    ensures { result ≡ pick (ltb code 4096) (tail_of arc) (head_of arc) }
{
    if code < 4096 {
        return tail_of(arc);
    }
    head_of(arc)
}

// How much of want a residual arc can take, where the arc carries the amount.
fn room_by(code: u16, want: u32, arc: u64, amount: u16) -> u32
    requires { amount ≤ capacity_of arc }
    ensures { result ≡ min want (pick (ltb code 4096) (capacity_of arc - amount) amount) }
{
    if code < 4096 {
        return want.min(u32::from(capacity_of(arc) - amount));
    }
    want.min(u32::from(amount))
}

// The amount of an arc after got went by the residual arc.
fn amount_after(code: u16, amount: u16, got: u32) -> u16
    requires { (code < 4096 → amount + got ≤ 65535) × (4096 ≤ code → got ≤ amount) }
    ensures { result ≡ pick (ltb code 4096) (amount + got) (amount - got) }
{
    if code < 4096 {
        return amount + (got as u16);
    }
    amount - (got as u16)
}

// Takes at most want of the supply left at v.
fn take_left(v: usize, want: u32, left: &mut [u32]) -> u32
    requires { v < length left.old }
    ensures { (result ≡ min want (entry left.old v)) × (left.new ≡ set left.old v (entry left.old v - result)) }
{
    let have = left[v];
    let got = want.min(have);
    left[v] = have - got;
    got
}

// Moves at most want to v from the root of its tree: how much.
pub fn push(
    v: usize,
    want: u32,
    arcs: &[u64],
    par: &[u16],
    key: &[u32],
    x: &mut [u16],
    left: &mut [u32],
) -> u32
    requires v_in_bounds { (v < length key.now) × (entry key.now v < unreached) }
    requires packed_push_ready { PackedPushReady arcs.now par.now key.now x.old left.old }
    ensures { PackedMoved arcs.now par.now key.now x.old left.old x.new left.new v want result }
{
    if key[v] == 0 {
        return take_left(v, want, left);
    }
    let code = par[v];
    let e = arc_of(code);
    let arc = arcs[e];
    let u = start_of(code, arc);
    let room = room_by(code, want, arc, x[e]);
    let got = push(u, room, arcs, par, key, x, left);
    x[e] = amount_after(code, x[e], got);
    got
}
