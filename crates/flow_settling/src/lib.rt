// What phases start from, by what a preflow left: they go on from there where nothing is left over, and else from the start.
#![tactic(auto)]

ghost use Rattle.std.specs.Prelude.{◌≡◌, ◌<◌, ◌≤◌, length};
ghost use Rattle.packed_arcs.specs.Entries.{entry, zero_list};
ghost use Rattle.flow_moves.specs.Preflow.{PackedConserved, standing_at};
ghost use Rattle.flow_settling.specs.Settling.{settled, SolveReady, Prepared};

use flow_moves::stand_at;
use packed_arcs::limits::all_free;

// Is nothing left over at any vertex but s and t, and does no arc cost anything?
fn is_settled(s: usize, t: usize, supply: u32, arcs: &[u64], left: &[u32]) -> bool
    requires { (s < length left.now) × (t < length left.now) × (entry left.now s ≤ supply) }
    ensures { result ≡ settled s t supply arcs.now left.now }
{
    s != t && supply - left[s] == left[t] && all_free(arcs)
}

// What has arrived at t is not wanted any more; where something is left over, everything starts anew.
pub fn prepare(
    s: usize,
    t: usize,
    supply: u32,
    arcs: &[u64],
    x: &mut [u16],
    left: &mut [u32],
    need: &mut [u32],
)
    requires solve_ready { SolveReady arcs.now s t (length left.old) × PackedConserved arcs.now (standing_at (length left.old) s supply) x.old left.old }
    requires need_value { need.old ≡ zero_list (length left.old) }
    ensures { Prepared arcs.now s t supply (length left.old) x.new left.new need.new }
{
    if is_settled(s, t, supply, arcs, left) {
        need[t] = supply - left[t];
        left[t] = 0;
        return;
    }
    stand_at(s, supply, x, left);
    need[t] = supply;
}
