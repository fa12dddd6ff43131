// One search from the vertices with supply left, and one push to a vertex where it was reached.
ghost use Rattle.std.specs.Prelude.{◌≡◌, ℕ, ◌+◌, ◌<◌, length};
ghost use Rattle.packed_arcs.specs.Entries.{entry};
ghost use Rattle.packed_arcs.specs.PackedArcs.{tails_of};
ghost use Rattle.arc_index.specs.Chains.{Chains};
ghost use Rattle.flow_path.specs.Sending.{SearchAndPush};
ghost use Rattle.flow_residual.specs.PackedNetwork.{PackedPhaseState};

use arc_index::End;
use arc_index::packed::index_packed;
use flow_push::push;
use flow_search::{Network, UNREACHED, search};

// Nothing moves yet, so that no arc leads back, and the index by tail serves.
pub(crate) fn search_and_push(
    t: usize,
    want: u32,
    arcs: &[u64],
    out: &[u16],
    pi: &[u32],
    x: &mut [u16],
    left: &mut [u32],
    key: &mut [u32],
    par: &mut [u16],
) -> Option<u32>
    requires t_in_bounds { (t < length left.old) × (length key.old ≡ length left.old) × (length par.old ≡ length left.old) }
    requires chains { Chains (tails_of arcs.now) out.now × ((e : ℕ) → entry x.old e ≡ 0) }
    requires packed_phase_state { PackedPhaseState arcs.now x.old pi.now left.old pi.now }
    ensures { SearchAndPush arcs.now x.old pi.now left.old x.new left.new key.new t want result }
{
    search(Network { arcs, x, pi }, out, None, left, key, par);
    if key[t] < UNREACHED {
        let got = push(t, want, arcs, par, key, x, left);
        return Some(got);
    }
    None
}

// The same, after the arcs were indexed.
pub(crate) fn index_and_send(
    t: usize,
    want: u32,
    arcs: &[u64],
    out: &mut [u16],
    pi: &[u32],
    x: &mut [u16],
    left: &mut [u32],
    key: &mut [u32],
    par: &mut [u16],
) -> Option<u32>
    requires t_in_bounds { (t < length left.old) × (length key.old ≡ length left.old) × (length par.old ≡ length left.old) }
    requires out_len { (length out.old ≡ 256 + length arcs.now) × ((e : ℕ) → entry x.old e ≡ 0) }
    requires packed_phase_state { PackedPhaseState arcs.now x.old pi.now left.old pi.now }
    ensures { SearchAndPush arcs.now x.old pi.now left.old x.new left.new key.new t want result }
{
    index_packed(arcs, End::Tail, out);
    search_and_push(t, want, arcs, out, pi, x, left, key, par)
}
