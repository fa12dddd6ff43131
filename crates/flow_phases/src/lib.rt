// Phases: a search, potentials raised by its distances, and a push to the nearest vertex with need, until none is reached.
#![tactic(auto)]

ghost use Rattle.std.specs.Prelude.{true, false, ◌≡◌, ℕ, ◌<◌, ◌≤◌, length, MatchOption};
ghost use Rattle.packed_arcs.specs.Entries.{entry};
ghost use Rattle.packed_arcs.specs.PackedArcs.{tails_of, heads_of};
ghost use Rattle.arc_index.specs.Chains.{Chains};
ghost use Rattle.flow_residual.specs.PackedNetwork.{residual_of, PackedSolved, PackedPhaseState};
ghost use Rattle.flow_residual.specs.Phase.{Nearest, SearchResult};
ghost use Rattle.flow_residual.specs.Residual.{RaisedPotentials};
ghost use Rattle.flow_phases.specs.Advancing.{PackedAdvanced};

use flow_push::push;
use flow_search::{Network, UNREACHED, search};

// The potentials after a phase that stops at the key d.
fn raise(d: u32, key: &[u32], pi: &mut [u32])
    requires { (length pi.old ≡ length key.now) × ((v : ℕ) → entry pi.old v ≤ 8322818) }
    ensures { RaisedPotentials d key.now pi.old pi.new }
{
    for (v, k) in key.iter().enumerate() {
        pi[v] += (*k).min(d) / 256;
    }
}

// Is there need, at a vertex whose key is below k?
fn better(need: u32, key: u32, k: u32) -> bool
    ensures { (result ≡ true → (0 < need) × (key < k)) × (result ≡ false → 0 < need → k ≤ key) }
{
    0 < need && key < k
}

// The vertex with need whose key is least, where one is reached.
fn nearest(need: &[u32], key: &[u32]) -> Option<usize>
    requires { length need.now ≡ length key.now }
    ensures { MatchOption result (Nearest need.now key.now (length key.now)) (λ t. Nearest need.now key.now t × (t < length key.now)) }
{
    let mut best = None;
    let mut k = UNREACHED;
    for (v, here) in key.iter().enumerate() {
        if better(need[v], *here, k) {
            best = Some(v);
            k = *here;
        }
    }
    best
}

// A phase after its search: potentials are raised, and supply moves to t, the nearest vertex with need.
fn advance(
    t: usize,
    arcs: &[u64],
    key: &[u32],
    par: &[u16],
    x: &mut [u16],
    pi: &mut [u32],
    left: &mut [u32],
    need: &mut [u32],
)
    requires packed_phase_state { PackedPhaseState arcs.now x.old pi.old left.old need.old × SearchResult (residual_of arcs.now x.old pi.old) left.old key.now par.now }
    requires nearest { Nearest need.old key.now t × (t < length key.now) }
    ensures { PackedAdvanced arcs.now x.old pi.old left.old need.old x.new pi.new left.new need.new }
{
    raise(key[t], key, pi);
    let want = need[t];
    let got = push(t, want, arcs, par, key, x, left);
    need[t] = want - got;
}

// Moves supply to where it is needed, at least cost, until no vertex with need is reached.
pub fn run(
    arcs: &[u64],
    out: &[u16],
    into: &[u16],
    x: &mut [u16],
    pi: &mut [u32],
    left: &mut [u32],
    need: &mut [u32],
    key: &mut [u32],
    par: &mut [u16],
)
    requires key_len { (length key.old ≡ length left.old) × (length par.old ≡ length left.old) }
    requires chains { Chains (tails_of arcs.now) out.now × Chains (heads_of arcs.now) into.now × PackedPhaseState arcs.now x.old pi.old left.old need.old }
    ensures { PackedSolved arcs.now x.old pi.old left.old need.old x.new pi.new left.new need.new key.new par.new }
{
    loop {
        search(Network { arcs, x, pi }, out, Some(into), left, key, par);
        let Some(t) = nearest(need, key) else {
            return;
        };
        advance(t, arcs, key, par, x, pi, left, need);
    }
}
