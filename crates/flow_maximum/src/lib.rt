// A preflow, and successive shortest paths over the residual network after it, of a list of packed arcs.
// What is not within the limits is refused, and then nothing is changed.
#![tactic(auto)]

ghost use Rattle.std.specs.Prelude.{◌≡◌, ◌+◌, length, is_ok};
ghost use Rattle.packed_arcs.specs.PackedArcs.{tails_of, heads_of};
ghost use Rattle.arc_index.specs.Chains.{Chains};
ghost use Rattle.flow_moves.specs.Preflow.{PackedConserved, standing_at};
ghost use Rattle.flow_settling.specs.Settling.{SolveReady};
ghost use Rattle.flow_settling.specs.Calls.{Finished, SolveOutcome};

use flow_phases::run;
use flow_preflow::preflow;
use flow_settling::prepare;
use packed_arcs::OutOfLimits;

// Phases after a preflow.
fn finish(
    s: usize,
    t: usize,
    supply: u32,
    arcs: &[u64],
    out: &[u16],
    into: &[u16],
    x: &mut [u16],
    left: &mut [u32],
    key: &mut [u32],
)
    requires solve_ready { SolveReady arcs.now s t (length left.old) × PackedConserved arcs.now (standing_at (length left.old) s supply) x.old left.old }
    requires chains { Chains (tails_of arcs.now) out.now × Chains (heads_of arcs.now) into.now × (length key.old ≡ length left.old) }
    ensures { Finished arcs.now s t supply (length left.old) x.new key.new }
{
    let n = left.len();
    let mut pi = [0u32; 255];
    let mut need = [0u32; 255];
    let mut par = [0u16; 255];
    let need = &mut need[..n];
    prepare(s, t, supply, arcs, x, left, need);
    run(
        arcs,
        out,
        into,
        x,
        &mut pi[..n],
        left,
        need,
        key,
        &mut par[..n],
    );
}

// A preflow, and phases after it. out and into are no Network here: the preflow writes them.
fn solve_by(
    s: usize,
    t: usize,
    supply: u32,
    arcs: &[u64],
    x: &mut [u16],
    left: &mut [u32],
    out: &mut [u16],
    into: &mut [u16],
    key: &mut [u32],
) -> Result<(), OutOfLimits>
    requires { (length left.old ≡ length key.old) × (length out.old ≡ 256 + length arcs.now) × (length into.old ≡ 256 + length arcs.now) }
    ensures { SolveOutcome arcs.now s t supply x.old key.old x.new key.new (is_ok result) }
{
    preflow(arcs, s, t, supply, x, left, out, into)?;
    finish(s, t, supply, arcs, out, into, x, left, key);
    Ok(())
}

// Moves the supply that stands at s to t, where as much is wanted, at least cost, until t is not reached any more.
// What is not within the limits is refused, and then nothing is changed.
// The amounts x start at 0, and keys are written over.
pub fn solve(
    arcs: &[u64],
    s: usize,
    t: usize,
    supply: u32,
    x: &mut [u16],
    key: &mut [u32],
) -> Result<(), OutOfLimits>
    ensures { SolveOutcome arcs.now s t supply x.old key.old x.new key.new (is_ok result) }
{
    let n = key.len();
    if 255 < n || 4096 < arcs.len() {
        return Err(OutOfLimits);
    }
    let end = 256 + arcs.len();
    let mut left = [0u32; 255];
    let mut out = [0u16; 4352];
    let mut into = [0u16; 4352];
    solve_by(
        s,
        t,
        supply,
        arcs,
        x,
        &mut left[..n],
        &mut out[..end],
        &mut into[..end],
        key,
    )
}
