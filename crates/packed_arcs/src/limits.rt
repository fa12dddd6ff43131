// What a flow search takes for granted, tested: at most 255 vertices and 4096 arcs, lists of the right lengths, and arcs that join vertices at a cost of at most 32767.
ghost use Rattle.std.specs.Prelude.{◌≡◌};
ghost use Rattle.prelude.specs.Lists.{all};
ghost use Rattle.packed_arcs.specs.Limits.{arc_fits, arcs_fit, is_free, sendable};

use super::arcs::{cost_of, head_of, tail_of};

// Does the arc join vertices below n, at a cost within the limit?
fn arc_fits(n: usize, arc: u64) -> bool
    ensures { result ≡ arc_fits n arc }
{
    tail_of(arc) < n && head_of(arc) < n && cost_of(arc) <= 32767
}

fn each_fits(n: usize, arcs: &[u64]) -> bool
    ensures { result ≡ all (arc_fits n) arcs.now }
{
    arcs.iter().all(|arc| arc_fits(n, *arc))
}

// Are there few enough vertices and arcs, an amount for each arc, and does each arc fit?
pub fn arcs_fit(arcs: &[u64], amounts: usize, n: usize) -> bool
    ensures { result ≡ arcs_fit arcs.now amounts n }
{
    n <= 255 && arcs.len() <= 4096 && amounts == arcs.len() && each_fits(n, arcs)
}

fn costs_nothing(arc: u64) -> bool
    ensures { result ≡ is_free arc }
{
    cost_of(arc) == 0
}

// Does no arc cost anything?
pub fn all_free(arcs: &[u64]) -> bool
    ensures { result ≡ all is_free arcs.now }
{
    arcs.iter().all(|arc| costs_nothing(*arc))
}

// Is this what `send` answers?
pub fn is_sendable(arcs: &[u64], t: usize, amounts: usize, n: usize, keys: usize) -> bool
    ensures { result ≡ sendable arcs.now t amounts n keys }
{
    t < n && keys == n && arcs_fit(arcs, amounts, n)
}
