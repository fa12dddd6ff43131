// What the preflow takes for granted, tested.
ghost use Rattle.std.specs.Prelude.{◌≡◌};
ghost use Rattle.flow_moves.specs.Preflow.{preflowable};

use packed_arcs::limits::arcs_fit;

// Is this what `preflow` answers?
pub(crate) fn is_preflowable(
    arcs: &[u64],
    s: usize,
    t: usize,
    supply: u32,
    amounts: usize,
    n: usize,
    outs: usize,
    intos: usize,
) -> bool
    ensures { result ≡ preflowable arcs.now s t supply amounts n outs intos }
{
    s < n
        && t < n
        && supply <= 2147483648
        && outs == 256 + arcs.len()
        && intos == 256 + arcs.len()
        && arcs_fit(arcs, amounts, n)
}
