// Packed arcs: tail + 256 × head + 65536 × cost + 4294967296 × capacity, each below its power.
ghost use Rattle.std.specs.Prelude.{◌≡◌};
ghost use Rattle.packed_arcs.specs.PackedArcs.{tail_of, head_of, cost_of, capacity_of};

pub fn tail_of(arc: u64) -> usize
    ensures { result ≡ tail_of arc }
{
    (arc % 256) as usize
}

pub fn head_of(arc: u64) -> usize
    ensures { result ≡ head_of arc }
{
    (arc / 256 % 256) as usize
}

pub fn cost_of(arc: u64) -> u32
    ensures { result ≡ cost_of arc }
{
    (arc / 65536 % 65536) as u32
}

pub fn capacity_of(arc: u64) -> u16
    ensures { result ≡ capacity_of arc }
{
    (arc / 4294967296 % 65536) as u16
}
