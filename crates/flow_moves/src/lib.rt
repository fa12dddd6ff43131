// One step along a residual arc: what stands at the vertex that it comes from moves to its other end, as far as it fits.
// Both vertices are read from the arc, so that a caller shows only that there is such an arc.
// The amounts x and what is left at the vertices are lent apart: as one struct they would be `&mut` behind `&mut`, and each clause that tells old from new would be longer.
#![tactic(auto)]

ghost use Rattle.std.specs.Prelude.{◌≡◌, ◌<◌, ◌≤◌, length};
ghost use Rattle.packed_arcs.specs.Entries.{entry, sum, zero_list};
ghost use Rattle.packed_arcs.specs.PackedArcs.{capacity_of};
ghost use Rattle.flow_arcs.specs.Directions.{room, carried};
ghost use Rattle.flow_moves.specs.Preflow.{Ready, Moves, standing_at, transferred};

use flow_arcs::direction::Direction;

// Moves got from the vertex a to the vertex b. They may be the same, so b's supply is read after a's is written.
fn transfer(a: usize, b: usize, got: u32, left: &mut [u32])
    requires a_in_bounds { (a < length left.old) × (b < length left.old) × (got ≤ entry left.old a) }
    requires left_len_bound { (length left.old ≤ 255) × (sum left.old ≤ 2147483648) }
    ensures { left.new ≡ transferred left.old a b got }
{
    left[a] -= got;
    left[b] += got;
}

// What the arc carries after as much as got moved along it in this direction.
fn carried(direction: Direction, arc: u64, amount: u16, got: u16) -> u16
    requires { (amount ≤ capacity_of arc) × (got ≤ room direction arc amount) }
    ensures { result ≡ carried direction amount got }
{
    match direction {
        Direction::Forward => amount + got,
        Direction::Back => amount - got,
    }
}

// Moves as much as goes along the residual arc e: how much of what stood at its start did not.
pub fn shift(direction: Direction, e: usize, arcs: &[u64], x: &mut [u16], left: &mut [u32]) -> u32
    requires { (e < length arcs.now) × Ready arcs.now x.old left.old }
    ensures { Moves arcs.now x.old left.old x.new left.new }
{
    let arc = arcs[e];
    let a = direction.start_of(arc);
    let have = left[a];
    let amount = x[e];
    let got = have.min(u32::from(direction.room(arc, amount)));
    x[e] = carried(direction, arc, amount, got as u16);
    transfer(a, direction.end_of(arc), got, left);
    have - got
}

// Nothing has moved yet: the supply stands at s.
pub fn stand_at(s: usize, supply: u32, x: &mut [u16], left: &mut [u32])
    requires { s < length left.old }
    ensures { (x.new ≡ zero_list (length x.old)) × (left.new ≡ standing_at (length left.old) s supply) }
{
    x.fill(0);
    left.fill(0);
    left[s] = supply;
}
