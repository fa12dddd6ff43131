// The node numbers and the balances of the vertices, lent: one entry read or changed, and nothing past the end.
#![tactic(auto)]

ghost use Rattle.std.specs.Prelude.{◌≡◌};
ghost use Rattle.prelude.specs.Lists.{at};
ghost use Rattle.words.specs.Marks.{is_marked};
ghost use Rattle.arc_records.specs.Arcs.{arc_held};
ghost use Rattle.network.specs.Certificate.{ends_of};
ghost use Rattle.rules.specs.Held.{ends_held};
ghost use Rattle.vertex_arrays.specs.Arrays.{added_at, taken_at, moved};

use arc_records::{Balances, Potentials, Record};
use rules::annotation::Ends;
use words::marks::is_marked;
use words::signed::{decrease, increase};

// The node number of the vertex v, 0 past the end.
fn potential_of(potentials: &[i32], v: u32) -> i32
    ensures { result ≡ at potentials.now v }
{
    potentials.get(v as usize).copied().unwrap_or(0)
}

// What the ends of the arc have.
pub fn ends_of(potentials: &Potentials, marks: [u64; 4], arc: Record) -> Ends
    ensures { ends_held result ≡ ends_of (at potentials.now) (is_marked marks) (arc_held arc) }
{
    let tail = arc.tail;
    let head = arc.head;
    Ends {
        tail_number: potential_of(potentials, tail),
        head_number: potential_of(potentials, head),
        tail_marked: is_marked(marks, tail),
        head_marked: is_marked(marks, head),
    }
}

// The balance of the vertex v with x added. The same as `take_at` but for the sum; with the sum as a closure each call would need a clause more. By index: with `get_mut` the facts name
// values that a proof cannot cite.
fn add_at(balances: &mut [i64], v: u32, x: u32)
    ensures { balances.new ≡ added_at balances.old v x }
{
    let i = v as usize;
    if balances.len() <= i {
        return;
    }
    let b = balances[i];
    balances[i] = increase(b, x);
}

// The balance of the vertex v with x taken off. Apart from `add_at` for the reason given there.
fn take_at(balances: &mut [i64], v: u32, x: u32)
    ensures { balances.new ≡ taken_at balances.old v x }
{
    let i = v as usize;
    if balances.len() <= i {
        return;
    }
    let b = balances[i];
    balances[i] = decrease(b, x);
}

// The balances with the amount x on the arc.
pub fn move_amount(balances: &mut Balances, arc: Record, x: u32)
    ensures { balances.new ≡ moved balances.old arc.tail arc.head x }
{
    add_at(balances, arc.tail, x);
    take_at(balances, arc.head, x);
}
