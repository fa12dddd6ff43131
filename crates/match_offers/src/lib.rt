// The arcs to a right vertex by what they cost, and what is written where one of them is taken.
#![tactic(auto)]

ghost use Rattle.std.specs.Prelude.{◌≡◌, ◌⊎◌, ◌<◌, ◌≤◌, length, IfSome};
ghost use Rattle.packed_arcs.specs.Entries.{entry};
ghost use Rattle.arc_index.specs.ArcIndex.{no_arc};
ghost use Rattle.arc_index.specs.Columns.{record_tails, record_heads, record_weights};
ghost use Rattle.match_state.specs.Rows.{Rows};
ghost use Rattle.match_offers.specs.Offers.{bid_cost, with_same_tail, with_arc, Affordable, TwoCheapest, Room, freed, assigned_mates, assigned_potentials};

use arc_index::NO_ARC;
use match_state::{arc_at, row_number, row_record};

// More than any arc costs.
const TOO_MUCH: u32 = 4294967295;

// What the arc e costs at its head: its weight, and the potential of its tail.
pub fn cost_of(e: usize, records: &[u32], pi: &[u32]) -> u32
    requires { Affordable (record_tails records.now) (record_weights records.now) pi.now × (e < length records.now) }
    ensures { result ≡ bid_cost (record_tails records.now) (record_weights records.now) pi.now e }
{
    let arc = arc_at(e, records);
    arc.weight + pi[arc.tail as usize]
}

// Of the arcs to a vertex that were looked at the cheapest, the vertex that it comes from and what it costs; and the cheapest that comes from another vertex, and what that costs.
// No Option within: NO_ARC at a cost above all others stands for none while they are looked at, so that one comparison is the whole test, and only the result says whether there are both.
#[derive(Clone, Copy)]
pub struct TwoArcs {
    pub tail: usize,
    pub first: usize,
    pub least: u32,
    pub second: usize,
    pub next: u32,
}

// The arc e, which comes from the same vertex as the cheapest, is looked at too.
fn with_same_tail(two: TwoArcs, e: usize, cost: u32) -> TwoArcs
    ensures { result ≡ with_same_tail two e cost }
{
    if cost < two.least {
        return TwoArcs {
            first: e,
            least: cost,
            ..two
        };
    }
    two
}

// The arc e from the vertex a is looked at too.
fn with_arc(two: TwoArcs, a: usize, e: usize, cost: u32) -> TwoArcs
    ensures { result ≡ with_arc two a e cost }
{
    if two.next <= cost {
        return two;
    }
    if two.tail == a {
        return with_same_tail(two, e, cost);
    }
    if cost < two.least {
        return TwoArcs {
            tail: a,
            first: e,
            least: cost,
            second: two.first,
            next: two.least,
        };
    }
    TwoArcs {
        second: e,
        next: cost,
        ..two
    }
}

// The cheapest arc to t, or no arc; and the cheapest that comes from another vertex than that one, or no arc.
pub fn two_cheapest(t: usize, records: &[u32], rows: &[u64], pi: &[u32]) -> TwoArcs
    requires rows { Rows (record_tails records.now) (record_heads records.now) (record_weights records.now) rows.now × (t < 256) }
    requires affordable { Affordable (record_tails records.now) (record_weights records.now) pi.now × (length pi.now ≤ 255) }
    ensures cheapest { TwoCheapest (record_tails records.now) (record_heads records.now) (record_weights records.now) pi.now t result.first result.second }
    ensures both { result.second < no_arc → result.first < no_arc }
{
    let mut two = TwoArcs {
        tail: 256,
        first: NO_ARC as usize,
        least: TOO_MUCH,
        second: NO_ARC as usize,
        next: TOO_MUCH,
    };
    for i in rows[t] as usize..rows[t + 1] as usize {
        let arc = row_record(rows[i]);
        let a = arc.tail as usize;
        let cost = arc.weight + pi[a];
        two = with_arc(two, a, row_number(rows[i]), cost);
    }
    two
}

// The same two where there are both.
pub fn both_cheapest(t: usize, records: &[u32], rows: &[u64], pi: &[u32]) -> Option<TwoArcs>
    requires rows { Rows (record_tails records.now) (record_heads records.now) (record_weights records.now) rows.now × (t < 256) }
    requires affordable { Affordable (record_tails records.now) (record_weights records.now) pi.now × (length pi.now ≤ 255) }
    ensures { IfSome result (λ two. (two.first < no_arc) × (two.second < no_arc) × TwoCheapest (record_tails records.now) (record_heads records.now) (record_weights records.now) pi.now t two.first two.second) }
{
    let two = two_cheapest(t, records, rows, pi);
    if two.second < NO_ARC as usize {
        return Some(two);
    }
    None
}

// Which of two arcs to take, the second at the cost u: the first, unless it costs as much and its tail is matched.
pub fn choose(e1: usize, e2: usize, u: u32, records: &[u32], mate: &[u16], pi: &[u32]) -> usize
    requires { Affordable (record_tails records.now) (record_weights records.now) pi.now × (e1 < length records.now) × (length mate.now ≡ length pi.now) }
    ensures { (result ≡ e1) ⊎ ((result ≡ e2) × (u ≤ bid_cost (record_tails records.now) (record_weights records.now) pi.now e1)) }
{
    let arc = arc_at(e1, records);
    if mate[arc.tail as usize] == NO_ARC {
        return e1;
    }
    if cost_of(e1, records, pi) < u {
        return e1;
    }
    e2
}

// The head of the arc that is matched at a, if there is one, becomes exposed.
fn free(a: usize, records: &[u32], mate: &mut [u16])
    requires { (a < length mate.old) × (entry mate.old a < no_arc → (entry mate.old a < length records.now) × (entry (record_heads records.now) (entry mate.old a) < length mate.old)) }
    ensures { mate.new ≡ freed (record_heads records.now) mate.old a }
{
    let e = mate[a];
    if NO_ARC <= e {
        return;
    }
    let arc = arc_at(e as usize, records);
    mate[arc.head as usize] = NO_ARC;
}

// The arc e from a to t is matched, in place of the arc that was matched at a.
fn note(a: usize, t: usize, e: usize, records: &[u32], mate: &mut [u16])
    requires a_in_bounds { (a < length mate.old) × (entry mate.old a < no_arc → (entry mate.old a < length records.now) × (entry (record_heads records.now) (entry mate.old a) < length mate.old)) }
    requires t_in_bounds { (t < length mate.old) × (e < no_arc) }
    ensures { mate.new ≡ assigned_mates (record_heads records.now) mate.old a t e }
{
    free(a, records, mate);
    mate[a] = e as u16;
    mate[t] = e as u16;
}

// t gets the potential u, and a that with which an arc of weight w between them has no reduced cost.
fn price(a: usize, t: usize, u: u32, w: u32, pi: &mut [u32])
    requires { (a < length pi.old) × (t < length pi.old) × (w ≤ u) }
    ensures { pi.new ≡ assigned_potentials pi.old a t u w }
{
    pi[t] = u;
    pi[a] = u - w;
}

// The arc e to t is taken for u.
pub fn assign(t: usize, e: usize, u: u32, records: &[u32], mate: &mut [u16], pi: &mut [u32])
    requires { Room (record_tails records.now) (record_heads records.now) (record_weights records.now) mate.old pi.old t e u }
    ensures mate_after { mate.new ≡ assigned_mates (record_heads records.now) mate.old (entry (record_tails records.now) e) t e }
    ensures pi_after { pi.new ≡ assigned_potentials pi.old (entry (record_tails records.now) e) t u (entry (record_weights records.now) e) }
{
    let arc = arc_at(e, records);
    let a = arc.tail as usize;
    note(a, t, e, records, mate);
    price(a, t, u, arc.weight, pi);
}
