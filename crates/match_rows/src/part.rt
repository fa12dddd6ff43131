// The row of a vertex put in another order: the arcs from exposed vertices before the others, the two lightest of them last, so that a scan reads only as far as it has to, and mostly one arc.
ghost use Rattle.std.specs.Prelude.{◌≡◌, ◌≢◌, ℕ, ◌+◌, ◌-◌, ◌<◌, ◌≤◌, length, IfSome};
ghost use Rattle.packed_arcs.specs.Entries.{entry};
ghost use Rattle.arc_index.specs.ArcIndex.{no_arc};
ghost use Rattle.arc_index.specs.Columns.{record_tails, record_heads, record_weights};
ghost use Rattle.match_state.specs.Rows.{row_tail, Rows, Parted};
ghost use Rattle.match_rows.specs.Parting.{FrontNoted, ExposedFirst};

use arc_index::NO_ARC;
use match_state::row_record;

// More than any arc weighs.
const TOO_HEAVY: u32 = 65536;

// The position up to which arcs come from exposed vertices, that of the lightest of them, and that of the lightest of the others.
// No Option for the last two: a weight above all others stands for none while they are looked for, so that one comparison is the whole test.
#[derive(Clone, Copy)]
struct Exposed {
    end: usize,
    at: usize,
    second: usize,
}

// Where the front of the row of b ends, and how many of its last arcs are in order.
fn note(b: usize, s: usize, c: u64, rows: &mut [u64])
    requires { (b < 256) × (513 + b < length rows.old) }
    ensures { FrontNoted rows.old rows.new b s c }
{
    rows[257 + b] = s as u64;
    rows[513 + b] = c;
}

// Where the arc stands that stood at k, after the one at `from` was put at `to`.
fn moved(k: usize, from: usize, to: usize) -> usize
    ensures { (k ≡ from → result ≡ to) × (k ≢ from → result ≡ k) }
{
    if k == from {
        return to;
    }
    k
}

// Of the last c arcs before s, counted from the end, the first that comes from an exposed vertex.
fn ready(s: usize, c: usize, rows: &[u64], mate: &[u16]) -> Option<usize>
    requires { (s < 65536) × ((k : ℕ) → 0 < k → k ≤ c → (k ≤ s) × (s - k < length rows.now) × (row_tail (entry rows.now (s - k)) < length mate.now)) }
    ensures { IfSome result (λ k. (0 < k) × (k ≤ c) × (entry mate.now (row_tail (entry rows.now (s - k))) ≡ no_arc)) }
{
    for k in 1..=c {
        let arc = row_record(rows[s - k]);
        if mate[arc.tail as usize] == NO_ARC {
            return Some(k);
        }
    }
    None
}

// Puts the arcs of the front of the row of b from exposed vertices before the others. Nothing of that front may be noted as in order, for the exchanges break the order.
fn gather_exposed(b: usize, records: &[u32], rows: &mut [u64], mate: &[u16]) -> Exposed
    requires rows { Rows (record_tails records.now) (record_heads records.now) (record_weights records.now) rows.old × (b < 256) × (entry rows.old (513 + b) ≡ 0) }
    requires by_index { (e : ℕ) → e < length records.now → entry (record_tails records.now) e < length mate.now }
    ensures { ExposedFirst (record_tails records.now) (record_heads records.now) (record_weights records.now) mate.now rows.old rows.new b result.end result.at result.second }
{
    let mut i = rows[b] as usize;
    let mut end = rows[257 + b] as usize;
    let mut at = i;
    let mut second = i;
    let mut least = TOO_HEAVY;
    let mut next = TOO_HEAVY;
    // no `for`: an exchange moves the end, and the same place is looked at again
    while i < end {
        let arc = row_record(rows[i]);
        if mate[arc.tail as usize] != NO_ARC {
            end -= 1;
            rows.swap(i, end);
            continue;
        }
        let weight = arc.weight;
        i += 1;
        if next <= weight {
            continue;
        }
        if least <= weight {
            second = i - 1;
            next = weight;
            continue;
        }
        second = at;
        next = least;
        at = i - 1;
        least = weight;
    }
    Exposed { end, at, second }
}

// Looks at the whole front of the row of b: the arcs from exposed vertices stay in it, the lightest last and the next one before it. The position of the lightest, or where the row begins if there is none.
fn gather_again(b: usize, records: &[u32], rows: &mut [u64], mate: &[u16]) -> usize
    requires rows { Rows (record_tails records.now) (record_heads records.now) (record_weights records.now) rows.old × (b < 256) }
    requires by_index { (e : ℕ) → e < length records.now → entry (record_tails records.now) e < length mate.now }
    ensures { Parted (record_tails records.now) (record_heads records.now) (record_weights records.now) mate.now rows.old rows.new b result }
{
    rows[513 + b] = 0;
    let exposed = gather_exposed(b, records, rows, mate);
    let end = exposed.end;
    let first = rows[b] as usize;
    if end <= first {
        note(b, end, 0, rows);
        return end;
    }
    let last = end - 1;
    rows.swap(exposed.at, last);
    if last <= first {
        note(b, end, 1, rows);
        return last;
    }
    let second = moved(exposed.second, last, exposed.at);
    rows.swap(second, last - 1);
    note(b, end, 2, rows);
    last
}

// The position of the lightest arc to b from an exposed vertex, before which the row holds none that weighs less; where the row begins if there is no such arc.
// Mostly the arc that was the lightest when the front was last looked at still comes from an exposed vertex, or the next one does: then only one or two arcs are read.
pub fn part_row(b: usize, records: &[u32], rows: &mut [u64], mate: &[u16]) -> usize
    requires rows { Rows (record_tails records.now) (record_heads records.now) (record_weights records.now) rows.old × (b < 256) }
    requires by_index { (e : ℕ) → e < length records.now → entry (record_tails records.now) e < length mate.now }
    ensures { Parted (record_tails records.now) (record_heads records.now) (record_weights records.now) mate.now rows.old rows.new b result }
{
    let s = rows[257 + b] as usize;
    let c = rows[513 + b] as usize;
    let Some(k) = ready(s, c, rows, mate) else {
        return gather_again(b, records, rows, mate);
    };
    if 1 < k {
        note(b, s - 1, 1, rows);
    }
    s - k
}
