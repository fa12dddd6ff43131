// The pair of secret points of a session and the fingerprint taken at it (PANEL 4). Nothing else knows how many points there are.
#![tactic(auto)]

ghost use Rattle.std.specs.Prelude.{◌≡◌, [], ◌∷◌, leb};
ghost use Rattle.prelude.specs.Checks.{◌unless◌, first_broken};
ghost use Rattle.refusals.specs.Refusals.{why};
ghost use Rattle.arc_records.specs.Arcs.{arc_held};
ghost use Rattle.network.specs.Network.{key};
ghost use Rattle.points.specs.Points.{no_point, point_ok, empty_print, extend_print, same_print};

use arc_records::Record;
use refusals::Refusal;

// The pair of points of a session: numbers below p, which may be equal.
#[derive(Clone, Copy, PartialEq, Eq)]
pub struct Point {
    pub first: u32,
    pub second: u32,
}

// What a list of arcs has at a pair: the product at each of its points, reduced.
#[derive(Clone, Copy, PartialEq, Eq)]
pub struct Print {
    pub first: u32,
    pub second: u32,
}

// A list of arcs as the panel keeps it: how many they are, and their fingerprint at the pair.
#[derive(Clone, Copy)]
pub struct Stream {
    pub count: u32,
    pub print: Print,
}

// The pair that a session holds while it is void.
pub fn no_point() -> Point
    ensures { result ≡ no_point }
{
    Point {
        first: 0,
        second: 0,
    }
}

// 4: are both points below p?
pub fn is_point(point: Point) -> bool
    ensures { result ≡ point_ok point }
{
    field::is_residue(point.first) && field::is_residue(point.second)
}

// The fingerprint of no arc. (Two numbers as in the pair above, but another type and another meaning.)
pub fn no_arcs() -> Print
    ensures { result ≡ empty_print }
{
    Print {
        first: 1,
        second: 1,
    }
}

// The key of an arc. In 64 bits no sum is too large.
fn key_of(arc: Record) -> u64
    ensures { result ≡ key (arc_held arc) }
{
    arc.tail as u64 * 8388608 + arc.head as u64 * 32768 + (arc.weight as u64)
}

// The fingerprint with one arc more.
pub fn with_arc(point: Point, print: Print, arc: Record) -> Print
    ensures { result ≡ extend_print point print (arc_held arc) }
{
    let key = key_of(arc);
    Print {
        first: field::extend(point.first, print.first, key),
        second: field::extend(point.second, print.second, key),
    }
}

// 14: do the two fingerprints agree, in both products?
fn is_same(read: Print, repeated: Print) -> bool
    ensures { result ≡ same_print read repeated }
{
    read == repeated
}

// The two lists of arcs at finishing: the first check that refuses them, 13 or 14.
pub fn lists_check(read: Stream, repeated: Stream) -> Result<(), Refusal>
    ensures { why result ≡ first_broken (13 unless leb read.count repeated.count ∷ 14 unless same_print read.print repeated.print ∷ []) }
{
    let m = read.count;
    let count = repeated.count;
    let first = read.print;
    let second = repeated.print;
    if count < m {
        return Err(Refusal::ArcsMissing);
    }
    if !is_same(first, second) {
        return Err(Refusal::FingerprintsDiffer);
    }
    Ok(())
}
