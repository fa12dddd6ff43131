// Basins: where one stands in an annotation, and what it may carry there.
use super::annotations::{amount, arc, arc_at};
use super::places::Case;
use reference::instances::Question;
use reference::random::modulo;

// The first place of an arc from e on, round the annotation's end to its front, whose arc is as wanted.
pub fn first<F: Fn(usize) -> bool>(c: Case, e: usize, wanted: F) -> Option<usize>
    requires { F.IsAlwaysCallable wanted }
{
    for k in 0..c.net.count {
        let i = modulo(e.saturating_add(k), c.net.count);
        if wanted(i) {
            return Some(i);
        }
    }
    None
}

// The first basin of an annotation from arc e on.
pub fn next(c: Case, ann: &[u8], e: usize) -> Option<usize> {
    first(c, e, |i| arc(ann, arc_at(c.net.n, i)).is_self_loop())
}

// Is an annotation that was right still right if a basin of weight w carries x? Where loops are asked for it shows one by itself.
fn may_carry(c: Case, w: u16, x: u16) -> bool {
    match c.net.question {
        Question::Loops => x == 1,
        Question::Discharge => x <= w,
        _ if c.answer.is_none() => x == 0,
        _ => x == 0 || x == 1 && w == 0,
    }
}

// Is the arc at a place of an annotation a basin that may carry its amount?
pub fn is_allowed(c: Case, ann: &[u8], at: usize) -> bool {
    let arc = arc(ann, at);
    arc.is_self_loop() && may_carry(c, arc.weight, amount(ann, at))
}
