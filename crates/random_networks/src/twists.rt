// One thing changed in an annotation.
use super::annotations::{
    CLAIM, COUNT, amount, arc, arc_at, exchange, node_number, number_at, put_amount,
    put_node_number,
};
use super::places::Case;
use super::{other_pumps, self_loops, site_marks};
use reference::arcs::Arc;
use reference::instances::Question;
use reference::random::modulo;
use testing::bytes::{get, put};

#[derive(Clone, Copy, PartialEq, Eq)]
pub enum Kind {
    Amount,
    NodeNumber,
    Weight,
    LeftOut,
    Claim,
    // Another arc in place of one.
    Replaced,
    TwoWeights,
    // A basin is given an amount; in a pairing, which has no basins, a site another pump, or a mark where the answer is none.
    Given,
}

pub const KINDS: [Kind; 8] = [
    Kind::Amount,
    Kind::NodeNumber,
    Kind::Weight,
    Kind::LeftOut,
    Kind::Claim,
    Kind::Replaced,
    Kind::TwoWeights,
    Kind::Given,
];

// Each kind is tried three times, differently.
#[derive(Clone, Copy, PartialEq, Eq)]
pub enum Round {
    First,
    Second,
    Third,
}

pub const ROUNDS: [Round; 3] = [Round::First, Round::Second, Round::Third];

// What has to come of a twisted annotation: a refusal, the true answer still, or either.
#[derive(Clone, Copy, PartialEq, Eq)]
pub enum Due {
    Refused,
    Right,
    Either,
}

// Is there anything to give to?
fn can_give(c: Case, ann: &[u8]) -> bool {
    if c.net.question == Question::Pairing {
        return c.answer.is_none() || other_pumps::applies(c, ann);
    }
    self_loops::next(c, ann, 0).is_some()
}

// Is there anything to change? Without arcs there is a node number and the claim.
pub fn applies(kind: Kind, c: Case, ann: &[u8]) -> bool {
    match kind {
        Kind::Given => can_give(c, ann),
        Kind::NodeNumber | Kind::Claim => true,
        _ => c.net.count != 0,
    }
}

// The arc to change, by the round.
fn chosen(c: Case, round: Round) -> usize {
    c.below(c.net.count, round as usize, 6)
}

// The vertex whose number is changed.
fn chosen_vertex(c: Case, round: Round) -> usize {
    c.below(usize::from(c.net.n), round as usize, 7)
}

// Changes bits of a byte, by turns.
fn flip(ann: &mut [u8], at: usize, round: Round) {
    let bits = match round {
        Round::First => 1,
        Round::Second => 2,
        Round::Third => 3,
    };
    let [old] = get::<1>(ann, at);
    put(ann, at, [old ^ bits]);
}

// Makes the claim the other one.
fn turn_claim(ann: &mut [u8]) {
    let [old] = get::<1>(ann, CLAIM);
    put(ann, CLAIM, [old ^ 3]);
}

// Arc e goes to the end, and the count is one less.
fn leave_out(ann: &mut [u8], c: Case, e: usize) {
    let last = c.net.count.saturating_sub(1);
    exchange(ann, arc_at(c.net.n, e), arc_at(c.net.n, last));
    put(ann, COUNT, ((last & 0xffff) as u16).to_be_bytes());
}

// The ends and the weight of another arc; are the arcs the same then?
fn replace(ann: &mut [u8], at: usize, from: usize) -> bool {
    let old = arc(ann, at);
    let new = arc(ann, from);
    put(ann, at, <[u8; 4]>::from(new));
    old == new
}

// Adds to the weight of an arc.
fn add(ann: &mut [u8], at: usize, d: u16) {
    let Arc { ends, weight } = arc(ann, at);
    let heavier = Arc {
        ends,
        weight: weight.wrapping_add(d),
    };
    put(ann, at, <[u8; 4]>::from(heavier));
}

// One weight one more and another one less, so that the sum of the keys stays; are the arcs the same then, in another order?
// Of one arc alone the weight is one less.
fn two_weights(ann: &mut [u8], at: usize, from: usize) -> bool {
    let old = arc(ann, from);
    add(ann, from, u16::MAX);
    if at == from {
        return false;
    }
    add(ann, at, 1);
    arc(ann, at) == old
}

// An arc other than e, if there is one.
fn another(c: Case, e: usize, round: Round) -> usize {
    let steps = c.below(c.net.count.saturating_sub(1), round as usize, 4);
    modulo(e.saturating_add(steps).saturating_add(1), c.net.count)
}

// What has to come of an annotation whose arcs are the same, in any order, or are not. Two weights may be exchanged where loops are asked
// for, since they mean nothing there.
fn with_arcs(c: Case, same: bool) -> Due {
    if !same {
        return Due::Refused;
    }
    if c.net.question == Question::Loops {
        return Due::Right;
    }
    Due::Either
}

// Gives a basin an amount: 1, its weight, or one more, by the round. For loops, where weights mean nothing, that is 1.
fn fill(c: Case, ann: &mut [u8], at: usize, round: Round) {
    let weight = match c.net.question {
        Question::Loops => 1,
        _ => arc(ann, at).weight,
    };
    let x = match round {
        Round::First => 1,
        Round::Second => weight,
        Round::Third => weight.wrapping_add(1),
    };
    put_amount(ann, at, x);
}

// What has to come of an annotation that is still right, or is not.
fn right_if(still: bool) -> Due {
    if still { Due::Right } else { Due::Refused }
}

// What has to come of it if only the amount of the arc at a place was changed, which cancels in a basin and nowhere else.
fn with_amount(c: Case, ann: &[u8], at: usize) -> Due {
    right_if(self_loops::is_allowed(c, ann, at))
}

// What has to come of it if only a node number was changed, each of which counts once in the sum of a pairing that there is.
fn with_number(c: Case) -> Due {
    if c.net.question == Question::Pairing && c.answer.is_some() {
        return Due::Refused;
    }
    Due::Either
}

// Gives the first basin from arc e on an amount; what has to come of it.
fn filled(round: Round, c: Case, ann: &mut [u8], e: usize) -> Due {
    let basin = self_loops::next(c, ann, e).unwrap_or(c.net.count);
    let at = arc_at(c.net.n, basin);
    fill(c, ann, at, round);
    with_amount(c, ann, at)
}

// Gives something to a site, or to a basin; what has to come of it.
fn given(round: Round, c: Case, ann: &mut [u8], e: usize) -> Due {
    match c.net.question {
        Question::Pairing if c.answer.is_none() => right_if(site_marks::give(round, c, ann)),
        Question::Pairing => right_if(other_pumps::give(round, c, ann, e)),
        _ => filled(round, c, ann, e),
    }
}

// Gives the head of an arc the node number of its tail.
fn level(ann: &mut [u8], at: usize) {
    let arc = arc(ann, at);
    let y = node_number(ann, arc.tail());
    put_node_number(ann, arc.head(), y);
}

// Changes a node number where loops are asked for; what has to come of it. With a loop all have to be 0. Else the highest is right where
// no arc leaves the vertex, and the lowest where none enters it; and an arc whose ends have the same does not rise.
fn ranked(round: Round, c: Case, ann: &mut [u8]) -> Due {
    let v = chosen_vertex(c, round);
    if c.answer.is_none() {
        put_node_number(ann, v, 1 + round as u32);
        return Due::Refused;
    }
    if round == Round::Third && c.net.count != 0 {
        level(ann, arc_at(c.net.n, chosen(c, round)));
        return Due::Refused;
    }
    let extreme = match round {
        Round::Second => 4286644478,
        _ => 8322818,
    };
    put_node_number(ann, v, extreme);
    Due::Either
}

// Changes the amount of arc e. Where loops are asked for, a basin is given one: if 1 were taken off, that might have been the only loop
// that was shown.
fn other_amount(round: Round, c: Case, ann: &mut [u8], e: usize) -> Due {
    if c.net.question == Question::Loops && self_loops::next(c, ann, e) == Some(e) {
        return filled(round, c, ann, e);
    }
    let at = arc_at(c.net.n, e);
    flip(ann, at.saturating_add(5), round);
    with_amount(c, ann, at)
}

// Changes a node number.
fn other_number(round: Round, c: Case, ann: &mut [u8]) -> Due {
    if c.net.question == Question::Loops {
        return ranked(round, c, ann);
    }
    let at = number_at(chosen_vertex(c, round));
    flip(ann, at.saturating_add(3), round);
    with_number(c)
}

// Changes one thing of a kind somewhere; what has to come of it.
pub fn twist(kind: Kind, round: Round, c: Case, ann: &mut [u8]) -> Due {
    let e = chosen(c, round);
    let at = arc_at(c.net.n, e);
    let from = arc_at(c.net.n, another(c, e, round));
    match kind {
        Kind::Amount => return other_amount(round, c, ann, e),
        Kind::NodeNumber => return other_number(round, c, ann),
        Kind::Given => return given(round, c, ann, e),
        Kind::Replaced => return with_arcs(c, replace(ann, at, from)),
        Kind::TwoWeights => return with_arcs(c, two_weights(ann, at, from)),
        Kind::Weight => flip(ann, at.saturating_add(3), round),
        Kind::LeftOut => leave_out(ann, c, e),
        Kind::Claim => turn_claim(ann),
    }
    Due::Refused
}
