// Twisted annotations at the key of an arc that stands in the network and in the annotation: both products are 0 there, so that this point
// sees nothing of a twist. The other point of a pair has to see it, and where both are the key nothing does.
use super::annotations::{arc, arc_at};
use super::places::{Case, others};
use super::tally::Tally;
use judging::judge;
use points::Point;
use refusals::Refusal;
use testing::answers::Judged;
use testing::tally::add;

// Does the arc whose key is known stand among the first m of an annotation?
fn stands(c: Case, ann: &[u8], m: usize) -> bool {
    (0..m).any(|i| arc(ann, arc_at(c.net.n, i)) == c.arc)
}

fn differ(said: Judged) -> bool {
    said == Err(Refusal::FingerprintsDiffer)
}

// Judges a twisted annotation of m arcs with the key as one of the points, where the same has to come as was said at another pair, and
// with the key as both.
pub fn judge_at_key(
    c: Case,
    net: &[u8],
    ann: &[u8],
    m: usize,
    place: usize,
    said: Judged,
    tally: &mut Tally,
) {
    if !stands(c, ann, m) {
        return;
    }
    let key = c.arc.key();
    let any = c.any_point(place);
    let at_one = [
        Point {
            first: key,
            second: any,
        },
        Point {
            first: any,
            second: key,
        },
    ];
    let wrong = others(net, ann, &at_one, said);
    let both = usize::from(differ(judge(net, ann, c.key_twice())));
    add(&mut tally.collided.twists, 1);
    add(&mut tally.collided.seen, usize::from(differ(said)));
    add(&mut tally.collided.seen_at_both, both);
    add(&mut tally.collided.wrong, wrong);
    add(&mut tally.wrong, wrong.saturating_add(both));
}
