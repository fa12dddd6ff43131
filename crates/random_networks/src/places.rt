// What is known of a network besides its files, the pairs of points to judge at, and what judging says there.
use judging::judge;
use points::Point;
use reference::arcs::Arc;
use reference::instances::Net;
use reference::random::below;
use testing::answers::Judged;

// The network, one of its arcs, and its true answer.
#[derive(Clone, Copy)]
pub struct Case {
    pub net: Net,
    pub arc: Arc,
    pub answer: Option<u64>,
}

impl Case {
    // A number below the limit that looks random, for a round and a purpose.
    pub fn below(self, limit: usize, round: usize, purpose: usize) -> usize {
        below(limit, self.net.seed, round, purpose)
    }

    // A point that looks random.
    pub fn any_point(self, place: usize) -> u32 {
        (self.below(2147483647, place, 5) & 0xffffffff) as u32
    }

    // Two of them.
    pub fn any_pair(self, place: usize) -> Point {
        Point {
            first: self.any_point(place),
            second: self.any_point(place.saturating_add(64)),
        }
    }

    // The key of the arc twice, where both products are 0.
    pub fn key_twice(self) -> Point {
        let key = self.arc.key();
        Point {
            first: key,
            second: key,
        }
    }
}

// How many pairs of points every annotation is judged at.
pub const PAIRS: usize = 6;

// 0 and p - 1, 1 twice, p - 1 and any, the key of an arc, at which the product is 0, and any, that key twice, and any two.
pub fn pairs(c: Case) -> [Point; PAIRS] {
    [
        Point {
            first: 0,
            second: 2147483646,
        },
        Point {
            first: 1,
            second: 1,
        },
        Point {
            first: 2147483646,
            second: c.any_point(2),
        },
        Point {
            first: c.arc.key(),
            second: c.any_point(3),
        },
        c.key_twice(),
        c.any_pair(5),
    ]
}

// How many of some points give another answer than a wanted one.
pub fn others(net: &[u8], ann: &[u8], points: &[Point], wanted: Judged) -> usize {
    points
        .iter()
        .filter(|point| judge(net, ann, **point) != wanted)
        .count()
}
