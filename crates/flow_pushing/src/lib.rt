// Pushing what stands at a vertex to vertices one label lower: forward along its arcs that have room, and back along those into it that carry something.
#![tactic(auto)]

ghost use Rattle.std.specs.Prelude.{◌<◌, length};
ghost use Rattle.flow_moves.specs.Preflow.{Ready, Moves};

use buckets::Buckets;
use flow_arcs::Network;
use flow_arcs::direction::Direction;
use flow_labels::Labels;
use flow_moves::shift;

pub mod buckets;

// A residual arc of a vertex, and the vertex's next ones in the same direction.
#[derive(Clone, Copy)]
pub struct Walk {
    pub direction: Direction,
    pub arc: usize,
}

impl Walk {
    // All the residual arcs from v in this direction.
    pub fn first(direction: Direction, v: usize, net: Network<'_>) -> Self
        requires { v < 256 }
    {
        let arc = net.first_from(direction, v);
        Walk { direction, arc }
    }
}

// What guides the pushes: the labels, who waits by label, and for each vertex the arc where its next push goes on.
#[derive(Drop)]
pub struct Guide {
    pub labels: Labels,
    pub buckets: Buckets,
    pub current: [Walk; 256],
}

impl Guide {
    // No vertex has a label, and nobody waits.
    pub fn new() -> Self {
        let direction = Direction::Forward;
        Guide {
            labels: Labels::new(),
            buckets: Buckets::new(),
            current: [Walk { direction, arc: 0 }; 256],
        }
    }
}

// Pushes along the residual arc e, where there is such an arc and the label of its end is wanted: is nothing left at its start?
fn give<F: Fn(u8) -> bool>(
    direction: Direction,
    e: usize,
    is_wanted: &F,
    net: Network<'_>,
    guide: &mut Guide,
    x: &mut [u16],
    left: &mut [u32],
) -> bool
    requires callable { F.IsAlwaysCallable is_wanted.now }
    requires ready { (e < length net.arcs.now) × Ready net.arcs.now x.old left.old }
    ensures { Moves net.entry.arcs.now x.old left.old x.new left.new }
{
    let arc = net.arcs[e];
    let b = direction.end_of(arc);
    let l = guide.labels.label[b];
    if !is_wanted(l) || direction.room(arc, x[e]) == 0 {
        return false;
    }
    // where something stood at b, it is in its bucket already
    if left[b] == 0 {
        guide.buckets.put(b, l);
    }
    shift(direction, e, net.arcs, x, left) == 0
}

// Pushes along the residual arcs of a walk to vertices whose labels are wanted: where in it nothing was left.
pub fn give_all<F: Fn(u8) -> bool>(
    walk: Walk,
    is_wanted: &F,
    net: Network<'_>,
    guide: &mut Guide,
    x: &mut [u16],
    left: &mut [u32],
) -> Option<Walk>
    requires callable { F.IsAlwaysCallable is_wanted.now }
    requires ready { Ready net.arcs.now x.old left.old }
    ensures { Moves net.entry.arcs.now x.old left.old x.new left.new }
{
    let direction = walk.direction;
    let mut e = walk.arc;
    while e < net.arcs.len() {
        if give(direction, e, is_wanted, net, guide, x, left) {
            return Some(Walk { direction, arc: e });
        }
        e = net.next_from(direction, e);
    }
    None
}

// Pushes what stands at v to vertices one label lower, from its current arc on: the arc where nothing was left.
pub fn push_from(
    v: usize,
    net: Network<'_>,
    guide: &mut Guide,
    x: &mut [u16],
    left: &mut [u32],
) -> Option<Walk>
    requires { (v < 256) × Ready net.arcs.now x.old left.old }
    ensures { Moves net.entry.arcs.now x.old left.old x.new left.new }
{
    // no label is below 0: there it is NO_LABEL
    let below = guide.labels.label[v].wrapping_sub(1);
    let is_below = |l: u8| l == below;
    let Walk { direction, arc } = guide.current[v];
    // each walk is told its direction outright, so that the two are compiled apart
    if direction == Direction::Back {
        let back = Walk {
            direction: Direction::Back,
            arc,
        };
        return give_all(back, &is_below, net, guide, x, left);
    }
    let forward = Walk {
        direction: Direction::Forward,
        arc,
    };
    let stopped = give_all(forward, &is_below, net, guide, x, left);
    if stopped.is_some() {
        return stopped;
    }
    let back = Walk::first(Direction::Back, v, net);
    give_all(back, &is_below, net, guide, x, left)
}
