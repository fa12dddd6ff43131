// One vertex is discharged: what stands there moves on to vertices one label lower, and where something is left its label is raised.
#![tactic(auto)]

ghost use Rattle.std.specs.Prelude.{◌≡◌, ◌<◌, ◌≤◌, length};
ghost use Rattle.flow_moves.specs.Preflow.{Ready, Moves};

use flow_arcs::Network;
use flow_arcs::direction::Direction;
use flow_labels::NO_LABEL;
use flow_pushing::{Guide, Walk, push_from};

// Raises the label of v, where something is left and no arc leads lower: the highest label that has something to push. n is the number of vertices.
fn relabel(v: usize, n: usize, net: Network<'_>, guide: &mut Guide, x: &[u16]) -> u8
    requires { (v < 256) × (n ≤ 256) × (length x.now ≡ length net.arcs.now) }
{
    let old = guide.labels.label[v];
    if guide.labels.was_last(old) {
        guide.labels.lift(old, n);
        return old;
    }
    let raised = guide.labels.raised(v, n, net, x);
    guide.labels.label[v] = raised.unwrap_or(NO_LABEL);
    let Some(l) = raised else {
        return old;
    };
    guide.labels.count_one(l);
    guide.buckets.put(v, l);
    l
}

// Pushes what stands at the vertex v; where something is left, raises its label. The highest label that has something to push.
pub fn discharge(
    v: usize,
    net: Network<'_>,
    guide: &mut Guide,
    x: &mut [u16],
    left: &mut [u32],
) -> u8
    requires { (v < length left.old) × Ready net.arcs.now x.old left.old }
    ensures { Moves net.entry.arcs.now x.old left.old x.new left.new }
{
    match push_from(v, net, guide, x, left) {
        Some(walk) => {
            guide.current[v] = walk;
            guide.labels.label[v]
        }
        // nothing stood there: the walk is at its end
        None if left[v] == 0 => {
            guide.current[v] = Walk {
                direction: Direction::Back,
                arc: net.arcs.len(),
            };
            guide.labels.label[v]
        }
        None => {
            guide.current[v] = Walk::first(Direction::Forward, v, net);
            relabel(v, left.len(), net, guide, x)
        }
    }
}
