// What stands at the vertices moves on towards the root of the labels, highest label first.
#![tactic(auto)]

ghost use Rattle.std.specs.Prelude.{◌<◌, ◌≤◌, length};
ghost use Rattle.flow_moves.specs.Preflow.{Ready, Moves};

use flow_arcs::Network;
use flow_arcs::direction::Direction;
use flow_discharging::discharge;
use flow_labels::NO_LABEL;
use flow_pushing::{Guide, Walk};

// Serves the first vertex in the bucket of the label top: a label above which nobody has something to push.
fn serve_first(top: u8, net: Network<'_>, guide: &mut Guide, x: &mut [u16], left: &mut [u32]) -> u8
    requires { Ready net.arcs.now x.old left.old }
    ensures { Moves net.entry.arcs.now x.old left.old x.new left.new }
{
    let v = guide.buckets.take_first(top);
    if left.len() <= v {
        return 0;
    }
    if guide.labels.label[v] != top {
        return top;
    }
    discharge(v, net, guide, x, left)
}

// Serves the vertices with something to push, of which none has a label above highest, highest label first, and stops in any case after 1000 of them: whether nobody
// waits.
fn drain(highest: u8, net: Network<'_>, guide: &mut Guide, x: &mut [u16], left: &mut [u32]) -> bool
    requires { Ready net.arcs.now x.old left.old }
    ensures { Moves net.entry.arcs.now x.old left.old x.new left.new }
{
    let mut l = highest;
    for _ in 0..1000 {
        let Some(top) = guide.buckets.highest(l) else {
            return true;
        };
        l = serve_first(top, net, guide, x, left);
    }
    false
}

// Each of the n vertices starts at its first arc.
fn start_walks(n: usize, net: Network<'_>, guide: &mut Guide)
    requires { n ≤ 256 }
{
    for v in 0..n {
        guide.current[v] = Walk::first(Direction::Forward, v, net);
    }
}

// Puts v into the bucket of its label, where something stands there and it has a label: that label, else 0.
fn await_turn(v: usize, stands: u32, guide: &mut Guide) -> u8
    requires { v < 256 }
{
    let l = guide.labels.label[v];
    if l == NO_LABEL || stands == 0 {
        return 0;
    }
    guide.buckets.put(v, l);
    l
}

// Every vertex with a label where something stands is put into its bucket: the highest of these labels. Labels may be of a network with more vertices.
fn fill_buckets(guide: &mut Guide, left: &[u32]) -> u8
    requires { length left.now ≤ 256 }
{
    guide.buckets.clear();
    let mut highest = 0;
    for (v, stands) in left.iter().enumerate() {
        highest = await_turn(v, *stands, guide).max(highest);
    }
    highest
}

// Pushes what stands at the vertices towards the root of the labels: whether nothing that has a label is left.
pub fn drain_all(net: Network<'_>, guide: &mut Guide, x: &mut [u16], left: &mut [u32]) -> bool
    requires { Ready net.arcs.now x.old left.old }
    ensures { Moves net.entry.arcs.now x.old left.old x.new left.new }
{
    let highest = fill_buckets(guide, left);
    guide.labels.count_all(left.len());
    start_walks(left.len(), net, guide);
    drain(highest, net, guide, x, left)
}
