// The two stages: from the source towards the sink, and what is left over back to the source. Where a stage takes long, labels are made exact again in between.
#![tactic(auto)]

ghost use Rattle.std.specs.Prelude.{◌≡◌, ◌<◌, length};
ghost use Rattle.flow_moves.specs.Preflow.{Ready, Moves};

use flow_arcs::Network;
use flow_arcs::direction::Direction;
use flow_draining::drain_all;
use flow_labels::NO_LABEL;
use flow_pushing::{Guide, Walk, give_all};

// Labels by how far it is to the root. The vertex shut has no label, so that nothing is pushed to it or from it.
fn label_toward(root: usize, shut: usize, net: Network<'_>, guide: &mut Guide, x: &[u16])
    requires { (root < 256) × (shut < 256) × (length x.now ≡ length net.arcs.now) }
{
    guide.labels.label_from(root, net, x);
    guide.labels.label[shut] = NO_LABEL;
}

// Rounds by exact labels until nothing is left that reaches the root, and 256 at the most.
fn push_toward(
    root: usize,
    shut: usize,
    net: Network<'_>,
    guide: &mut Guide,
    x: &mut [u16],
    left: &mut [u32],
)
    requires root_in_bounds { (root < length left.old) × (shut < length left.old) }
    requires ready { Ready net.arcs.now x.old left.old }
    ensures { Moves net.entry.arcs.now x.old left.old x.new left.new }
{
    for _ in 0..256 {
        label_toward(root, shut, net, guide, x);
        if drain_all(net, guide, x, left) {
            return;
        }
    }
}

// ---- to the sink

// Pushes from s towards t. The supply leaves s before the first round, along arcs whose heads reach t.
pub fn push_to_sink(
    s: usize,
    t: usize,
    net: Network<'_>,
    guide: &mut Guide,
    x: &mut [u16],
    left: &mut [u32],
)
    requires s_in_bounds { (s < length left.old) × (t < length left.old) }
    requires ready { Ready net.arcs.now x.old left.old }
    ensures { Moves net.entry.arcs.now x.old left.old x.new left.new }
{
    label_toward(t, s, net, guide, x);
    let arcs = Walk::first(Direction::Forward, s, net);
    give_all(arcs, &|l: u8| l != NO_LABEL, net, guide, x, left);
    if !drain_all(net, guide, x, left) {
        push_toward(t, s, net, guide, x, left);
    }
}

// ---- back to the source

// Is nothing left over at any vertex but s and t?
fn is_drained(s: usize, t: usize, left: &[u32]) -> bool {
    left.iter()
        .enumerate()
        .all(|(v, stands)| v == s || v == t || *stands == 0)
}

// Pushes what is left over at other vertices than s and t back to s.
pub fn push_to_source(
    s: usize,
    t: usize,
    net: Network<'_>,
    guide: &mut Guide,
    x: &mut [u16],
    left: &mut [u32],
)
    requires s_in_bounds { (s < length left.old) × (t < length left.old) }
    requires ready { Ready net.arcs.now x.old left.old }
    ensures { Moves net.entry.arcs.now x.old left.old x.new left.new }
{
    if !is_drained(s, t, left) {
        push_toward(s, t, net, guide, x, left);
    }
}
