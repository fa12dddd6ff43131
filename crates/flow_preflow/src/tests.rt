// Draining, after a preflow, by labels that the number of vertices does not bound.
ghost use Rattle.std.specs.Prelude.{◌<◌};

use super::preflow;
use flow_arcs::Network;
use flow_draining::drain_all;
use flow_pushing::Guide;
use packed_arcs::OutOfLimits;

// From 2 to 1 and from 1 to 0, at no cost, with room for 10 each.
const ARCS: [u64; 2] = [0x0a_0000_0102, 0x0a_0000_0001];

fn set_label(v: usize, l: u8, guide: &mut Guide)
    requires { v < 256 }
{
    guide.labels.label[v] = l;
}

// Drains 5 that stand at 2, where a preflow from 2 to 2 leaves them, by the labels of the guide.
fn drained(
    guide: &mut Guide,
    x: &mut [u16],
    left: &mut [u32],
    out: &mut [u16],
    into: &mut [u16],
) -> Result<bool, OutOfLimits> {
    preflow(&ARCS, 2, 2, 5, x, left, out, into)?;
    let arcs = &ARCS;
    Ok(drain_all(Network { arcs, out, into }, guide, x, left))
}

// What stands at 2 goes on to 0, whatever the label of 0 is while 2 has one: also above the number of vertices.
#[test]
fn labels_above_the_vertices(rt: HostRuntime) {
    for lowest in [0u8, 1, 2, 3, 100, 198, 252] {
        let mut guide = Guide::new();
        set_label(0, lowest, &mut guide);
        set_label(1, lowest + 1, &mut guide);
        set_label(2, lowest + 2, &mut guide);
        let mut x = [0u16; 2];
        let mut left = [0u32; 3];
        let mut out = [0u16; 258];
        let mut into = [0u16; 258];
        let drained = drained(&mut guide, &mut x, &mut left, &mut out, &mut into);
        assert_eq!(rt; drained.ok(), Some(true), "at {lowest}");
        assert_eq!(rt; x, [5, 5], "at {lowest}");
        assert_eq!(rt; left, [5, 0, 0], "at {lowest}");
    }
}
