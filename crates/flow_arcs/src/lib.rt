// Arcs and links as the heuristic reads them: an arc after another at the same vertex, and a residual arc forward or back.
#![tactic(auto)]

ghost use Rattle.std.specs.Prelude.{◌≡◌, ◌+◌, ◌<◌, length};
ghost use Rattle.packed_arcs.specs.Entries.{entry as entry_at};
ghost use Rattle.flow_arcs.specs.Links.{Links};
ghost use Rattle.flow_arcs.specs.Directions.{links_by};

use direction::Direction;

pub mod direction;

// Arcs, and links that chain them by tail and by head. They are only read, so they are lent all together.
#[derive(Clone, Copy)]
pub struct Network<'a> {
    pub arcs: &'a [u64],
    pub out: &'a [u16],
    pub into: &'a [u16],
    pub ghost out_links: { Links arcs.now out.now },
    pub ghost into_links: { Links arcs.now into.now },
}

impl<'a> Network<'a> {
    // The links that chain the arcs by where they start, in this direction.
    fn links(self, direction: Direction) -> &'a [u16]
        ensures links { Links self.entry.arcs.now result.now }
        ensures these { result.now ≡ links_by direction self.entry.out.now self.entry.into.now }
    {
        match direction {
            Direction::Forward => self.out,
            Direction::Back => self.into,
        }
    }

    // The first arc that starts at the vertex v.
    pub fn first_from(self, direction: Direction, v: usize) -> usize
        requires { v < 256 + length self.arcs.now }
    {
        usize::from(self.links(direction)[v])
    }

    // The next arc that starts where e starts.
    pub fn next_from(self, direction: Direction, e: usize) -> usize
        requires { e < length self.arcs.now }
        ensures later { e < result }
        ensures link { result ≡ entry_at (links_by direction self.entry.out.now self.entry.into.now) (256 + e) }
    {
        usize::from(self.links(direction)[256 + e])
    }
}
