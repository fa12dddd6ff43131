// The index of packed arcs by one of their ends.
ghost use Rattle.std.specs.Prelude.{◌≡◌};
ghost use Rattle.prelude.specs.Choice.{pick};
ghost use Rattle.arc_index.specs.ArcIndex.{links_of, packed_end, packed_ends, indexable};

use super::{Arc, End, index_arcs};
use packed_arcs::arcs::{head_of, tail_of};

impl Arc for u64 {
    ghost end_of = { packed_end };

    fn end(self, end: End) -> u8 {
        match end {
            End::Tail => tail_of(self) as u8,
            End::Head => head_of(self) as u8,
        }
    }
}

// The links of the index of packed arcs by an end, as index_arcs.
pub fn index_packed(arcs: &[u64], end: End, links: &mut [u16]) -> bool
    ensures { (result ≡ indexable arcs.now links.old) × (links.new ≡ pick (indexable arcs.now links.old) (links_of (packed_ends end arcs.now)) links.old) }
{
    index_arcs(arcs, end, links)
}
