// Ranks one after the other: the last vertex of the path gets the next one when no arc enters it from a vertex without.
#![tactic(auto)]

ghost use Rattle.std.specs.Prelude.{◌≡◌, ◌+◌, length, take};
ghost use Rattle.packed_arcs.specs.Entries.{zero_list};
ghost use Rattle.arc_index.specs.Columns.{record_tails, record_heads};
ghost use Rattle.order_path.specs.Steps.{Arcs, Chained, AllRanked, FirstUnranked, Searched};

use arc_index::{End, NO_ARC, index};
use order_path::index::first_arcs;
use order_path::path::climb;

// The first vertex without a rank, where every vertex below `from` has one.
fn first_unranked(from: usize, ranks: &[u32]) -> Option<usize>
    requires { AllRanked ranks.now from }
    ensures { FirstUnranked ranks.now result }
{
    for v in from..ranks.len() {
        if ranks[v] == 0 {
            return Some(v);
        }
    }
    None
}

// Ranks for the vertices, until all have one, or until an arc enters the path's last vertex from the path: then how many vertices are on it.
fn rank_all(
    records: &[u32],
    links: &[u16],
    ranks: &mut [u32],
    into: &mut [u16],
    path: &mut [usize],
    spot: &mut [usize],
) -> Option<usize>
    requires chained { Chained (length ranks.old) (record_tails records.now) (record_heads records.now) links.now × (into.old ≡ take (length ranks.old) links.now) }
    requires ranks_value { (ranks.old ≡ zero_list (length ranks.old)) × (length path.old ≡ length ranks.old) × (spot.old ≡ zero_list (length ranks.old)) }
    ensures { Searched (record_tails records.now) (record_heads records.now) ranks.new into.new path.new spot.new result }
{
    let mut r: u32 = 0;
    let mut root = 0;
    let mut len = 0;
    while let Some(first) = first_unranked(root, ranks) {
        root = first;
        len = climb(root, len, records, links, ranks, into, path, spot);
        let v = path[len - 1];
        if into[v] < NO_ARC {
            return Some(len);
        }
        r += 1;
        ranks[v] = r;
        spot[v] = 0;
        len -= 1;
    }
    None
}

// Indexes the arcs by head, and ranks the vertices; or the length of a path that closes a cycle.
pub fn index_and_rank(
    records: &[u32],
    ranks: &mut [u32],
    links: &mut [u16],
    into: &mut [u16],
    path: &mut [usize],
    spot: &mut [usize],
) -> Option<usize>
    requires arcs { Arcs (length ranks.old) (record_tails records.now) (record_heads records.now) × (length links.old ≡ 256 + length records.now) }
    requires ranks_value { (ranks.old ≡ zero_list (length ranks.old)) × (length into.old ≡ length ranks.old) × (length path.old ≡ length ranks.old) × (spot.old ≡ zero_list (length ranks.old)) }
    ensures { Searched (record_tails records.now) (record_heads records.now) ranks.new into.new path.new spot.new result }
{
    index(records, End::Head, links);
    first_arcs(links, into);
    rank_all(records, links, ranks, into, path, spot)
}
