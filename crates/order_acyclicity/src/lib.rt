// A depth-first search over the arcs of records: a topological order of the vertices, or the arcs of a cycle. What is not within the limits is refused, and then nothing is changed.
#![tactic(auto)]

ghost use Rattle.std.specs.Prelude.{◌≡◌, ◌+◌, length};
ghost use Rattle.packed_arcs.specs.Entries.{zero_list};
ghost use Rattle.arc_index.specs.Columns.{record_tails, record_heads};
ghost use Rattle.order_path.specs.Search.{SearchOutcome};
ghost use Rattle.order_path.specs.Steps.{Arcs, OrderOrCycle};

use arc_records::{MOST_ARCS, MOST_VERTICES};
use limits::is_searchable;
use order_cycle::mark;
use order_path::Found;
use order_ranking::index_and_rank;
use packed_arcs::OutOfLimits;

mod limits;

// The search on arrays that are 0: an order, or a cycle.
fn decide(
    records: &[u32],
    ranks: &mut [u32],
    marks: &mut [u16],
    links: &mut [u16],
    into: &mut [u16],
    path: &mut [usize],
    spot: &mut [usize],
) -> Found
    requires arcs { Arcs (length ranks.old) (record_tails records.now) (record_heads records.now) × (length links.old ≡ 256 + length records.now) }
    requires ranks_value { (ranks.old ≡ zero_list (length ranks.old)) × (marks.old ≡ zero_list (length records.now)) }
    requires into_len { (length into.old ≡ length ranks.old) × (length path.old ≡ length ranks.old) × (spot.old ≡ zero_list (length ranks.old)) }
    ensures { OrderOrCycle (record_tails records.now) (record_heads records.now) ranks.old marks.old ranks.new marks.new result }
{
    match index_and_rank(records, ranks, links, into, path, spot) {
        None => Found::Order,
        Some(len) => {
            mark(len, records, into, path, spot, marks);
            ranks.fill(0);
            Found::Cycle
        }
    }
}

// Ranks, one for each vertex, that rise along the arc of every record, and no mark; or marks on the arcs of a cycle, and ranks 0.
pub fn search(records: &[u32], ranks: &mut [u32], marks: &mut [u16]) -> Result<Found, OutOfLimits>
    ensures { SearchOutcome records.now ranks.old marks.old ranks.new marks.new result }
{
    let n = ranks.len();
    if !is_searchable(records, n, marks.len()) {
        return Err(OutOfLimits);
    }
    ranks.fill(0);
    marks.fill(0);
    let k = 256 + records.len();
    let mut links = [0u16; 256 + MOST_ARCS as usize];
    let mut into = [0u16; MOST_VERTICES as usize];
    let mut path = [0usize; MOST_VERTICES as usize];
    let mut spot = [0usize; MOST_VERTICES as usize];
    Ok(decide(
        records,
        ranks,
        marks,
        &mut links[..k],
        &mut into[..n],
        &mut path[..n],
        &mut spot[..n],
    ))
}
