// The arcs of a cycle, marked.
#![tactic(auto)]

ghost use Rattle.std.specs.Prelude.{◌≡◌, length};
ghost use Rattle.packed_arcs.specs.Entries.{zero_list};
ghost use Rattle.arc_index.specs.Columns.{record_tails, record_heads};
ghost use Rattle.order_path.specs.Search.{Circulation};
ghost use Rattle.order_path.specs.Steps.{Arcs, ClosedPath};

use order_path::index::tail_at;

// Marks the arcs of the cycle that the path closes: the current arcs of its vertices, from that one on from which an arc enters the last.
pub fn mark(
    len: usize,
    records: &[u32],
    into: &[u16],
    path: &[usize],
    spot: &[usize],
    marks: &mut [u16],
)
    requires arcs { Arcs (length into.now) (record_tails records.now) (record_heads records.now) }
    requires closed_path { ClosedPath (length into.now) (record_tails records.now) (record_heads records.now) into.now path.now spot.now len }
    requires marks_value { marks.old ≡ zero_list (length records.now) }
    ensures { Circulation (record_tails records.now) (record_heads records.now) marks.new }
{
    let top = path[len - 1];
    let w = tail_at(usize::from(into[top]), records);
    let first = spot[w] - 1;
    for v in &path[first..len] {
        marks[usize::from(into[*v])] = 1;
    }
}
