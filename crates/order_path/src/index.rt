// The arcs into each vertex, by the index of the arcs by head: where they begin, and from where they come.
ghost use Rattle.std.specs.Prelude.{◌≡◌, ◌<◌, ◌≤◌, length, take};
ghost use Rattle.packed_arcs.specs.Entries.{entry};
ghost use Rattle.arc_index.specs.Columns.{record_tails};

use arc_records::arc_in;

// The tail of the arc e.
pub fn tail_at(e: usize, records: &[u32]) -> usize
    requires { e < length records.now }
    ensures { result ≡ entry (record_tails records.now) e }
{
    arc_in(records[e]).tail as usize
}

// The current arc of each vertex is its first one.
pub fn first_arcs(links: &[u16], into: &mut [u16])
    requires { length into.old ≤ length links.now }
    ensures { into.new ≡ take (length into.old) links.now }
{
    let n = into.len();
    into.copy_from_slice(&links[..n]);
}
