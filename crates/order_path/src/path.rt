// The path of the search, backward along arcs: path[i] is its vertex at i, and spot[v] is i + 1 for that vertex, and 0 for a vertex off the path.
// The current arc into[v] of a vertex on the path leads to it from the vertex after it.
ghost use Rattle.std.specs.Prelude.{◌≡◌, ◌<◌, length};
ghost use Rattle.packed_arcs.specs.Entries.{entry};
ghost use Rattle.arc_index.specs.Columns.{record_tails, record_heads};
ghost use Rattle.order_path.specs.Steps.{Chained, Watch, Looked, Searching, Pushed, Started, Climbed};

use super::index::tail_at;
use arc_index::NO_ARC;

// An arc into v from a vertex without a rank, if there is one: the current arc of v moves on to it, past arcs from vertices with a rank.
fn look(v: usize, records: &[u32], links: &[u16], ranks: &[u32], into: &mut [u16]) -> Option<usize>
    requires chained { Chained (length ranks.now) (record_tails records.now) (record_heads records.now) links.now × (v < length ranks.now) }
    requires watch { Watch (record_tails records.now) (record_heads records.now) ranks.now into.old }
    ensures { Looked (record_tails records.now) (record_heads records.now) ranks.now into.old v into.new result }
{
    while into[v] < NO_ARC {
        let e = usize::from(into[v]);
        if ranks[tail_at(e, records)] == 0 {
            return Some(e);
        }
        into[v] = links[256 + e];
    }
    None
}

// Puts v at the end of a path of len vertices: how many there are then. No heap, so the path is a lent array with its length beside it.
fn push(v: usize, len: usize, path: &mut [usize], spot: &mut [usize]) -> usize
    requires { (len < length path.old) × (v < length spot.old) }
    ensures { Pushed v len path.old spot.old path.new spot.new result }
{
    path[len] = v;
    spot[v] = len + 1;
    len + 1
}

// The path starts at the root where it is empty: how many vertices are on it then. Its length is a number beside it, as in `push`.
fn start(root: usize, len: usize, path: &mut [usize], spot: &mut [usize]) -> usize
    requires { (0 < length path.old) × (root < length spot.old) }
    ensures { Started root len path.old spot.old path.new spot.new result }
{
    if 0 < len {
        return len;
    }
    push(root, 0, path, spot)
}

// The path grows, by a vertex without a rank from which an arc enters its last vertex, until there is none or it is on the path. Its length is a number beside it, as in `push`.
pub fn climb(
    root: usize,
    first: usize,
    records: &[u32],
    links: &[u16],
    ranks: &[u32],
    into: &mut [u16],
    path: &mut [usize],
    spot: &mut [usize],
) -> usize
    requires chained { Chained (length ranks.now) (record_tails records.now) (record_heads records.now) links.now }
    requires searching { Searching (record_tails records.now) (record_heads records.now) ranks.now into.old path.old spot.old first }
    requires root_in_bounds { (root < length ranks.now) × (entry ranks.now root ≡ 0) }
    ensures { Climbed (record_tails records.now) (record_heads records.now) ranks.now into.new path.new spot.new result }
{
    let mut len = start(root, first, path, spot);
    while let Some(e) = look(path[len - 1], records, links, ranks, into) {
        let w = tail_at(e, records);
        if 0 < spot[w] {
            break;
        }
        len = push(w, len, path, spot);
    }
    len
}
