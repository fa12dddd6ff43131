// Lists by vertex: what stands at each when a flow search is asked, and the numbers written from what it found.
ghost use Rattle.std.specs.Prelude.{◌≡◌, ℕ, ◌<◌, ◌≤◌, length};
ghost use Rattle.arc_records.specs.Limits.{most_vertices, most_potential};
ghost use Rattle.cert_instances.specs.Certify.{NodeNumbers};
ghost use Rattle.packed_arcs.specs.Entries.{entry};
ghost use Rattle.cert_instances.specs.Instance.{VertexList, single, reached, number_of};

use arc_records::MOST_POTENTIAL;
use flow_search::UNREACHED;

// One unit stands at the vertex k.
pub fn stand(k: u8, list: &mut [u32])
    requires { length list.old ≤ most_vertices }
    ensures { VertexList (length list.old) (single k 1) list.new }
{
    let k = usize::from(k);
    list.fill(0);
    if k < list.len() {
        list[k] = 1;
    }
}

// By a kind, not by a closure: the definition NodeNumbers says by kind what each caller writes, and with a closure each would need a clause for it.
// What is written for a vertex: whether its key is reached, the distance that its key holds, or its potential or rank as it stands.
#[derive(Clone, Copy)]
pub enum NumberKind {
    Mark,
    Distance,
    Potential,
}

// Did the search reach the vertex of the key?
fn is_reached(key: u32) -> bool
    ensures { result ≡ reached key }
{
    key < UNREACHED
}

// The number that is written for k.
fn number_of(kind: NumberKind, k: u32) -> u32
    ensures { result ≡ number_of kind k }
{
    match kind {
        NumberKind::Mark => u32::from(is_reached(k)),
        NumberKind::Distance if is_reached(k) => k / 256,
        NumberKind::Distance => MOST_POTENTIAL as u32,
        NumberKind::Potential => k,
    }
}

// Writes the number of every vertex.
pub fn write(kind: NumberKind, from: &[u32], numbers: &mut [i32])
    requires { (length numbers.old ≡ length from.now) × ((v : ℕ) → v < length from.now → number_of kind (entry from.now v) ≤ most_potential) }
    ensures { NodeNumbers kind from.now numbers.new }
{
    for (v, k) in from.iter().enumerate() {
        numbers[v] = number_of(kind, *k) as i32;
    }
}
