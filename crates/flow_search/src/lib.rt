// A search over the residual network, from every vertex with supply left: the vertex that waits with the least key is taken, and the residual arcs from it are looked at along the two indices.
#![tactic(auto)]

ghost use Rattle.std.specs.Prelude.{◌≡◌, true, false, ◌≤◌, length};
ghost use Rattle.arc_index.specs.Chains.{Chains};
ghost use Rattle.flow_relaxing.specs.Relaxing.{residual_in, SearchReady};
ghost use Rattle.flow_search.specs.Search.{starts, Looking, first_code, ScannedFrom, BackwardIndex};
ghost use Rattle.packed_arcs.specs.PackedArcs.{tails_of};
ghost use Rattle.vertex_queue.specs.VertexQueue.{Holds, nobody};
ghost use Rattle.flow_residual.specs.Phase.{first_key, StartOutcome, SearchResult};

pub use flow_relaxing::Network;
use flow_relaxing::relax;
use vertex_queue::VertexQueue;

// The key of a vertex that is not reached. Memory is fixed, and keys are compared as numbers: no Option.
pub const UNREACHED: u32 = 2147483648;

// A flag says which way, since the definitions of the residual network have one.
// Looks at the residual arcs from u, which was taken with the key k: those forward along the index by tail, or those back along the index by head.
fn scan(
    back: bool,
    u: usize,
    k: u32,
    net: Network<'_>,
    links: &[u16],
    key: &mut [u32],
    par: &mut [u16],
    queue: &mut VertexQueue,
)
    requires chains { Chains (starts (residual_in net) back) links.now × (length par.old ≡ length key.old) × SearchReady (residual_in net) (length key.old) }
    requires looking { Looking (residual_in net) key.old queue.old.keys queue.old.low u k (first_code back) }
    ensures { ScannedFrom (residual_in net.entry) back u k key.old par.old queue.old.keys queue.old.low key.new par.new queue.new.keys queue.new.low }
{
    let mut e = usize::from(links[u]);
    while e < 4096 {
        relax(back, e, k, net, key, par, queue);
        e = usize::from(links[256 + e]);
    }
}

// Looks at every residual arc from u, which was taken with the key k. Where no arc carries anything there is no index by head.
fn look(
    u: usize,
    k: u32,
    net: Network<'_>,
    out: &[u16],
    into: Option<&[u16]>,
    key: &mut [u32],
    par: &mut [u16],
    queue: &mut VertexQueue,
)
    requires chains { Chains (starts (residual_in net) false) out.now × BackwardIndex (residual_in net) into × (length par.old ≡ length key.old) × SearchReady (residual_in net) (length key.old) }
    requires looking { Looking (residual_in net) key.old queue.old.keys queue.old.low u k (first_code false) }
    ensures { ScannedFrom (residual_in net.entry) true u k key.old par.old queue.old.keys queue.old.low key.new par.new queue.new.keys queue.new.low }
{
    scan(false, u, k, net, out, key, par, queue);
    if let Some(into) = into {
        scan(true, u, k, net, into, key, par, queue);
    }
}

fn first_key(supply: u32) -> u32
    ensures { result ≡ first_key supply }
{
    if 0 < supply {
        return 0;
    }
    UNREACHED
}

// The keys that a search starts with: the vertices with supply wait.
fn start(left: &[u32], key: &mut [u32], queue: &mut VertexQueue)
    requires { (length key.old ≡ length left.now) × (length left.now ≤ 255) × Holds queue.old.keys queue.old.low nobody }
    ensures { StartOutcome left.now key.new queue.new.keys queue.new.low }
{
    for (v, supply) in left.iter().enumerate() {
        let k = first_key(*supply);
        key[v] = k;
        queue.put(v as u8, k);
    }
}

// One search from all vertices with supply left, until nobody waits.
pub fn search(
    net: Network<'_>,
    out: &[u16],
    into: Option<&[u16]>,
    left: &[u32],
    key: &mut [u32],
    par: &mut [u16],
)
    requires key_len { (length key.old ≡ length left.now) × (length par.old ≡ length left.now) × SearchReady (residual_in net) (length left.now) }
    requires chains { Chains (tails_of net.arcs.now) out.now × BackwardIndex (residual_in net) into }
    ensures { SearchResult (residual_in net.entry) left.now key.new par.new }
{
    let mut queue = VertexQueue::new();
    start(left, key, &mut queue);
    loop {
        let k = queue.least();
        if UNREACHED <= k {
            return;
        }
        let u = usize::from(queue.take());
        look(u, k, net, out, into, key, par, &mut queue);
    }
}
