// The vertices that wait in a search, each with a key, in blocks of 16: the vertex with the least key is found by two short scans.
#![tactic(auto)]

ghost use Rattle.std.specs.Prelude.{◌≡◌, ◌+◌, ◌≤◌, ◌<◌, length};
ghost use Rattle.packed_arcs.specs.Entries.{entry};
ghost use Rattle.vertex_queue.specs.VertexQueue.{Holds, nobody, put_in, taken_out, least_block, least_vertex, least_entry, least_from};

// The key of a vertex that does not wait. Memory is fixed, and keys are compared as numbers: no Option.
pub const WAITS_NOT: u32 = 2147483648;

#[derive(Clone, Copy)]
pub struct VertexQueue {
    // The key of each vertex.
    pub keys: [u32; 256],
    // The least key of each block.
    pub low: [u32; 16],
}

// The index of the first least entry among the 16 from `from` on.
fn first_least(from: usize, l: &[u32]) -> usize
    requires { from + 16 ≤ length l.now }
    ensures { (result ≡ least_from l.now from 16) × (from ≤ result) × (result < from + 16) }
{
    let mut at = from;
    let mut best = l[from];
    for i in 1..16 {
        let x = l[from + i];
        if x < best {
            best = x;
            at = from + i;
        }
    }
    at
}

// The least entry among the 16 from `from` on.
fn least_entry(from: usize, l: &[u32]) -> u32
    requires { from + 16 ≤ length l.now }
    ensures { result ≡ least_entry l.now from }
{
    let mut best = l[from];
    for e in 1..16 {
        best = best.min(l[from + e]);
    }
    best
}

impl VertexQueue {
    // Nobody waits.
    pub fn new() -> Self
        ensures { Holds result.keys result.low nobody }
    {
        VertexQueue {
            keys: [WAITS_NOT; 256],
            low: [WAITS_NOT; 16],
        }
    }

    // The vertex v waits with the key k.
    pub fn put(&mut self, v: u8, k: u32)
        ensures { Holds self.new.keys self.new.low (put_in v k self.old.keys self.old.low) }
    {
        let b = (v / 16) as usize;
        self.keys[v as usize] = k;
        let old = self.low[b];
        self.low[b] = old.min(k);
    }

    // The first block with the least key, which stands at it in `low`.
    pub fn least_block(&self) -> usize
        ensures { (result ≡ least_block self.now.low) × (result < 16) × (entry self.now.low result ≡ least_entry self.now.low 0) }
    {
        first_least(0, &self.low)
    }

    // Takes the first vertex with the least key, which is in the block b: it then waits no longer.
    pub fn take_from(&mut self, b: usize) -> u8
        requires { (b ≡ least_block self.old.low) × (b < 16) }
        ensures { (result ≡ least_vertex self.old.keys self.old.low) × Holds self.new.keys self.new.low (taken_out self.old.keys self.old.low) }
    {
        let v = first_least(16 * b, &self.keys);
        self.keys[v] = WAITS_NOT;
        self.low[b] = least_entry(16 * b, &self.keys);
        v as u8
    }

    // Takes the first vertex with the least key, which then waits no longer.
    pub fn take(&mut self) -> u8
        ensures { (result ≡ least_vertex self.old.keys self.old.low) × Holds self.new.keys self.new.low (taken_out self.old.keys self.old.low) }
    {
        let b = self.least_block();
        self.take_from(b)
    }

    // The least key of all.
    pub fn least(&self) -> u32
        ensures { result ≡ least_entry self.now.low 0 }
    {
        least_entry(0, &self.low)
    }
}
