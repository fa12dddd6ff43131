// For each label the vertices with it that have something to push. Buckets are singly linked lists in fixed memory.
ghost use Rattle.std.specs.Prelude.{◌<◌};

// What stands where there is no vertex: there are 255 at the most, so that a place takes one byte of the fixed memory and an `Option` would take two.
const NO_VERTEX: u8 = 255;

// The first vertex in the bucket of each label, and after each vertex the next one in its bucket.
#[derive(Drop)]
pub struct Buckets {
    first: [u8; 256],
    next: [u8; 256],
}

impl Buckets {
    // Nobody waits.
    pub fn new() -> Self {
        Buckets {
            first: [NO_VERTEX; 256],
            next: [NO_VERTEX; 256],
        }
    }

    // Nobody waits any more.
    pub fn clear(&mut self) {
        self.first.fill(NO_VERTEX);
    }

    // Puts v first into the bucket of the label l.
    pub fn put(&mut self, v: usize, l: u8)
        requires { v < 256 }
    {
        let i = usize::from(l);
        self.next[v] = self.first[i];
        self.first[i] = v as u8;
    }

    // Takes the first vertex from the bucket of the label l.
    pub fn take_first(&mut self, l: u8) -> usize
        ensures { result < 256 }
    {
        let i = usize::from(l);
        let v = usize::from(self.first[i]);
        self.first[i] = self.next[v];
        v
    }

    // The highest label from l down, but not 0, whose bucket is not empty.
    pub fn highest(&self, l: u8) -> Option<u8> {
        for top in (1..usize::from(l) + 1).rev() {
            if self.first[top] != NO_VERTEX {
                return Some(top as u8);
            }
        }
        None
    }
}
