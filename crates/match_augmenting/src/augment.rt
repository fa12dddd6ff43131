// The matching after a search that reached an exposed vertex: one arc more.
ghost use Rattle.std.specs.Prelude.{◌<◌, length};
ghost use Rattle.arc_index.specs.Columns.{record_tails, record_heads, record_weights};
ghost use Rattle.match_augmenting.specs.Augmenting.{Alternating, Augmented};

use arc_index::NO_ARC;
use match_state::arc_at;

// The exposed left vertex r is matched by its parent arc; who was matched to the head of that arc is exposed, and goes on in the same way, up to the root t.
pub(crate) fn augment(
    r: usize,
    t: usize,
    records: &[u32],
    pi: &[u32],
    par: &[u16],
    order: &[u8],
    mate: &mut [u16],
)
    requires { Alternating (length order.now) (length pi.now) (record_tails records.now) (record_heads records.now) (record_weights records.now) mate.old pi.now par.now order.now t r }
    ensures { Augmented (length order.now) (length pi.now) (record_tails records.now) (record_heads records.now) (record_weights records.now) mate.old pi.now t mate.new }
{
    let mut a = r;
    loop {
        let e = par[a];
        let arc = arc_at(e as usize, records);
        let b = arc.head as usize;
        let f = mate[b];
        mate[a] = e;
        mate[b] = e;
        if NO_ARC <= f {
            return;
        }
        let freed = arc_at(f as usize, records);
        a = freed.tail as usize;
        mate[a] = NO_ARC;
    }
}
