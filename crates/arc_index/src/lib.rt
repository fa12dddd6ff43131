// An index of arcs by one of their ends: the first arc of the vertex v stands in links at v, the arc after e at 256 + e, and NO_ARC where there is none.
// While it is built, last holds for each vertex the place in links where its next arc is noted; so chains are in file order.
#![tactic(auto)]

ghost use Rattle.std.specs.Prelude.{◌≡◌, ℕ, ◌≤◌, length, map, replicate};
ghost use Rattle.prelude.specs.Choice.{pick};
ghost use Rattle.prelude.specs.Lists.{list_to};
ghost use Rattle.arc_index.specs.ArcIndex.{no_arc, index_of, added_below, index_from, links_of, record_end, record_ends, indexable};

use arc_records::arc_in;
use words::entries::store;

pub mod packed;

// What stands where there is no arc. Memory is fixed, and an Option would take twice the room in the links.
pub const NO_ARC: u16 = 4096;

// The end of an arc by which it is indexed.
#[derive(Clone, Copy)]
pub enum End {
    Tail,
    Head,
}

// An arc that is held in one number: the word of a record, or a packed arc.
pub trait Arc: Copy {
    ghost use Rattle.arc_index.specs.declared.End.{End};

    ghost end_of: { End → Self → ℕ };

    fn end(self, end: End) -> u8
        ensures { result ≡ end_of end self };
}

impl Arc for u32 {
    ghost end_of = { record_end };

    fn end(self, end: End) -> u8 {
        let arc = arc_in(self);
        match end {
            End::Tail => arc.tail as u8,
            End::Head => arc.head as u8,
        }
    }
}

// The places where first arcs are noted: each vertex has its own.
fn first_places() -> [u16; 256]
    ensures { result ≡ list_to 256 (λ v. v) }
{
    let mut last = [0u16; 256];
    for v in 0..256 {
        last[v] = v as u16;
    }
    last
}

// The index of no arcs.
pub fn begin(links: &mut [u16], last: &mut [u16; 256])
    ensures { (links.new ≡ replicate (length links.old) no_arc) × (last.new ≡ list_to 256 (λ v. v)) }
{
    links.fill(NO_ARC);
    *last = first_places();
}

// Adds the arc e, whose end is v, at the end of the chain of v. No arc has a number from NO_ARC on: then nothing is changed.
pub fn add(e: u16, v: u8, links: &mut [u16], last: &mut [u16; 256])
    ensures { index_of links.new last.new ≡ added_below e v (index_of links.old last.old) }
{
    if NO_ARC <= e {
        return;
    }
    let i = v as usize;
    let p = usize::from(last[i]);
    store(links, p, e);
    last[i] = 256 + e;
}

// Adds the arcs one after the other to an index that has none.
fn add_all<T: Arc>(arcs: &[T], end: End, links: &mut [u16], last: &mut [u16; 256])
    requires { length arcs.now ≤ no_arc }
    ensures { index_of links.new last.new ≡ index_from 0 (map (T.end_of end) arcs.now) (index_of links.old last.old) }
{
    for e in 0..arcs.len() {
        let v = arcs[e].end(end);
        add(e as u16, v, links, last);
    }
}

// The links of the index of arcs by an end. Refused, and then nothing is changed, unless there are at most 4096 arcs, and 256 links and one for each.
fn index_arcs<T: Arc>(arcs: &[T], end: End, links: &mut [u16]) -> bool
    ensures { (result ≡ indexable arcs.now links.old) × (links.new ≡ pick (indexable arcs.now links.old) (links_of (map (T.end_of end) arcs.now)) links.old) }
{
    if usize::from(NO_ARC) < arcs.len() {
        return false;
    }
    if links.len() != 256 + arcs.len() {
        return false;
    }
    let mut last = [0u16; 256];
    begin(links, &mut last);
    add_all(arcs, end, links, &mut last);
    true
}

// The links of the index of the arcs of the records by an end, as index_arcs.
pub fn index(records: &[u32], end: End, links: &mut [u16]) -> bool
    ensures { (result ≡ indexable records.now links.old) × (links.new ≡ pick (indexable records.now links.old) (links_of (record_ends end records.now)) links.old) }
{
    index_arcs(records, end, links)
}
