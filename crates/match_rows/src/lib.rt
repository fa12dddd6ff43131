// The arcs to each vertex copied side by side: a scan of a row reads neighbours, where a chain jumps from record to record.
#![tactic(auto)]

ghost use Rattle.std.specs.Prelude.{◌≡◌, ◌+◌, ◌*◌, ◌<◌, ◌≤◌, length};
ghost use Rattle.arc_index.specs.ArcIndex.{no_arc};
ghost use Rattle.arc_index.specs.Chains.{Chains};
ghost use Rattle.arc_index.specs.Columns.{record_tails, record_heads, record_weights};
ghost use Rattle.match_state.specs.Rows.{numbered, Rows};
ghost use Rattle.match_rows.specs.Copying.{copied, RowCopied};

use arc_index::{End, NO_ARC, index};

pub mod part;

// The arc e of a record, as it stands in a row; the record does not reach the number above it.
fn row_arc(e: usize, word: u32) -> u64
    requires { e < no_arc }
    ensures { (result ≡ numbered e word) × (word < 4294967296) }
{
    e as u64 * 4294967296 + u64::from(word)
}

// Copies the arcs of the chain of v, from the position `from` of rows on: the position after them. No `for`: a chain is followed by its links.
fn copy_chain(v: usize, from: usize, records: &[u32], links: &[u16], rows: &mut [u64]) -> usize
    requires { Chains (record_heads records.now) links.now × (v < 256) × (length rows.old ≡ 769 + length records.now) × (from ≤ 769 + copied (record_heads records.now) (v * no_arc)) }
    ensures { RowCopied (record_tails records.now) (record_heads records.now) (record_weights records.now) rows.old rows.new v from result }
{
    let mut i = from;
    let mut e = usize::from(links[v]);
    while e < NO_ARC as usize {
        rows[i] = row_arc(e, records[e]);
        i += 1;
        e = usize::from(links[256 + e]);
    }
    i
}

// The arcs of every chain, the chains of lower vertices first, and where each begins and ends.
fn copy_rows(records: &[u32], links: &[u16], rows: &mut [u64])
    requires { Chains (record_heads records.now) links.now × (length rows.old ≡ 769 + length records.now) }
    ensures { Rows (record_tails records.now) (record_heads records.now) (record_weights records.now) rows.new }
{
    rows[0] = 769;
    for v in 0..256 {
        let from = rows[v] as usize;
        let i = copy_chain(v, from, records, links, rows);
        rows[v + 1] = i as u64;
        rows[257 + v] = i as u64;
        rows[513 + v] = 0;
    }
}

// The same, by chains that are made first, in `links`.
fn index_and_copy(records: &[u32], links: &mut [u16], rows: &mut [u64])
    requires { (length records.now ≤ no_arc) × (length links.old ≡ 256 + length records.now) × (length rows.old ≡ 769 + length records.now) }
    ensures { Rows (record_tails records.now) (record_heads records.now) (record_weights records.now) rows.new }
{
    index(records, End::Head, links);
    copy_rows(records, links, rows);
}

// The arcs to each vertex side by side: those to v from the position at v up to the one at v + 1. At 257 + v stands the end of that row, for any of its arcs may come from an exposed vertex; at 513 + v that none of them is known to be in order of weight.
pub fn write_rows(records: &[u32], rows: &mut [u64])
    requires { (length records.now ≤ no_arc) × (length rows.old ≡ 769 + length records.now) }
    ensures { Rows (record_tails records.now) (record_heads records.now) (record_weights records.now) rows.new }
{
    let m = records.len();
    let mut links = [0u16; 4352];
    index_and_copy(records, &mut links[..256 + m], rows);
}
