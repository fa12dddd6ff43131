// The arc of a record, and what is known of an arc in a row.
#![tactic(auto)]

ghost use Rattle.std.specs.Prelude.{◌≡◌, ◌<◌, length};
ghost use Rattle.packed_arcs.specs.Entries.{entry};
ghost use Rattle.arc_index.specs.Columns.{record_tails, record_heads, record_weights};
ghost use Rattle.match_state.specs.Rows.{row_number, row_tail, row_weight};

use arc_records::{Record, arc_in};

// The arc of the record e: its tail, its head and its weight.
#[tactic(auto, using(arc_index::proofs::Columns::tail_is, arc_index::proofs::Columns::head_is, arc_index::proofs::Columns::weight_is))]
pub fn arc_at(e: usize, records: &[u32]) -> Record
    requires { e < length records.now }
    ensures tail { result.tail ≡ entry (record_tails records.now) e }
    ensures head { result.head ≡ entry (record_heads records.now) e }
    ensures weight { result.weight ≡ entry (record_weights records.now) e }
{
    arc_in(records[e])
}

// The number of an arc in a row.
pub fn row_number(arc: u64) -> usize
    ensures { result ≡ row_number arc }
{
    (arc / 4294967296) as usize
}

// Its record.
pub fn row_record(arc: u64) -> Record
    ensures tail { result.tail ≡ row_tail arc }
    ensures weight { result.weight ≡ row_weight arc }
{
    arc_in((arc % 4294967296) as u32)
}
