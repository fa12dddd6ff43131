// The four bytes of an arc at an index of either file, read and written.
ghost use Rattle.std.specs.Prelude.{◌≡◌, ◌+◌, ◌≤◌, length};
ghost use Rattle.std.proofs.lemmas.List.Edits.{sets};
ghost use Rattle.arc_records.specs.Arcs.{arc_of, arc_held};
ghost use Rattle.format.specs.Files.{arc_bytes, low_arc, arc_at};

use super::inner::inner16;
use arc_records::Record;
use file_fields::bytes::{byte, low8, low16, number16, put16};
use words::entries::store;

// The fields of a file as a record.
pub(crate) fn record_of(a: u8, b: u8, w: u16) -> Record
    ensures { arc_held result ≡ arc_of a b w }
{
    Record {
        tail: u32::from(a),
        head: u32::from(b),
        weight: u32::from(w),
    }
}

// The arc at the index at, all zeros past the end.
pub(crate) fn record_at(file: &[u8], at: usize) -> Record
    ensures { arc_held result ≡ arc_at file.now at }
{
    if file.len() <= at {
        return record_of(0, 0, 0);
    }
    record_of(byte(file, at), byte(file, at + 1), number16(file, at + 2))
}

// The same where all of it is within the file, with no test.
pub(crate) fn inner_record(file: &[u8], at: usize) -> Record
    requires { at + 4 ≤ length file.now }
    ensures { arc_held result ≡ arc_at file.now at }
{
    record_of(file[at], file[at + 1], inner16(file, at + 2))
}

// The arc at the index at. Of a field that is too large the low bytes are written.
pub(crate) fn put_record(buffer: &mut [u8], at: usize, arc: Record)
    ensures { buffer.new ≡ sets buffer.old at (arc_bytes (low_arc (arc_held arc))) }
{
    if buffer.len() <= at {
        return;
    }
    store(buffer, at, low8(arc.tail));
    store(buffer, at + 1, low8(arc.head));
    put16(buffer, at + 2, low16(arc.weight));
}
