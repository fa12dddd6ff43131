// A network file: its layout, its header and its arcs, read and written.
ghost use Rattle.std.specs.Prelude.{◌≡◌, ◌-◌, ◌*◌, ◌/◌};
ghost use Rattle.std.proofs.lemmas.List.Edits.{sets};
ghost use Rattle.prelude.specs.Checks.{first_broken};
ghost use Rattle.refusals.specs.Refusals.{why};
ghost use Rattle.arc_records.specs.Arcs.{arc_held, word_arc};
ghost use Rattle.format.specs.Files.{network_layout, question_in, n_in, s_in, t_in, count_in, arc_in, network_header, arc_bytes, low_arc};

use super::arcs::{inner_record, put_record, record_at, record_of};
use super::inner::inner_bits32;
use arc_records::Record;
use file_fields::bytes::{bits32, byte, number16, put16};
use file_fields::layout::{layout_check, write_mark};
use refusals::Refusal;
use words::entries::store;

pub fn question(file: &[u8]) -> u8
    ensures { result ≡ question_in file.now }
{
    byte(file, 5)
}

pub fn vertices(file: &[u8]) -> u8
    ensures { result ≡ n_in file.now }
{
    byte(file, 6)
}

pub fn source(file: &[u8]) -> u8
    ensures { result ≡ s_in file.now }
{
    byte(file, 7)
}

pub fn sink(file: &[u8]) -> u8
    ensures { result ≡ t_in file.now }
{
    byte(file, 8)
}

pub fn count(file: &[u8]) -> u16
    ensures { result ≡ count_in file.now }
{
    number16(file, 9)
}

// The first check that refuses the layout: 17, 18 or 19.
pub fn network_check(file: &[u8]) -> Result<(), Refusal>
    ensures { why result ≡ first_broken (network_layout file.now) }
{
    layout_check(file, 11, b'N', 11 + 4 * usize::from(count(file)))
}

// How many records of a file of so many bytes are whole.
fn whole_records(size: usize) -> usize
    ensures { result ≡ (size - 11) / 4 }
{
    size.saturating_sub(11) / 4
}

// The arc number e, all zeros past the end. A record that is whole is read with no further test.
pub fn arc(file: &[u8], e: usize) -> Record
    ensures { arc_held result ≡ arc_in file.now e }
{
    if e < whole_records(file.len()) {
        return inner_record(file, 11 + 4 * e);
    }
    if file.len() / 4 < e {
        return record_of(0, 0, 0);
    }
    record_at(file, 11 + 4 * e)
}

// The four bytes of the arc number e as one number, 0 past the end.
pub fn word(file: &[u8], e: usize) -> u32
    ensures { word_arc result ≡ arc_in file.now e }
{
    if e < whole_records(file.len()) {
        return inner_bits32(file, 11 + 4 * e);
    }
    if file.len() / 4 < e {
        return 0;
    }
    bits32(file, 11 + 4 * e)
}

// The eleven bytes of the header.
pub fn write_header(buffer: &mut [u8], question: u8, n: u8, s: u8, t: u8, count: u16)
    ensures { buffer.new ≡ sets buffer.old 0 (network_header (record { question = question; n = n; s = s; t = t }) count) }
{
    write_mark(buffer, b'N');
    store(buffer, 5, question);
    store(buffer, 6, n);
    store(buffer, 7, s);
    store(buffer, 8, t);
    put16(buffer, 9, count);
}

// The arc number e into the part of a file that holds the arcs. (Much as a node number is written, but what is written has another form.)
// Of a field that is too large the low bytes are written.
pub fn write_arc(part: &mut [u8], e: usize, arc: Record)
    ensures { part.new ≡ sets part.old (4 * e) (arc_bytes (low_arc (arc_held arc))) }
{
    if part.len() / 4 < e {
        return;
    }
    put_record(part, 4 * e, arc);
}
