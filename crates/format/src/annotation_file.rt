// An annotation file: its layout, its header, its node numbers and its loads, read and written.
ghost use Rattle.std.specs.Prelude.{◌≡◌, ◌*◌};
ghost use Rattle.std.proofs.lemmas.List.Edits.{sets};
ghost use Rattle.prelude.specs.Checks.{first_broken};
ghost use Rattle.refusals.specs.Refusals.{why};
ghost use Rattle.network.specs.Network.{load_held, word_load};
ghost use Rattle.file_fields.specs.Bytes.{byte32};
ghost use Rattle.format.specs.Files.{annotation_layout, claim_in, annotation_count, number_in, load_in, annotation_header, load_bytes};

use super::arcs::{inner_record, record_at, record_of};
use super::inner::{inner16, inner32};
use arc_records::Record;
use file_fields::bytes::{byte, number16, number32, put_bits32, put16, put32};
use file_fields::layout::{layout_check, write_mark};
use refusals::Refusal;
use words::entries::store;

// An arc with an amount.
#[derive(Clone, Copy)]
pub struct Loaded {
    pub arc: Record,
    pub amount: u32,
}

pub fn claim(file: &[u8]) -> u8
    ensures { result ≡ claim_in file.now }
{
    byte(file, 5)
}

pub fn count(file: &[u8]) -> u16
    ensures { result ≡ annotation_count file.now }
{
    number16(file, 6)
}

// The first check that refuses the layout with n node numbers: 17, 18 or 19.
pub fn annotation_check(file: &[u8], n: u8) -> Result<(), Refusal>
    ensures { why result ≡ first_broken (annotation_layout n file.now) }
{
    layout_check(
        file,
        8,
        b'A',
        8 + 4 * usize::from(n) + 6 * usize::from(count(file)),
    )
}

// The node number of the vertex v, 0 past the end. One that is whole is read with no further test.
pub fn number(file: &[u8], v: usize) -> i32
    ensures { result ≡ number_in file.now v }
{
    if v < file.len().saturating_sub(8) / 4 {
        return inner32(file, 8 + 4 * v);
    }
    if file.len() / 4 < v {
        return 0;
    }
    number32(file, 8 + 4 * v)
}

// The load number e of a file with n node numbers, all zeros past the end. A record that is whole is read with no further test.
pub fn load(file: &[u8], n: u8, e: usize) -> Loaded
    ensures { load_held result.arc result.amount ≡ load_in n file.now e }
{
    let start = 8 + 4 * usize::from(n);
    if e < file.len().saturating_sub(start) / 6 {
        let at = start + 6 * e;
        return Loaded {
            arc: inner_record(file, at),
            amount: u32::from(inner16(file, at + 4)),
        };
    }
    if file.len() / 6 < e {
        return Loaded {
            arc: record_of(0, 0, 0),
            amount: 0,
        };
    }
    let at = start + 6 * e;
    Loaded {
        arc: record_at(file, at),
        amount: u32::from(number16(file, at + 4)),
    }
}

// The eight bytes of the header.
pub fn write_header(buffer: &mut [u8], claim: u8, count: u16)
    ensures { buffer.new ≡ sets buffer.old 0 (annotation_header claim count) }
{
    write_mark(buffer, b'A');
    store(buffer, 5, claim);
    put16(buffer, 6, count);
}

// The node number of the vertex v into the part of a file that holds the node numbers. (As an arc is written; what is written has another form, so the two stay two.)
pub fn write_number(part: &mut [u8], v: usize, z: i32)
    ensures { part.new ≡ sets part.old (4 * v) (byte32 z) }
{
    if part.len() / 4 < v {
        return;
    }
    put32(part, 4 * v, z);
}

// The load number e into the part of a file that holds the loads: the word has the four bytes of its arc.
pub fn write_load(part: &mut [u8], e: usize, word: u32, amount: u16)
    ensures { part.new ≡ sets part.old (6 * e) (load_bytes (word_load word amount)) }
{
    if part.len() / 6 < e {
        return;
    }
    let at = 6 * e;
    put_bits32(part, at, word);
    put16(part, at + 4, amount);
}
