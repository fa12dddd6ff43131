// An annotation's file, written into a lent buffer once it is found, and what comes before that: the checks, and the records gathered from the network file.
#![tactic(auto)]

ghost use Rattle.std.specs.Prelude.{◌≡◌, ◌+◌, ◌*◌, ◌≤◌, length};
ghost use mathlib.Core.List.{flat_map, ◌++◌};
ghost use Rattle.std.proofs.lemmas.List.Edits.{sets};
ghost use Rattle.prelude.specs.Checks.{first_broken};
ghost use Rattle.refusals.specs.Refusals.{why};
ghost use Rattle.prelude.specs.Lists.{list_to};
ghost use Rattle.arc_records.specs.Arcs.{word_arcs};
ghost use Rattle.network.specs.Network.{loads_of};
ghost use Rattle.file_fields.specs.Bytes.{byte32};
ghost use Rattle.format.specs.Files.{arc_in, annotation_header, load_bytes};
ghost use Rattle.annotation_writing.specs.Requests.{size_for, annotate_checks};

use acceptance::acceptance_check;
use format::{annotation_file, network_file};
use refusals::Refusal;

// The length of the annotation of a network file.
pub fn annotation_size(net: &[u8]) -> u32
    ensures { result ≡ size_for net.now }
{
    let n = u32::from(network_file::vertices(net));
    let m = u32::from(network_file::count(net));
    8 + 4 * n + 6 * m
}

// The first check that refuses the file or the room for its annotation.
pub fn annotate_check(net: &[u8], room: usize) -> Result<(), Refusal>
    ensures { why result ≡ first_broken (annotate_checks net.now room) }
{
    acceptance_check(net)?;
    let size = annotation_size(net) as usize;
    if room < size {
        return Err(Refusal::BufferTooShort);
    }
    Ok(())
}

// The records of the file, as many as there is room for, each as one number.
pub fn gather(net: &[u8], records: &mut [u32])
    ensures { word_arcs records.new ≡ list_to (length records.old) (arc_in net.now) }
{
    for (e, record) in records.iter_mut().enumerate() {
        *record = network_file::word(net, e);
    }
}

// The node numbers, one after the other from the front of the part.
fn write_numbers(part: &mut [u8], numbers: &[i32])
    ensures { part.new ≡ sets part.old 0 (flat_map byte32 numbers.now) }
{
    for (v, number) in numbers.iter().enumerate() {
        annotation_file::write_number(part, v, *number);
    }
}

// The records with their amounts, one after the other from the front of the part, as many as both have.
fn write_loads(part: &mut [u8], records: &[u32], amounts: &[u16])
    requires { length records.now ≡ length amounts.now }
    ensures { part.new ≡ sets part.old 0 (flat_map load_bytes (loads_of (word_arcs records.now) amounts.now)) }
{
    for (e, amount) in amounts.iter().enumerate() {
        annotation_file::write_load(part, e, records[e], *amount);
    }
}

// What follows the header: the node numbers, then the records, in the part that is lent on.
fn write_body(rest: &mut [u8], records: &[u32], numbers: &[i32], amounts: &[u16])
    requires numbers_in_bounds { 4 * length numbers.now ≤ length rest.old }
    requires records_len { length records.now ≡ length amounts.now }
    ensures { rest.new ≡ sets rest.old 0 (flat_map byte32 numbers.now ++ flat_map load_bytes (loads_of (word_arcs records.now) amounts.now)) }
{
    write_numbers(rest, numbers);
    let at = 4 * numbers.len();
    write_loads(&mut rest[at..], records, amounts);
}

// The whole file: a header of eight bytes, and the rest in the part that is lent on.
pub fn write_file(
    buffer: &mut [u8],
    claim: u8,
    count: u16,
    records: &[u32],
    numbers: &[i32],
    amounts: &[u16],
)
    requires numbers_in_bounds { 8 + 4 * length numbers.now ≤ length buffer.old }
    requires records_len { length records.now ≡ length amounts.now }
    ensures { buffer.new ≡ sets buffer.old 0 (annotation_header claim count ++ (flat_map byte32 numbers.now ++ flat_map load_bytes (loads_of (word_arcs records.now) amounts.now))) }
{
    annotation_file::write_header(buffer, claim, count);
    write_body(&mut buffer[8..], records, numbers, amounts);
}
