// The annotation of an accepted network file: what the solver finds, written into a lent buffer.
ghost use Rattle.std.specs.Prelude.{◌≡◌, ◌≤◌, length};
ghost use Rattle.arc_records.specs.Arcs.{word_arcs};
ghost use Rattle.format.specs.Files.{n_in, count_in, arcs_in};
ghost use Rattle.acceptance.specs.Acceptance.{AcceptedFile};
ghost use Rattle.annotation_writing.specs.Requests.{size_for};
ghost use Rattle.helper.specs.Helper.{AnnotationIn};

use acceptance::setting;
use annotation_writing::{gather, write_file};
use arc_records::{MOST_ARCS, MOST_VERTICES};
use format::network_file;

// The annotation that the solver finds for the records of the file.
fn write_solution(
    net: &[u8],
    records: &[u32],
    numbers: &mut [i32],
    amounts: &mut [u16],
    buffer: &mut [u8],
)
    requires accepted_file { AcceptedFile net.now }
    requires records_value { word_arcs records.now ≡ arcs_in net.now }
    requires numbers_len { (length numbers.old ≡ n_in net.now) × (length amounts.old ≡ count_in net.now) }
    requires net_in_bounds { size_for net.now ≤ length buffer.old }
    ensures { AnnotationIn net.now buffer.old buffer.new }
{
    let finding = solver::certify(setting(net), records, numbers, amounts);
    let claim = solver::claim_number(finding);
    write_file(
        buffer,
        claim,
        network_file::count(net),
        records,
        numbers,
        amounts,
    );
}

// The annotation of an accepted file.
pub(crate) fn write_annotation(net: &[u8], buffer: &mut [u8])
    requires accepted_file { AcceptedFile net.now }
    requires net_in_bounds { size_for net.now ≤ length buffer.old }
    ensures { AnnotationIn net.now buffer.old buffer.new }
{
    let n = network_file::vertices(net) as usize;
    let m = network_file::count(net) as usize;
    let mut records = [0u32; MOST_ARCS as usize];
    let mut numbers = [0i32; MOST_VERTICES as usize];
    let mut amounts = [0u16; MOST_ARCS as usize];
    gather(net, &mut records[..m]);
    write_solution(
        net,
        &records[..m],
        &mut numbers[..n],
        &mut amounts[..m],
        buffer,
    );
}
