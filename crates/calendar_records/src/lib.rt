// What is left of the records of a network file at a minute, written one after the other.
#![tactic(auto)]

ghost use Rattle.std.specs.Prelude.{◌≡◌, map, ◌<◌};
ghost use Rattle.arc_records.specs.Arcs.{arc_held};
ghost use Rattle.network.specs.Question.{asks};
ghost use Rattle.checks.specs.Held.{question_held};
ghost use Rattle.format.specs.Files.{low_arc, setting_in, arc_in};
ghost use Rattle.tide_windows.specs.Windows.{windows_in, is_open};
ghost use Rattle.calendar_records.specs.MinuteNetwork.{closed_for, left_for, arcs_at};
ghost use Rattle.calendar_records.specs.Records.{left_held, RecordsIn};

use arc_records::{Record, arc_in};
use checks::rows::{Question, question_of};
use format::network_file;
use tide_windows::is_open;

// What is left of a record that is closed.
fn closed(question: Question, arc: Record) -> Option<Record>
    ensures { left_held result ≡ closed_for (question_held question) (arc_held arc) }
{
    match question {
        Question::Path => None,
        Question::Flow => Some(Record { weight: 0, ..arc }),
        Question::Assignment => None,
        Question::Acyclicity => None,
        Question::Unasked => None,
    }
}

// What is left of a record that is open or closed.
fn left_of(question: Question, opened: bool, arc: Record) -> Option<Record>
    ensures { left_held result ≡ left_for (question_held question) opened (arc_held arc) }
{
    if opened {
        Some(arc)
    } else {
        closed(question, arc)
    }
}

// Writes what is left of a record into the part, behind the first k records; how many there are then. No heap: the file stands in a lent buffer, and how far it goes is a number beside it.
fn write_left(part: &mut [u8], k: usize, left: Option<Record>) -> usize
    requires { k < 65536 }
    ensures { RecordsIn (map low_arc (left_held left)) k part.old result part.new }
{
    match left {
        Some(arc) => {
            network_file::write_arc(part, k, arc);
            k + 1
        }
        None => k,
    }
}

// The same for the record at a position of the file, with the count beside the lent part for the same reason.
fn write_record(
    net: &[u8],
    windows: &[[u32; 3]],
    minute: u32,
    position: u32,
    part: &mut [u8],
    k: usize,
) -> usize
    requires { k < 65536 }
    ensures { RecordsIn (left_for (asks (setting_in net.now)) (is_open (windows_in windows.now) minute position) (arc_in net.now position)) k part.old result part.new }
{
    let asked = question_of(u32::from(network_file::question(net)));
    let arc = arc_in(network_file::word(net, position as usize));
    let opened = is_open(windows, minute, position);
    write_left(part, k, left_of(asked, opened, arc))
}

// Writes what is left of all records from the front of the part on; how many there are, beside the lent part as above.
pub fn write_records(net: &[u8], windows: &[[u32; 3]], minute: u32, part: &mut [u8]) -> usize
    ensures { RecordsIn (arcs_at net.now (windows_in windows.now) minute) 0 part.old result part.new }
{
    let m = u32::from(network_file::count(net));
    let mut k = 0;
    for e in 0..m {
        k = write_record(net, windows, minute, e, part, k);
    }
    k
}
