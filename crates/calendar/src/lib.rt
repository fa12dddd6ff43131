// The calendar (PANEL 14): the network file of a minute, by the windows of a tide table, written into a lent buffer.
#![tactic(auto)]

ghost use Rattle.std.specs.Prelude.{◌≡◌, ◌≤◌, length};
ghost use Rattle.std.proofs.lemmas.List.Edits.{sets};
ghost use Rattle.prelude.specs.Checks.{first_broken};
ghost use Rattle.refusals.specs.Refusals.{why};
ghost use Rattle.format.specs.Replies.{writer_said};
ghost use Rattle.tide_windows.specs.Windows.{windows_in};
ghost use Rattle.calendar_records.specs.MinuteNetwork.{arcs_at};
ghost use Rattle.calendar.specs.Schedule.{file_at, request_checks, schedule_reply, buffer_after};

use acceptance::acceptance_check;
use calendar_records::write_records;
use format::network_file;
use refusals::Refusal;
use tide_windows::windows_check;

// The first check that refuses the file, the windows or the minute.
fn request_check(net: &[u8], windows: &[[u32; 3]], minute: u32) -> Result<(), Refusal>
    ensures { why result ≡ first_broken (request_checks net.now (windows_in windows.now) minute) }
{
    acceptance_check(net)?;
    windows_check(windows, minute, network_file::count(net) as u32)
}

// How many records are left at the minute: they are written where nobody reads them.
fn count_left(net: &[u8], windows: &[[u32; 3]], minute: u32) -> usize
    ensures { result ≡ length (arcs_at net.now (windows_in windows.now) minute) }
{
    let mut nowhere = [0u8; 4];
    write_records(net, windows, minute, &mut nowhere)
}

// The file of the minute, with its count of records, from the front of the buffer on.
fn write_file(net: &[u8], windows: &[[u32; 3]], minute: u32, count: u16, buffer: &mut [u8])
    requires count_value { count ≡ length (arcs_at net.now (windows_in windows.now) minute) }
    requires in_bounds { 11 ≤ length buffer.old }
    ensures { buffer.new ≡ sets buffer.old 0 (file_at net.now (windows_in windows.now) minute) }
{
    network_file::write_header(
        buffer,
        network_file::question(net),
        network_file::vertices(net),
        network_file::source(net),
        network_file::sink(net),
        count,
    );
    write_records(net, windows, minute, &mut buffer[11..]);
}

// Writes the network of the minute into the front of the buffer: its length, or the refusal, which leaves the buffer as it is.
pub fn schedule(
    net: &[u8],
    windows: &[[u32; 3]],
    minute: u32,
    buffer: &mut [u8],
) -> Result<u32, Refusal>
    ensures { (writer_said result ≡ schedule_reply net.now (windows_in windows.now) minute (length buffer.old)) × (buffer.new ≡ buffer_after net.now (windows_in windows.now) minute buffer.old) }
{
    request_check(net, windows, minute)?;
    let count = count_left(net, windows, minute);
    let size = 11 + 4 * count;
    if buffer.len() < size {
        return Err(Refusal::BufferTooShort);
    }
    write_file(net, windows, minute, count as u16, buffer);
    Ok(size as u32)
}
