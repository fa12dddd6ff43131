// The line of the scheduling program: the network file of a minute is written by the tide table, and saved.
ghost use Rattle.std.specs.Prelude.{◌≡◌, false, length};
ghost use Rattle.format.specs.Replies.{writer_said};
ghost use Rattle.tide_windows.specs.Windows.{windows_in};
ghost use Rattle.calendar.specs.Schedule.{schedule_reply, buffer_after};
ghost use Rattle.program_io.specs.Counted.{counted};
ghost use Rattle.plan_schedules.specs.ScheduleLine.{windows_outcome, table_outcome, windows_buffer, table_buffer, DoneAs, ScheduledFiles};

use calendar::schedule;
use program_io::counted::counted;
use program_io::front::{read_file, read_front};
use program_io::line::Line;
use refusals::Refusal;
use std::fs::Files;
use tide_table::read_table;
use tide_table::text::number;
use written_files::{by_number, line_for, save_reply};

// The network file of the minute for what counts of a network file, in the buffer.
fn minute_file(
    net: &[u8],
    windows: &[[u32; 3]],
    minute: u32,
    out: &mut [u8],
) -> Result<u32, Refusal>
    ensures { (writer_said result ≡ schedule_reply (counted net.now) (windows_in windows.now) minute (length out.old)) × (out.new ≡ buffer_after (counted net.now) (windows_in windows.now) minute out.old) }
{
    schedule(counted(net), windows, minute, out)
}

// How many bytes of the network file were read into its buffer, whether the file of the minute is saved, and the line. The length and the flag are what the clauses
// say the line for. The line is there whether the file is saved or not, so the flag is no Option or Result of it.
#[derive(Clone, Copy)]
pub struct Done {
    pub net: usize,
    pub saved: bool,
    pub line: Line,
}

// No network file is opened and nothing is saved.
fn undone(line: Line) -> Done
    ensures { result ≡ record { net = 0; saved = false; line = line } }
{
    Done {
        net: 0,
        saved: false,
        line,
    }
}

// Reads the named network file, writes and saves that of the minute by the windows, and makes the line.
fn schedule_by<R: Files>(
    files: &R,
    windows: &[[u32; 3]],
    minute: u32,
    net_name: &[u8],
    out_name: &[u8],
    net: &mut [u8],
    out: &mut [u8],
) -> Done
    ensures { DoneAs (windows_outcome (windows_in windows.now) minute (length out.old)) (windows_buffer (windows_in windows.now) minute out.old) net.new out.new result }
{
    let n = read_front(files, net_name, net);
    let reply = by_number(minute_file(&net[..n], windows, minute, out));
    let saved = save_reply(files, out_name, reply, out);
    Done {
        net: n,
        saved,
        line: line_for(reply, saved),
    }
}

// The same by the bytes of a tide table. The network file is not opened where a line is no window. Of the rows one more is handed on than
// check 21 lets pass, which refuses it whatever it says.
fn schedule_for<R: Files>(
    files: &R,
    table: &[u8],
    minute: u32,
    net_name: &[u8],
    out_name: &[u8],
    net: &mut [u8],
    out: &mut [u8],
) -> Done
    ensures { DoneAs (table_outcome table.now minute (length out.old)) (table_buffer table.now minute out.old) net.new out.new result }
{
    let mut rows = [[0u32; 3]; 65];
    match read_table(table, &mut rows) {
        Ok(count) => {
            let n = count.min(65);
            schedule_by(files, &rows[..n], minute, net_name, out_name, net, out)
        }
        Err(bad) => undone(Line::numbered(b"bad line ", bad.number as u64)),
    }
}

// How many bytes of the tide table were read into its buffer, where it could be read, and what was done.
#[derive(Clone, Copy)]
pub struct Scheduled {
    pub table: Option<usize>,
    pub done: Done,
}

// Reads the named tide table, and goes on by it at the minute that the argument says. No file is opened for an argument that is no number.
// The buffers hold as many bytes as count, of the table one more, which tells that it is too long.
pub fn schedule_files<R: Files>(
    files: &R,
    argument: &[u8],
    table_name: &[u8],
    net_name: &[u8],
    out_name: &[u8],
    table: &mut [u8; 32769],
    net: &mut [u8; 32768],
    out: &mut [u8; 32768],
) -> Scheduled
    ensures { ScheduledFiles 32768 argument.now table.new net.new out.old out.new result }
{
    let Some(minute) = number(argument) else {
        return Scheduled {
            table: None,
            done: undone(Line::plain(b"usage: schedule MINUTE\n")),
        };
    };
    let Some(n) = read_file(files, table_name, table) else {
        return Scheduled {
            table: None,
            done: undone(Line::plain(b"no windows\n")),
        };
    };
    let done = schedule_for(files, &table[..n], minute, net_name, out_name, net, out);
    Scheduled {
        table: Some(n),
        done,
    }
}
