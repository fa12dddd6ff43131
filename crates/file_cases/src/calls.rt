// Calls of judging, of the helper and of the calendar on the files of a case, and what is printed of each.
use super::files::{File, Files};
use judging::judge;
use points::Point;
use std::io;
use test_calls::writers::{Output, annotate, filled, schedule};
use testing::answers::{Answer, Reply};
use testing::script::{number, numbers};

// How many bytes of a file are shown: its header and ten records.
const MOST: usize = 51;

// Judges at the two points that a word says.
pub fn show_judged<R: Print>(rt: &R, list: &str, files: &Files) -> io::Result<()> {
    let [first, second] = numbers::<2>(list);
    let answer = judge(
        files.net.bytes(),
        files.ann.bytes(),
        Point { first, second },
    );
    print!(rt; "{}", Answer(answer))
}

// Has the helper write the annotation into as many bytes as a word says.
pub fn show_help<R: Print + AllocGlobal>(rt: &R, room: &str, files: &mut Files) -> io::Result<()> {
    let before = filled(rt.alloc(), number(room) as usize)?;
    let output = annotate(rt.alloc(), files.net.bytes(), before.as_slice())?;
    let rest = if output.rest_kept {
        "rest kept"
    } else {
        "REST CHANGED"
    };
    files.ann = File::new(rt.alloc(), output.file.as_slice())?;
    print!(rt; "{} ({rest})", Reply(output.reply))
}

// A space before the header and before each record.
fn gap(i: usize) -> &'static str {
    if i == 0 || 10 < i && (i - 11) % 4 == 0 {
        return " ";
    }
    ""
}

// A file in hexadecimal.
fn show_file<R: Print>(rt: &R, file: &[u8]) -> io::Result<()> {
    for (i, byte) in file.iter().take(MOST).enumerate() {
        print!(rt; "{}{byte:02X}", gap(i))?;
    }
    if MOST < file.len() {
        rt.print(" ..")?;
    }
    Ok(())
}

// The reply of the calendar, with what was written, and a mark where a byte was changed that had to stay.
fn show_output<R: Print>(rt: &R, output: &Output) -> io::Result<()> {
    print!(rt; "{}", Reply(output.reply))?;
    show_file(rt, output.file.as_slice())?;
    if !output.rest_kept {
        rt.print(" TOUCHED")?;
    }
    Ok(())
}

// Has the calendar write the file of the minute that a word says, into so many bytes as it says, where the annotation was.
pub fn show_scheduled<R: Print + AllocGlobal>(
    rt: &R,
    list: &str,
    files: &mut Files,
    windows: &[[u32; 3]],
) -> io::Result<()> {
    let [minute, room] = numbers::<2>(list);
    let before = filled(rt.alloc(), room as usize)?;
    let output = schedule(
        rt.alloc(),
        files.net.bytes(),
        windows,
        minute,
        before.as_slice(),
    )?;
    files.ann = File::new(rt.alloc(), &[])?;
    show_output(rt, &output)
}
