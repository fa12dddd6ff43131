// What a program does with a file that was written into a buffer: it is saved, and the line that says so is made.
#![tactic(auto)]

ghost use Rattle.std.specs.Prelude.{◌≡◌};
ghost use Rattle.format.specs.Replies.{writer_said};
ghost use Rattle.written_files.specs.ReplyLine.{by_number, reply_line};

use program_io::line::Line;
use program_io::saving;
use refusals::Refusal;
use std::fs::Files;

// The reply of a writer, its refusal by its number.
pub fn by_number(reply: Result<u32, Refusal>) -> Result<u32, u8>
    ensures { by_number result ≡ writer_said reply }
{
    match reply {
        Ok(size) => Ok(size),
        Err(refusal) => Err(u8::from(refusal)),
    }
}

// Saves the file that the reply tells of, at the front of the buffer, and answers whether it is saved. A refusal touches no file.
pub fn save_reply<R: Files>(files: &R, name: &[u8], reply: Result<u32, u8>, buffer: &[u8]) -> bool {
    let Ok(size) = reply else {
        return false;
    };
    let Some(file) = buffer.get(..size as usize) else {
        return false;
    };
    saving::save(files, name, file, 0o644).is_ok()
}

// The line for a reply whose file was saved or not.
pub fn line_for(reply: Result<u32, u8>, done: bool) -> Line
    ensures { result ≡ reply_line (by_number reply) done }
{
    match reply {
        Ok(size) => Line::saved(size, done),
        Err(why) => Line::refused(why),
    }
}
