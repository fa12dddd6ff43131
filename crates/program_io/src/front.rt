// The front of a file, read into a lent buffer.
ghost use Rattle.std.specs.Prelude.{◌≡◌, length, IfOk, IfSome};
ghost use Rattle.io.specs.Counts.{IsPrefixLen};

use std::fs::{File, Files};
use std::io::{self, Read};
use std::str;

// Room for the bytes of a file that count.
pub fn room() -> [u8; 32768]
    ensures { 32768 ≡ length result }
{
    [0; 32768]
}

// Fills the buffer until the file ends, and answers how many bytes that is; an error where a read fails. The loop counts no index: each
// read says how far it came.
fn fill<F: Read>(file: &mut F, buffer: &mut [u8]) -> io::Result<usize>
    ensures { IfOk result (λ n. IsPrefixLen n buffer.new) }
{
    let mut n = 0;
    while n < buffer.len() {
        let more = file.read(&mut buffer[n..])?;
        if more == 0 {
            break;
        }
        n += more;
    }
    Ok(n)
}

// Puts the front of the file into the buffer, and answers how many bytes that is; none for a file that cannot be read. A length and no
// slice: of a buffer that is lent on in the result a clause cannot name what it holds. Names are any bytes, as for the programs' libraries
// (plan_files, plan_annotations, plan_schedules and point_draw take no fewer): a file whose name is not in UTF-8 cannot be read.
pub fn read_file<R: Files>(files: &R, name: &[u8], buffer: &mut [u8]) -> Option<usize>
    ensures { IfSome result (λ n. IsPrefixLen n buffer.new) }
{
    let path = str::from_utf8(name).ok()?;
    let mut file = File::open(files, path).ok()?;
    fill(&mut file, buffer).ok()
}

// The same; 0 where nothing could be read.
pub fn read_front<R: Files>(files: &R, name: &[u8], buffer: &mut [u8]) -> usize
    ensures { IsPrefixLen result buffer.new }
{
    read_file(files, name, buffer).unwrap_or(0)
}
