// Bytes saved in a file that appears whole or not at all.
ghost use Rattle.std.specs.Prelude.{◌≤◌, length};

use super::line::Text;
use std::fs::{Files, OpenFile, OpenOptions, Permissions};
use std::io::{self, ErrorKind, Write};
use std::os::unix::fs::{OpenOptionsExt, PermissionsExt};
use std::{fs, str};

// How many names of new files are tried, one after the other.
const TRIES: u32 = 1000000;

// Writes the bytes to the open file, waits until they last and closes it. Each step is tried, whatever came of the one before.
fn write_out<F: Write + OpenFile + Drop>(mut file: F, bytes: &[u8], mode: u32) -> io::Result<()> {
    let set = file.set_permissions(Permissions::from_mode(mode));
    let written = file.write_all(bytes);
    let lasting = file.sync_all();
    set.and(written).and(lasting)
}

// The name of a new file beside the named one, by a number.
fn beside(name: &[u8], number: u32) -> Text<4096>
    requires { length name.now ≤ 4000 }
{
    let mut temp = Text::new();
    temp.push(name);
    temp.push(b".");
    temp.push_decimal(u64::from(number));
    temp
}

// Makes a file that was not there, for its owner alone.
fn create_new<R: Files>(files: &R, name: &str) -> io::Result<R::File> {
    OpenOptions::new()
        .write(true)
        .create_new(true)
        .mode(0o600)
        .open(files, name)
}

// Saves the bytes by way of a new file of the name temp, which is gone afterwards.
fn save_by<R: Files>(
    files: &R,
    file: R::File,
    temp: &str,
    name: &str,
    bytes: &[u8],
    mode: u32,
) -> io::Result<()> {
    let saved = write_out(file, bytes, mode).and_then(|_| fs::rename(files, temp, name));
    if saved.is_err() {
        let _ = fs::remove_file(files, temp);
    }
    saved
}

// Makes a file of these bytes, with the mode, and gives it the name, in place of any older file of that name. The bytes go into a new file
// first, so that an older one stays as it was where something fails. Names are any bytes, as in `front`: no file gets one that is
// not in UTF-8.
pub fn save<R: Files>(files: &R, name: &[u8], bytes: &[u8], mode: u32) -> io::Result<()> {
    if 4000 < name.len() {
        return Err(ErrorKind::InvalidFilename.into());
    }
    let path = str::from_utf8(name).map_err(|_| ErrorKind::InvalidFilename)?;
    for number in 0..TRIES {
        let space = beside(name, number);
        let temp = str::from_utf8(space.as_bytes()).map_err(|_| ErrorKind::InvalidFilename)?;
        match create_new(files, temp) {
            Ok(file) => return save_by(files, file, temp, path, bytes, mode),
            Err(e) if e.kind() == ErrorKind::AlreadyExists => {}
            Err(e) => return Err(e),
        }
    }
    Err(ErrorKind::AlreadyExists.into())
}
