//! Who runs the program.
ghost use Rattle.std.specs.Io.{ReadsAtMost};

use cd_text::{number_of, split_at_byte};
use std::fs::{File, Files};
use std::io::ErrorKind;
use std::os::unix::fs::FileExt;
use std::{fs, io, str};

// How many bytes of the file are looked at. The line `Uid:` is the ninth, and those before it are short.
const ROOM: usize = 1_024;

/// The user whom the files belong to that this process makes, as /proc has it.
///
/// # Errors
///
/// One kind, with words of our own, where /proc does not say it.
pub fn own_user<R: Files<File = File>>(files: &R) -> io::Result<u32> {
    let mut room = [0u8; ROOM];
    if let Ok(count) = read_status(files, &mut room)
        && let Some(user) = user_in(&room[..count])
    {
        return Ok(user);
    }
    Err(io::Error::new(
        ErrorKind::Other,
        "/proc/self/status does not say which files are one's own",
    ))
}

fn read_status<R: Files<File = File>>(files: &R, room: &mut [u8]) -> io::Result<usize>
    ensures { ReadsAtMost result room.new }
{
    fs::open(files, "/proc/self/status")?.read_at(room, 0)
}

// The last number of the line `Uid:`, the user for the file system (proc_pid_status(5)). The first line is left out, since it has the
// name of the process, which need not be UTF-8.
fn user_in(status: &[u8]) -> Option<u32> {
    let (_, lines) = split_at_byte(status, b'\n')?;
    let lines = str::from_utf8(lines).ok()?;
    let (_, from) = lines.split_once("\nUid:\t")?;
    let (line, _) = from.split_once('\n')?;
    let (_, last) = line.rsplit_once('\t')?;
    u32::try_from(number_of(last)?).ok()
}
