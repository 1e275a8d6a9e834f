//! Log writers over standard streams and a real file.
ghost use Rattle.std.specs.Prelude.{◌≡◌, true};

use cd_outside::{Accepted, Given, Key, Lane};
use cd_stdio::{StreamLane, Writers};
use cd_text::Text;
use std::fs::{File, Files};
use std::io::{Empty, Stderr, Stdout};
use std::os::fd::AsRawFd;
use std::sync::Wait;
use std::thread::{Threads, join};
use std::{fs, io};

type Open = Writers<Stdout, Stderr>;

const LINES: usize = 200;

// A name of a log writer.
fn name_of(rt: &impl AllocGlobal, text: &str) -> io::Result<Text> {
    match Text::from_str(rt.alloc(), text) {
        Ok(name) => Ok(name),
        Err(_) => Err(io::Error::from(io::ErrorKind::OutOfMemory)),
    }
}

// Opens the writer with this name.
fn open<R: Wait + Files<File = File> + AllocGlobal>(
    rt: &R,
    writers: &Open,
    name: &str,
) -> io::Result<()> {
    let name = name_of(rt, name)?;
    writers.open(rt, &name)
}

/// Whether lines go to the end of their file, also after it was closed and opened again, and none while it is closed.
pub fn lines_go_to_the_end_of_their_file<R: Wait + Files<File = File> + AllocGlobal>(
    rt: &R,
    writers: &Open,
) -> io::Result<bool> {
    let name = name_of(rt, "file:lines.log")?;
    let early = writers.log(rt, &name, b"early\n").is_ok();
    writers.open(rt, &name)?;
    writers.log(rt, &name, b"one\n")?;
    writers.close(rt, &name);
    let late = writers.log(rt, &name, b"late\n").is_ok();
    writers.open(rt, &name)?;
    writers.log(rt, &name, b"two\n")?;
    writers.close(rt, &name);
    let text = fs::read_to_string(rt, "lines.log")?;
    Ok(!early && !late && text.as_str() == "one\ntwo\n")
}

/// Whether the lines of two threads to one file are whole.
pub fn lines_of_two_threads_are_whole<R: Threads + Wait + Sync + Files<File = File> + AllocGlobal>(
    rt: &R,
    writers: &Open,
) -> io::Result<bool> {
    let name = name_of(rt, "file:both.log")?;
    writers.open(rt, &name)?;
    let (one, two) = join(
        rt,
        || log_often(rt, writers, &name, b"a line of the first thread\n"),
        || log_often(rt, writers, &name, b"and one of the second\n"),
    );
    writers.close(rt, &name);
    let text = fs::read_to_string(rt, "both.log")?;
    let text = text.as_str();
    let first = text
        .lines()
        .filter(|line| *line == "a line of the first thread");
    let second = text.lines().filter(|line| *line == "and one of the second");
    let whole = first.count() == LINES && second.count() == LINES;
    Ok(one && two && whole && text.lines().count() == 2 * LINES)
}

fn log_often<R: Wait>(rt: &R, writers: &Open, name: &Text, line: &[u8]) -> bool {
    (0..LINES).all(|_| writers.log(rt, name, line).is_ok())
}

/// Whether a writer that drops its lines is known, and an unknown name and a folder that is not there are errors.
pub fn a_writer_has_a_name_that_is_known<R: Wait + Files<File = File> + AllocGlobal>(
    rt: &R,
    writers: &Open,
) -> io::Result<bool> {
    let name = name_of(rt, "discard")?;
    writers.open(rt, &name)?;
    writers.log(rt, &name, b"gone\n")?;
    let unknown = open(rt, writers, "elsewhere").is_err();
    Ok(unknown && open(rt, writers, "file:no/such/folder/lines.log").is_err())
}

/// Whether a line to `stdout` goes to standard output, and one to `stderr` does not.
pub fn standard_streams_are_writers<R: Wait + Files<File = File> + AllocGlobal>(
    rt: &R,
    writers: &Open,
) -> io::Result<bool> {
    let output = name_of(rt, "stdout")?;
    let error = name_of(rt, "stderr")?;
    let early = writers.log(rt, &output, b"  a line too early\n").is_ok();
    writers.open(rt, &output)?;
    writers.open(rt, &error)?;
    writers.log(rt, &output, b"  a line for standard output\n")?;
    writers.log(rt, &error, b"  a line for standard error\n")?;
    Ok(!early)
}

/// Whether a pipe is refused as a log file: whoever opens it would wait for its reader, and so would each line.
pub fn a_pipe_is_no_log_file<R: Wait + Files<File = File> + AllocGlobal>(
    rt: &R,
    writers: &Open,
) -> io::Result<bool> {
    let (reader, writer) = io::pipe(rt)?;
    let number = writer.as_raw_fd();
    let name = format!(in rt.alloc(); "file:/proc/self/fd/{number}")?;
    let refused = match open(rt, writers, name.as_str()) {
        Ok(()) => false,
        Err(error) => error.kind() == io::ErrorKind::InvalidInput,
    };
    drop(reader);
    Ok(refused)
}

/// Whether a lane over streams has its lines in files from their first line on, and those of both standard streams elsewhere than in
/// its output, here in `rest`. What is no writer fails, and is counted. Where memory runs out that differs.
pub fn a_lane_over_streams_logs<R: Wait + Files<File = File> + AllocGlobal>(
    rt: &R,
    rest: Stdout,
) -> bool {
    let mut lane = StreamLane::new(rt, rt.alloc(), io::empty(), io::empty(), rest);
    let Accepted::Connection(_) = lane.accept() else {
        return false;
    };
    let given = gives(rt, &mut lane, "file:first.log", "one\n")
        && gives(rt, &mut lane, "file:first.log", "two\n")
        && gives(
            rt,
            &mut lane,
            "stdout",
            "  a line of a lane for standard output\n",
        )
        && gives(
            rt,
            &mut lane,
            "stderr",
            "  a line of a lane for standard error\n",
        )
        && gives(rt, &mut lane, "discard", "gone\n");
    let failed = !gives(rt, &mut lane, "elsewhere", "gone\n")
        && !gives(rt, &mut lane, "file:no/such/folder/lines.log", "gone\n")
        && lane.faults == 2;
    lane.end();
    given && failed && has_text(rt, "first.log", "one\ntwo\n")
}

fn gives<R: Wait + Files<File = File> + AllocGlobal>(
    rt: &R,
    lane: &mut StreamLane<'_, R, Empty, Empty, Stdout>,
    name: &str,
    line: &str,
) -> bool
    requires { lane.old.connected ≡ true }
    ensures { lane.new.connected ≡ true }
{
    let (Ok(name), Ok(line)) = (
        Text::from_str(rt.alloc(), name),
        Text::from_str(rt.alloc(), line),
    ) else {
        return false;
    };
    lane.log(&Key::Writer(name), &line) == Given::All
}

/// Whether a file has this text.
pub fn has_text<R: Files<File = File> + AllocGlobal>(rt: &R, path: &str, wanted: &str) -> bool {
    match fs::read_to_string(rt, path) {
        Ok(text) => text.as_str() == wanted,
        Err(_) => false,
    }
}
