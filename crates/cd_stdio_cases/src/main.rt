//! Devices that signals interrupt, that fail in the middle and that fail when they are flushed; messages, which wait for their writer;
//! log writers over standard streams and a real file; and disks over files that do little, that are full, and real ones.
//!
//! device.rt has the devices. failing.rt has what the forms of `cd_stdio` make of them, telling.rt what becomes of messages, and
//! appending.rt what log writers do with their lines. handing_on.rt has what a lane over another hands on to it. slow_file.rt has a
//! file that does little at a time, and saving.rt what disks make of it and of real files. Each scene says whether all of it came out
//! as it has to. Its name is printed, with `differs` where it did not. Lines that begin with two spaces are what the scenes themselves
//! have written.
#![tactic(auto)]

mod appending;
mod device;
mod failing;
mod handing_on;
mod saving;
mod slow_file;
mod telling;

use appending::{
    a_lane_over_streams_logs, a_pipe_is_no_log_file, a_writer_has_a_name_that_is_known,
    lines_go_to_the_end_of_their_file, lines_of_two_threads_are_whole,
    standard_streams_are_writers,
};
use cd_disk::{AUTOSAVE_FILE, AutosaveFile, FileDisk};
use cd_stdio::{StreamLane, Writers};
use failing::{
    a_configuration_fails_in_the_middle, a_connection_fails_in_the_middle,
    a_failed_write_says_how_much_it_gave, an_output_fails_in_the_middle,
    an_output_fails_when_it_is_flushed,
};
use handing_on::a_lane_that_reports_hands_on;
use saving::{
    a_disk_goes_on_after_a_short_write, a_disk_leaves_messages, a_failed_sync_ends_a_disk,
    a_file_has_what_was_saved, a_file_is_made_by_the_first_write, a_file_is_open_once,
    a_file_that_has_come_stays, a_file_that_was_moved_is_missed, a_full_disk_fails,
    an_empty_file_is_used, what_is_no_saved_file_stays,
};
use std::fs::{File, Files};
use std::io;
use std::io::{Stderr, Stdout};
use std::process::ExitCode;
use std::sync::Wait;
use std::thread::Threads;
use telling::{
    a_line_comes_after_messages, a_name_is_shown, fixtures_leave_messages,
    messages_wait_for_their_writer,
};

fn main(rt: HostRuntime) -> ExitCode {
    crosses(&StreamLane::new(&rt, rt.alloc(), io::empty(), io::empty(), rt.stderr()));
    crosses(&FileDisk::new(AutosaveFile::new(&rt, AUTOSAVE_FILE)));
    match all_scenes(&rt, rt.stdout(), rt.stderr()) {
        Ok(()) => ExitCode::SUCCESS,
        Err(_) => ExitCode::from(2),
    }
}

// A run serves each lane in a thread of its own, and lanes share a disk.
fn crosses<L: Send>(_lane: &L) {}

fn all_scenes<R: Threads + Wait + Sync + Print + Files<File = File> + AllocGlobal>(
    rt: &R,
    output: Stdout,
    error: Stderr,
) -> io::Result<()> {
    tell_devices(rt)?;
    tell_messages(rt, output)?;
    tell_writers(rt, output, error)?;
    tell_disks(rt, output)?;
    tell_files(rt)
}

fn tell_devices<R: Wait + Print + Files<File = File> + AllocGlobal>(rt: &R) -> io::Result<()> {
    let connection = a_connection_fails_in_the_middle(rt, rt.alloc());
    let configuration = a_configuration_fails_in_the_middle();
    tell(rt, "a configuration fails in the middle", configuration)?;
    tell(
        rt,
        "an output fails in the middle",
        an_output_fails_in_the_middle(),
    )?;
    tell(rt, "a connection fails in the middle", connection)?;
    let flushed = an_output_fails_when_it_is_flushed();
    tell(rt, "an output fails when it is flushed", flushed)?;
    let counted = a_failed_write_says_how_much_it_gave();
    tell(rt, "a failed write says how much it gave", counted)
}

fn tell_messages<R: Wait + Print + AllocGlobal>(rt: &R, output: Stdout) -> io::Result<()> {
    let waited = messages_wait_for_their_writer(rt, rt.alloc(), output);
    tell(rt, "messages wait for their writer", waited == Ok(true))?;
    let left = fixtures_leave_messages(rt, rt.alloc(), output);
    tell(rt, "fixtures leave messages", left == Ok(true))?;
    let after = a_line_comes_after_messages(rt, rt.alloc(), output);
    tell(rt, "a line comes after messages", after == Ok(true))?;
    let named = a_name_is_shown(rt, rt.alloc(), output);
    tell(
        rt,
        "a name is shown without its control characters",
        named == Ok(true),
    )?;
    let handed = a_lane_that_reports_hands_on(rt, rt.alloc(), output);
    tell(rt, "a lane that reports hands on", handed)
}

fn tell_writers<R: Threads + Wait + Sync + Print + Files<File = File> + AllocGlobal>(
    rt: &R,
    output: Stdout,
    error: Stderr,
) -> io::Result<()> {
    let writers = Writers::new(rt.alloc(), output, error);
    let streams = standard_streams_are_writers(rt, &writers)?;
    tell(rt, "standard streams are writers", streams)?;
    let appended = lines_go_to_the_end_of_their_file(rt, &writers)?;
    tell(rt, "lines go to the end of their file", appended)?;
    let whole = lines_of_two_threads_are_whole(rt, &writers)?;
    tell(rt, "lines of two threads are whole", whole)?;
    let named = a_writer_has_a_name_that_is_known(rt, &writers)?;
    tell(rt, "a writer has a name that is known", named)?;
    let refused = a_pipe_is_no_log_file(rt, &writers)?;
    tell(rt, "a pipe is no log file", refused)?;
    let logged = a_lane_over_streams_logs(rt, output);
    tell(rt, "a lane over streams logs", logged)
}

fn tell_disks<R: Wait + Print + AllocGlobal>(rt: &R, output: Stdout) -> io::Result<()> {
    let short = a_disk_goes_on_after_a_short_write(rt.alloc());
    tell(rt, "a disk goes on after a short write", short)?;
    tell(rt, "a full disk fails", a_full_disk_fails(rt.alloc()))?;
    let ended = a_failed_sync_ends_a_disk(rt.alloc());
    tell(rt, "a failed sync ends a disk", ended)?;
    let left = a_disk_leaves_messages(rt, rt.alloc(), output);
    tell(rt, "a disk leaves messages", left)
}

fn tell_files<R: Print + Files<File = File> + AllocGlobal>(rt: &R) -> io::Result<()> {
    let made = a_file_is_made_by_the_first_write(rt);
    tell(rt, "a file is made by the first write", made)?;
    let other = what_is_no_saved_file_stays(rt);
    tell(rt, "what is no saved file stays", other)?;
    let come = a_file_that_has_come_stays(rt);
    tell(rt, "a file that has come stays", come)?;
    tell(rt, "an empty file is used", an_empty_file_is_used(rt))?;
    tell(rt, "a file is open once", a_file_is_open_once(rt))?;
    let moved = a_file_that_was_moved_is_missed(rt);
    tell(rt, "a file that was moved is missed", moved)?;
    let saved = a_file_has_what_was_saved(rt);
    tell(rt, "a file has what was saved", saved)
}

// Prints the name of a scene.
fn tell(rt: &impl Print, name: &str, holds: bool) -> io::Result<()> {
    if holds {
        println!(rt; "{name}")
    } else {
        println!(rt; "{name}: differs")
    }
}
