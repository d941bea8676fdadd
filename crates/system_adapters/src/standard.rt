//! The three standard streams, taken where they are closed. A file that is opened gets the least number that is free: where a
//! standard stream is closed, it would be taken for that stream, and what is printed would be written into it.

use std::fs::{File, OpenOptions};
use std::io;
use std::os::fd::{AsRawFd, IntoRawFd};

/// What stands in for a closed stream: it reads as empty, and what is written to it is gone.
const NOTHING: &str = "/dev/null";

/// A folder that is always there, to see which number is free.
const TOP: &str = "/";

/// How many standard streams there are: they have the numbers below it.
const STREAMS: i32 = 3;

// The file that stands in for a closed stream.
fn nothing(rt: &HostRuntime) -> io::Result<File> {
    OpenOptions::new().read(true).write(true).open(rt, NOTHING)
}

// Whether the least number that is free is beyond the standard streams, so that all three are open.
fn is_each_open(rt: &HostRuntime) -> io::Result<bool> {
    Ok(File::open(rt, TOP)?.as_raw_fd() >= STREAMS)
}

/// Takes each of the three standard streams that is closed, by a file that reads as empty and drops what is written, for as
/// long as the process lives. It opens no other file but a folder to look at, which it closes, so it comes before the first
/// adapter or host is made: these open files, and after it none of them gets the number of a standard stream.
///
/// A fault where one that is closed can't be taken, or where it can't be told whether one is.
pub fn take_closed_streams(rt: &HostRuntime) -> io::Result<()> {
    for _ in 0..STREAMS {
        if is_each_open(rt)? {
            return Ok(());
        }
        // It is never closed again: its number is the stream's.
        let _ = nothing(rt)?.into_raw_fd();
    }
    Ok(())
}
