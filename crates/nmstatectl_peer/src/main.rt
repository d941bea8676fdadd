//! Declarative network state of a machine at the far end of two pipes, with the words of `nmstatectl`. What it does is
//! `run_program`; here the host asks the far end over the file descriptors 3 and 4, and its checkpoint stands in the file `cell` of
//! the state's folder. A far end that is gone is a fault and no signal: the runtime ignores SIGPIPE.
#![tactic(auto)]

ghost use Rattle.std.specs.Prelude.{◌≡◌};
ghost use Rattle.std.specs.Process.{exit_status};

use file_disk::FileDisk;
use folder_hosts::words;
use peer_host::PeerHost;
use program_top::{Report, run_program};
use std::io::Write;
use std::process::ExitCode;
use stream_peer::{Frames, StreamPeer};
use system_adapters::{
    FileFolder, FileSource, Stream, StreamSink, SystemClock, service_folder, take_closed_streams,
    take_folder,
};

/// The status where memory is refused before a command is read.
const OUT_OF_MEMORY: u8 = 8;

/// The status of a fault of the host.
const HOST_FAULT: u8 = 5;

/// The file that requests are written to, a pipe.
const REQUESTS: &str = "/dev/fd/3";

/// The file that answers are read from, a pipe.
const ANSWERS: &str = "/dev/fd/4";

// The folder of the state, where the words name none.
const HERE: &str = ".";

/// Says on the errors that memory was refused, and gives its status.
fn out_of_memory(rt: &HostRuntime) -> ExitCode
    ensures { exit_status result ≡ 8 }
{
    let _ = rt.stderr().write_all(b"error: out of memory\n");
    ExitCode::from(OUT_OF_MEMORY)
}

/// Says on the errors that a fault came before anything was done, and gives its status.
fn not_begun(rt: &HostRuntime) -> ExitCode
    ensures { exit_status result ≡ 5 }
{
    let _ = rt.stderr().write_all(b"error: host fault, not begun\n");
    ExitCode::from(HOST_FAULT)
}

/// Ends with the status of a report.
fn ending(report: &Report) -> ExitCode
    ensures { exit_status result ≡ report.now.status }
{
    ExitCode::from(report.status)
}

// The host over the far end, with its checkpoint in the folder that was named, or in the one where the program runs. Where the
// pipes aren't there each request is a fault.
fn far_host<'a>(
    rt: &'a HostRuntime,
    named: &'a Option<String>,
) -> PeerHost<StreamPeer<FileDisk<'a>>> {
    let folder = match named {
        Some(folder) => folder.as_str(),
        None => HERE,
    };
    let frames = match Frames::open(rt, REQUESTS, ANSWERS) {
        Ok(frames) => Some(frames),
        Err(_) => None,
    };
    PeerHost::new(StreamPeer::new(frames, FileDisk::open(rt, folder)))
}

fn main(rt: HostRuntime) -> ExitCode {
    let alloc = rt.alloc();
    // Before any file is opened: a file would get the number of a closed stream, and be written into.
    if take_closed_streams(&rt).is_err() {
        return not_begun(&rt);
    }
    let Ok(mut words) = words(&rt) else {
        return out_of_memory(&rt);
    };
    let named = take_folder(&mut words);
    let mut host = far_host(&rt, &named);
    // A far end has no nodes, so the words of a rollout are answered as arguments that aren't taken.
    let mut nodes = Vec::new(alloc);
    let mut folder = FileFolder::new(&rt, service_folder(words.as_slice()));
    let mut source = FileSource::new(&rt);
    let mut out = StreamSink::new(Stream::Out(rt.stdout()));
    let mut err = StreamSink::new(Stream::Err(rt.stderr()));
    let mut clock = SystemClock::new(&rt);
    let report = run_program(
        alloc,
        &words,
        &mut host,
        &mut nodes,
        &mut source,
        &mut folder,
        &mut out,
        &mut err,
        &mut clock,
    );
    ending(&report)
}
