//! Declarative network state at the command line. What it does is `run_program`; here the host, the nodes and the adapters are
//! made for the folders that its words name, over files, the standard streams and the clock.
#![tactic(auto)]

ghost use Rattle.std.specs.Prelude.{◌≡◌};
ghost use Rattle.std.specs.Process.{exit_status};

use folder_hosts::{host_in, nodes_in, words};
use program_top::{Report, run_program};
use std::io::Write;
use std::process::ExitCode;
use system_adapters::{
    FileFolder, FileSource, Stream, StreamSink, SystemClock, node_folders, service_folder,
    take_closed_streams, take_folder,
};

/// The status where memory is refused before a command is read.
const OUT_OF_MEMORY: u8 = 8;

/// Says on the errors that memory was refused, and gives its status.
fn out_of_memory(rt: &HostRuntime) -> ExitCode
    ensures { exit_status result ≡ 8 }
{
    let _ = rt.stderr().write_all(b"error: out of memory\n");
    ExitCode::from(OUT_OF_MEMORY)
}

/// The status of a fault of the host.
const HOST_FAULT: u8 = 5;

/// Says on the errors that a fault came before anything was done, and gives its status.
fn not_begun(rt: &HostRuntime) -> ExitCode
    ensures { exit_status result ≡ 5 }
{
    let _ = rt.stderr().write_all(b"error: host fault, not begun\n");
    ExitCode::from(HOST_FAULT)
}

/// Ends with the status of a report.
fn ending(report: &Report) -> ExitCode
    ensures { exit_status result ≡ report.now.status }
{
    ExitCode::from(report.status)
}

fn main(rt: HostRuntime) -> ExitCode {
    let alloc = rt.alloc();
    // Before any file is opened: a file would get the number of a closed stream, and be written into.
    if take_closed_streams(&rt).is_err() {
        return not_begun(&rt);
    }
    let Ok(mut words) = words(&rt) else {
        return out_of_memory(&rt);
    };
    let named = take_folder(&mut words);
    let Ok(mut nodes) = nodes_in(&rt, node_folders(words.as_slice())) else {
        return out_of_memory(&rt);
    };
    let mut host = host_in(&rt, &named);
    let mut folder = FileFolder::new(&rt, service_folder(words.as_slice()));
    let mut source = FileSource::new(&rt);
    let mut out = StreamSink::new(Stream::Out(rt.stdout()));
    let mut err = StreamSink::new(Stream::Err(rt.stderr()));
    let mut clock = SystemClock::new(&rt);
    let report = run_program(
        alloc,
        &words,
        &mut host,
        &mut nodes,
        &mut source,
        &mut folder,
        &mut out,
        &mut err,
        &mut clock,
    );
    ending(&report)
}
