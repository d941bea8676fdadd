//! The documents of a folder, one after another.
ghost use Rattle.std.specs.Prelude.{◌≡◌, true, Bool};
ghost use Rattle.document_model.specs.Entries.{is_document};
ghost use Rattle.host_core.specs.Folders.{IsPending};
ghost use Rattle.boot_service.specs.Stops.{pending};
ghost use Rattle.service_run.specs.Course.{Ran, world};
ghost use Rattle.service_run.specs.Documents.{serve_cause};
ghost use Rattle.service_run.specs.Services.{IsService, names_of};
ghost use Rattle.service_run.specs.Steps.{NamedAs, ServedAs};

use crate::reading::read_document;
use crate::telling::{finished, tell_applied, tell_stop, tell_unlisted};
use answer_text::note_text;
use boot_service::{ServeFault, serve_one};
use document_model::Doc;
use engine_commands::apply_cause;
use host_core::{Clock, Folder, Host, NamesFault, Sink};
use net_model::Domain;
use std::alloc::Global;
use top_model::{Cause, Report};

// What came of one document: its notes, and why the service stops where it wasn't applied and marked.
#[derive(Drop)]
struct Outcome {
    notes: Vec<u8>,
    cause: Option<Cause>,
}

fn serve_cause(fault: ServeFault) -> Cause
    ensures { result ≡ serve_cause fault }
{
    match fault {
        ServeFault::Apply(fault) => apply_cause(fault),
        ServeFault::NotMarked => Cause::FolderFault,
    }
}

// Serves a document that was read. The memory of its notes is taken before any call on the host.
fn serve_read<H: Host, F: Folder>(
    alloc: Global,
    name: &Domain,
    doc: &Doc,
    host: &mut H,
    folder: &mut F,
    now: u64,
) -> Outcome
    requires document { is_document doc.now ≡ true }
    requires pending { F.tells → IsPending name.now (F.told folder.old).files }
    ensures { ServedAs H.Host F.Folder doc.now name.now now host.old host.new folder.old folder.new result.notes.items result.cause }
{
    let Ok(notes) = note_text(alloc, doc.notes.items()) else {
        return Outcome {
            notes: Vec::new(alloc),
            cause: Some(Cause::OutOfMemory),
        };
    };
    let cause = match serve_one(host, alloc, folder, name, doc, now) {
        Ok(()) => None,
        Err(fault) => Some(serve_cause(fault)),
    };
    Outcome { notes, cause }
}

// Reads the document of a name and serves it.
fn serve_named<H: Host, F: Folder>(
    alloc: Global,
    name: &Domain,
    host: &mut H,
    folder: &mut F,
    now: u64,
) -> Outcome
    requires { F.tells → IsPending name.now (F.told folder.old).files }
    ensures { NamedAs H.Host F.Folder name.now now host.old host.new folder.old folder.new result.notes.items result.cause }
{
    match read_document(alloc, name, folder) {
        Ok(doc) => serve_read(alloc, name, &doc, host, folder, now),
        Err(cause) => Outcome {
            notes: Vec::new(alloc),
            cause: Some(cause),
        },
    }
}

// Serves the documents of these names, in their order.
fn serve_names<H: Host, F: Folder, W: Sink, C: Clock>(
    alloc: Global,
    names: &[Domain],
    host: &mut H,
    folder: &mut F,
    out: &mut W,
    err: &mut W,
    clock: &mut C,
) -> Report
    requires { F.tells → names_of (pending (F.told folder.old).files) ≡ names.now }
    ensures { (is_open : Bool) × Ran H.Host F.Folder W.Sink C.Clock names.now (world host.old folder.old out.old err.old clock.old true)
        (world host.new folder.new out.new err.new clock.new is_open) result }
{
    let mut is_open = true;
    for name in names {
        let now = clock.now();
        let Outcome { notes, cause } = serve_named(alloc, name, host, folder, now);
        match cause {
            None => is_open = tell_applied(is_open, &notes, name, out, err),
            Some(cause) => return tell_stop(is_open, &notes, name, cause, out, err),
        }
    }
    finished(is_open)
}

/// Applies the documents of a folder in the order of the bytes of their names, and marks the file of each once its change is
/// committed. It asks the clock once a document, writes to `out` a line for each that was applied and marked, and to `err` the
/// notes of each.
///
/// It stops at the first other answer, with the report of that, and writes to `err` the name of the document and then the line of
/// the cause. It answers `FolderFault` where the folder failed, `NoSuchName` where the folder has no more a file whose name it
/// gave, and each other cause as an apply of that document does. After a write that fails it writes no more and goes on; it then
/// answers `WriteFault` with the status of what would have been its answer.
pub fn serve_all<H: Host, F: Folder, W: Sink, C: Clock>(
    alloc: Global,
    host: &mut H,
    folder: &mut F,
    out: &mut W,
    err: &mut W,
    clock: &mut C,
) -> Report
    ensures { (is_open : Bool) × IsService H.Host F.Folder W.Sink C.Clock (world host.old folder.old out.old err.old clock.old true)
        (world host.new folder.new out.new err.new clock.new is_open) result }
{
    let names = match folder.names(alloc) {
        Ok(names) => names,
        Err(NamesFault::Failed) => return tell_unlisted(Cause::FolderFault, out, err),
        Err(NamesFault::OutOfMemory) => return tell_unlisted(Cause::OutOfMemory, out, err),
    };
    serve_names(alloc, &names, host, folder, out, err, clock)
}
