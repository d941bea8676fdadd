//! One document: applied, then marked.
ghost use Rattle.std.specs.Prelude.{◌≡◌, true, Some, Ok};
ghost use Rattle.net_model.specs.NetData.{NetData, IsNet};
ghost use Rattle.document_model.specs.declared.Doc.{Doc};
ghost use Rattle.document_model.specs.Entries.{is_document};
ghost use Rattle.host_core.specs.Folders.{IsPending};
ghost use Rattle.boot_service.specs.Serving.{defaults, Serves};

use crate::fault::ServeFault;
use document_model::Doc;
use engine_core::apply;
use engine_model::ApplyOpts;
use host_core::{Failed, Folder, Host};
use merge_laws::merge_laws;
use net_model::Domain;
use std::alloc::Global;

/// How long a change may wait, in seconds, where nothing else is said.
const TIMEOUT: u32 = 60;

fn defaults() -> ApplyOpts
    ensures { result ≡ defaults }
{
    ApplyOpts {
        no_commit: false,
        no_verify: false,
        timeout: TIMEOUT,
    }
}

/// Applies a document of a folder as `apply` does where nothing else is said, and marks its file once the change is committed. The
/// document is one that the readers give, and where the folder tells its files, the file is there, isn't marked and has a
/// name that ends in `.yml`. The moment is in seconds.
///
/// It answers `Apply` of the fault that `apply` answers, also where the change is made and its commit is in doubt, and
/// `NotMarked` where the change was committed and the folder failed.
pub fn serve_one<H: Host, F: Folder>(
    host: &mut H,
    alloc: Global,
    folder: &mut F,
    name: &Domain,
    doc: &Doc,
    now: u64,
) -> Result<(), ServeFault>
    requires document { is_document doc.now ≡ true }
    requires pending { F.tells → IsPending name.now (F.told folder.old).files }
    ensures { Serves H.honest H.tells F.tells doc.now name.now now (H.told host.old) (H.told host.new)
        (F.told folder.old) (F.told folder.new) (folder.new ≡ folder.old) result }
{
    merge_laws();
    let opts = defaults();
    match apply(host, alloc, doc, &opts, now) {
        Ok(_) => {}
        Err(fault) => return Err(ServeFault::Apply(fault)),
    }
    match folder.mark(name) {
        Ok(()) => Ok(()),
        Err(Failed) => Err(ServeFault::NotMarked),
    }
}
