//! What is known of services one after another.
ghost use Rattle.service_run.specs.Restarts.{EntersAgain, FoldsAll};

use host_core::{Clock, Folder, Host, Sink, Source};

/// Supplies the laws of services one after another, on honest hosts over folders that tell their files: each was stopped or
/// ended, and behind it a `recover` was done. It has no effect at run time.
pub fn service_laws<H: Host, F: Folder, S: Source, W: Sink, C: Clock>()
    // A service enters at its first network, and behind any number of such services where they came to.
    ensures enters { EntersAgain H.Host F.Folder S.Source W.Sink C.Clock }
    // One that is done then came to exactly the fold of all documents, each taken once.
    ensures folds { FoldsAll H.Host F.Folder S.Source W.Sink C.Clock }
{}
