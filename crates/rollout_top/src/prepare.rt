//! What is taken before the first call on a node: the memory of the notes and of the rollout.
ghost use Rattle.std.specs.Prelude.{◌≡◌, ◌≤◌, IfOk};
ghost use Rattle.rollout_top.specs.Rollouts.{Prepares};

use answer_text::note_text;
use base_model::OutOfMemory;
use document_model::Doc;
use rollout_model::{Core, MAX_NODES};
use std::alloc::Global;

/// What a rollout begins with.
#[derive(Drop)]
pub(crate) struct Prepared {
    /// The lines of the notes of its document.
    pub notes: Vec<u8>,
    /// The rollout, in which nothing was done.
    pub core: Core,
}

/// Takes the memory of the notes and of the rollout.
pub(crate) fn prepare(
    alloc: Global,
    limit: u32,
    nodes: u32,
    doc: &Doc,
) -> Result<Prepared, OutOfMemory>
    requires some_nodes { 1 ≤ nodes }
    requires few_nodes { nodes ≤ MAX_NODES }
    requires some_held { 1 ≤ limit }
    requires few_held { limit ≤ MAX_NODES }
    ensures { IfOk result (Prepares limit nodes doc.now) }
{
    let notes = note_text(alloc, doc.notes.items())?;
    let core = Core::new(alloc, nodes, limit)?;
    Ok(Prepared { notes, core })
}
