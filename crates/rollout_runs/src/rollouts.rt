//! Rollouts, and what is seen of them.
ghost use Rattle.std.specs.Prelude.{◌≡◌, true};
ghost use Rattle.document_model.specs.Entries.{is_document};

use crate::documents::document;
use crate::moments::Moments;
use crate::nodes::{Node, node_of};
use case_outside::MemorySink;
use case_table::{Text, parted};
use document_model::Doc;
use rollout_core::{Core, MAX_NODES};
use rollout_run::{Printed, roll_out};
use std::alloc::Global;

/// How long each change waits for its commit, in seconds.
pub const TIMEOUT: u32 = 60;

/// The moments of these words.
pub fn moments(alloc: Global, words: &str) -> Option<Vec<u64>> {
    let mut moments = Vec::new(alloc);
    for word in words.split_ascii_whitespace() {
        moments.push(word.parse::<u64>().ok()?).ok()?;
    }
    Some(moments)
}

/// The nodes of these words.
pub fn nodes(alloc: Global, words: &str) -> Option<Vec<Node>> {
    let mut nodes = Vec::new(alloc);
    for word in words.split_ascii_whitespace() {
        nodes.push(node_of(alloc, word)?).ok()?;
    }
    Some(nodes)
}

/// Rolls a document out over nodes, and gives what it was printed to.
pub fn roll(
    alloc: Global,
    limit: u32,
    moments: Vec<u64>,
    doc: &Doc,
    nodes: &mut Vec<Node>,
) -> Option<MemorySink>
    requires { is_document doc.now ≡ true }
{
    let count = nodes.len();
    if count < 1 || count > MAX_NODES as usize {
        return None;
    }
    if limit < 1 || limit > MAX_NODES {
        return None;
    }
    let mut core = Core::new(alloc, count as u32, limit).ok()?;
    let mut clock = Moments::new(moments);
    let mut out = MemorySink::new(alloc, Vec::new(alloc));
    roll_out(
        alloc,
        &mut core,
        nodes,
        doc,
        TIMEOUT,
        Printed::Whole,
        &mut clock,
        &mut out,
    );
    Some(out)
}

/// The limit, the moments and the document of a case, and the words behind them.
#[derive(Clone, Copy)]
pub struct Head<'a> {
    pub limit: u32,
    pub moments: &'a str,
    pub document: &'a str,
    pub rest: &'a str,
}

/// Reads `LIMIT; MOMENT ..; DOCUMENT; ..`.
pub fn head_of(case: &str) -> Option<Head<'_>> {
    let (limit, case) = parted(case, "; ");
    let (moments, case) = parted(case, "; ");
    let (document, rest) = parted(case, "; ");
    Some(Head {
        limit: limit.parse::<u32>().ok()?,
        moments,
        document,
        rest,
    })
}

fn rolled(
    alloc: Global,
    limit: u32,
    moments: Vec<u64>,
    name: &str,
    words: &str,
) -> Option<MemorySink> {
    let mut nodes = nodes(alloc, words)?;
    match document(alloc, name) {
        Some(doc) => roll(alloc, limit, moments, &doc, &mut nodes),
        None => None,
    }
}

/// `LIMIT; MOMENT ..; DOCUMENT; NODE ..`: pushes what is printed.
pub fn push_told(alloc: Global, case: &str, out: &mut Text) -> Option<()> {
    let head = head_of(case)?;
    let moments = moments(alloc, head.moments)?;
    let printed = rolled(alloc, head.limit, moments, head.document, head.rest)?;
    out.push_bytes(printed.bytes());
    Some(())
}
