//! A fault at each call of each node.
ghost use Rattle.std.specs.Prelude.{◌≡◌, true};
ghost use Rattle.document_model.specs.Entries.{is_document};

use crate::checks::{Stops, leave, wrong_in};
use crate::documents::{BOTH, document};
use crate::nodes::{Node, node_with};
use crate::rollouts::head_of;
use case_table::{Text, first_word};
use document_model::Doc;
use host_memory::Fuse;
use std::alloc::Global;

// What happens to the one node of a rollout that isn't well.
#[derive(Clone, Copy)]
struct Fault {
    at: u32,
    fuse: Option<Fuse>,
    starves_at: u64,
}

// What the rollouts of a sweep have in common.
#[derive(Clone, Copy)]
struct Sweep<'a> {
    limit: u32,
    times: &'a str,
    count: u32,
    most: u64,
}

// How many rollouts there were, and how many things went wrong in them.
#[derive(Clone, Copy)]
struct Tally {
    rollouts: u64,
    wrong: u64,
}

fn faulty(alloc: Global, count: u32, fault: Fault) -> Option<Vec<Node>> {
    let mut nodes = Vec::new(alloc);
    for i in 0..count {
        let one = if i == fault.at {
            node_with(alloc, BOTH, fault.fuse, fault.starves_at)?
        } else {
            node_with(alloc, BOTH, None, 0)?
        };
        nodes.push(one).ok()?;
    }
    Some(nodes)
}

fn one(alloc: Global, sweep: Sweep<'_>, doc: &Doc, fault: Fault, tally: &mut Tally) -> Option<()>
    requires { is_document doc.now ≡ true }
{
    let nodes = faulty(alloc, sweep.count, fault)?;
    let left = leave(alloc, sweep.limit, sweep.times, doc, nodes)?;
    let wrong = wrong_in(alloc, sweep.limit, &left, Stops::None)?;
    tally.rollouts = tally.rollouts.saturating_add(1);
    tally.wrong = tally.wrong.saturating_add(wrong);
    Some(())
}

// The call of this number fails, without what was asked and with it, and there is no memory for the dump of this number.
fn each_kind(
    alloc: Global,
    sweep: Sweep<'_>,
    doc: &Doc,
    at: u32,
    call: u64,
    tally: &mut Tally,
) -> Option<()>
    requires { is_document doc.now ≡ true }
{
    let undone = Fault {
        at,
        fuse: Some(Fuse { call, done: false }),
        starves_at: 0,
    };
    let done = Fault {
        at,
        fuse: Some(Fuse { call, done: true }),
        starves_at: 0,
    };
    let starved = Fault {
        at,
        fuse: None,
        starves_at: call,
    };
    one(alloc, sweep, doc, undone, tally)?;
    one(alloc, sweep, doc, done, tally)?;
    one(alloc, sweep, doc, starved, tally)
}

fn each_call(alloc: Global, sweep: Sweep<'_>, doc: &Doc, at: u32, tally: &mut Tally) -> Option<()>
    requires { is_document doc.now ≡ true }
{
    for call in 0..sweep.most {
        each_kind(alloc, sweep, doc, at, call.saturating_add(1), tally)?;
    }
    Some(())
}

fn each_node(alloc: Global, sweep: Sweep<'_>, doc: &Doc) -> Option<Tally>
    requires { is_document doc.now ≡ true }
{
    let mut tally = Tally {
        rollouts: 0,
        wrong: 0,
    };
    for at in 0..sweep.count {
        each_call(alloc, sweep, doc, at, &mut tally)?;
    }
    Some(tally)
}

fn tallied(alloc: Global, sweep: Sweep<'_>, name: &str) -> Option<Tally> {
    match document(alloc, name) {
        Some(doc) => each_node(alloc, sweep, &doc),
        None => None,
    }
}

/// `LIMIT; MOMENT ..; DOCUMENT; NODES CALLS`: a rollout for each fault at one of so many calls of one of so many nodes. Pushes
/// how many there were, and how many things went wrong.
pub fn push_swept(alloc: Global, case: &str, out: &mut Text) -> Option<()> {
    let head = head_of(case)?;
    let (count, most) = first_word(head.rest);
    let sweep = Sweep {
        limit: head.limit,
        times: head.moments,
        count: count.parse::<u32>().ok()?,
        most: most.parse::<u64>().ok()?,
    };
    let tally = tallied(alloc, sweep, head.document)?;
    out.push_count(tally.rollouts, " rollouts, ");
    out.push_count(tally.wrong, " wrong");
    Some(())
}
