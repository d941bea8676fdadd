//! Rows of events and of answers, each `NODES LIMIT: ..`.

use crate::plain::node_of;
use crate::words::{begun, event_of, number, word_of};
use case_table::{Text, first_word, parted};
use rollout_model::{Action, Core, Event, NodeState};
use std::alloc::Global;

// `NODES LIMIT`.
fn core_of(alloc: Global, words: &str) -> Option<Core> {
    let (nodes, limit) = first_word(words);
    begun(alloc, number(nodes)?, number(limit)?)
}

// `NODE WORD`.
fn read_event(words: &str) -> Option<Event> {
    let (node, word) = first_word(words);
    event_of(word, number(node)?)
}

fn count(nodes: &[NodeState], is: NodeState) -> u64 {
    let mut count = 0u64;
    for node in nodes {
        if *node == is {
            count = count.saturating_add(1);
        }
    }
    count
}

// Whether the rollout is halted, and how many nodes ended how.
fn push_end(core: &Core, out: &mut Text) {
    let nodes = core.nodes();
    out.push_str(if core.is_halted() {
        "halted, "
    } else {
        "going, "
    });
    out.push_count(count(nodes, NodeState::Committed), " committed, ");
    out.push_count(count(nodes, NodeState::Restored), " restored, ");
    out.push_count(count(nodes, NodeState::Fresh), " not started, ");
    out.push_count(count(nodes, NodeState::Doubt), " in doubt");
}

fn push_accepted(core: &mut Core, events: &str, out: &mut Text) -> Option<()> {
    for words in events.split(", ") {
        let is_accepted = core.told(&read_event(words)?);
        out.push_str(if is_accepted { "yes " } else { "no " });
    }
    Some(())
}

/// `NODES LIMIT: NODE WORD, ..`: pushes whether each event is accepted, and what stands after them.
pub fn push_told(alloc: Global, case: &str, out: &mut Text) -> Option<()> {
    let (words, events) = parted(case, ": ");
    let mut core = core_of(alloc, words)?;
    push_accepted(&mut core, events, out)?;
    push_end(&core, out);
    Some(())
}

fn tell(core: &mut Core, event: Event, out: &mut Text) -> Option<()> {
    if !core.told(&event) {
        return None;
    }
    out.push_count(u64::from(node_of(event)), " ");
    out.push_str(word_of(event));
    out.push_str(", ");
    Some(())
}

// Carries out what is next, with an answer by its word.
fn carry_out(core: &mut Core, word: &str, out: &mut Text) -> Option<()> {
    match core.next() {
        Action::Start(i) => {
            tell(core, Event::Start(i), out)?;
            tell(core, event_of(word, i)?, out)
        }
        Action::Probe(i) | Action::Commit(i) | Action::Rollback(i) => {
            tell(core, event_of(word, i)?, out)
        }
        Action::Finish => None,
    }
}

fn carry_all_out(core: &mut Core, answers: &str, out: &mut Text) -> Option<()> {
    for word in answers.split_ascii_whitespace() {
        carry_out(core, word, out)?;
    }
    Some(())
}

/// `NODES LIMIT: WORD ..`: pushes the events where what is next is done and answered so, up to the end, and what stands then.
pub fn push_carried_out(alloc: Global, case: &str, out: &mut Text) -> Option<()> {
    let (words, answers) = parted(case, ": ");
    let mut core = core_of(alloc, words)?;
    carry_all_out(&mut core, answers, out)?;
    if core.next() != Action::Finish {
        return None;
    }
    push_end(&core, out);
    Some(())
}
