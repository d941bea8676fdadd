//! All lists of events up to a length.

use crate::plain::Plain;
use crate::words::{after, longer_by, number, push_events};
use case_table::{Text, first_word};
use rollout_model::Event;
use std::alloc::Global;

// Which lists are made longer: all of them, or those whose events are accepted. An event that isn't accepted changes nothing,
// which is compared, so that what follows it is compared where it isn't there.
#[derive(Clone, Copy)]
enum Longer {
    All,
    Accepted,
}

// A list of events, and what stands after it.
#[derive(Drop)]
struct List {
    events: Vec<Event>,
    plain: Plain,
}

// What is compared: how many lists, and how many of them differ.
#[derive(Clone, Copy)]
struct Tally {
    lists: u64,
    differ: u64,
}

// Of which rollouts: over so many nodes, and so many of them held.
#[derive(Clone, Copy)]
struct Over {
    nodes: u32,
    limit: u32,
    longer: Longer,
}

fn all_events(alloc: Global, nodes: u32) -> Option<Vec<Event>> {
    let mut events = Vec::new(alloc);
    for node in 0..nodes {
        push_events(node, &mut events)?;
    }
    Some(events)
}

// A list, and one event more.
fn one_more(
    alloc: Global,
    over: Over,
    list: &List,
    event: Event,
    tally: &mut Tally,
    lists: &mut Vec<List>,
) -> Option<()> {
    let mut core = after(alloc, over.nodes, over.limit, list.events.as_slice())?;
    let mut plain = list.plain.copied(alloc)?;
    let is_accepted = plain.told(event);
    tally.lists = tally.lists.saturating_add(1);
    if core.told(&event) != is_accepted || !plain.agrees(&core) {
        tally.differ = tally.differ.saturating_add(1);
    }
    if is_accepted || over.longer == Longer::All {
        let events = longer_by(alloc, list.events.as_slice(), event)?;
        lists.push(List { events, plain }).ok()?;
    }
    Some(())
}

fn each_event(
    alloc: Global,
    over: Over,
    list: &List,
    events: &[Event],
    tally: &mut Tally,
    lists: &mut Vec<List>,
) -> Option<()> {
    for event in events {
        one_more(alloc, over, list, *event, tally, lists)?;
    }
    Some(())
}

fn each_list(
    alloc: Global,
    over: Over,
    shorter: &[List],
    events: &[Event],
    tally: &mut Tally,
) -> Option<Vec<List>> {
    let mut lists = Vec::new(alloc);
    for list in shorter {
        each_event(alloc, over, list, events, tally, &mut lists)?;
    }
    Some(lists)
}

fn up_to(alloc: Global, over: Over, length: u32) -> Option<Tally> {
    let events = all_events(alloc, over.nodes)?;
    let mut tally = Tally {
        lists: 0,
        differ: 0,
    };
    let mut lists = Vec::new(alloc);
    let first = List {
        events: Vec::new(alloc),
        plain: Plain::begun(alloc, over.nodes, over.limit)?,
    };
    lists.push(first).ok()?;
    for _ in 0..length {
        lists = each_list(alloc, over, lists.as_slice(), events.as_slice(), &mut tally)?;
    }
    Some(tally)
}

/// `all NODES LIMIT LENGTH`, or `accepted NODES LIMIT LENGTH` for lists in which only the last event may be one that isn't
/// accepted: pushes how many lists there are, and how many of them end otherwise than by the table of this program.
pub fn push_compared(alloc: Global, case: &str, out: &mut Text) -> Option<()> {
    let (longer, words) = first_word(case);
    let (nodes, words) = first_word(words);
    let (limit, length) = first_word(words);
    let over = Over {
        nodes: number(nodes)?,
        limit: number(limit)?,
        longer: match longer {
            "all" => Longer::All,
            _ => Longer::Accepted,
        },
    };
    let tally = up_to(alloc, over, number(length)?)?;
    out.push_count(tally.lists, " lists, ");
    out.push_count(tally.differ, " differ");
    Some(())
}
