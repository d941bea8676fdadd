//! Events and states as words.

use rollout_model::{Core, Event, MAX_NODES};
use std::alloc::Global;

/// An event of this node by its word.
pub fn event_of(word: &str, node: u32) -> Option<Event> {
    match word {
        "start" => Some(Event::Start(node)),
        "opened" => Some(Event::Open(node)),
        "refused" => Some(Event::Refused(node)),
        "unclear" => Some(Event::Unclear(node)),
        "starved" => Some(Event::Starved(node)),
        "good" => Some(Event::Good(node)),
        "bad" => Some(Event::Bad(node)),
        "closed" => Some(Event::Closed(node)),
        "late" => Some(Event::Late(node)),
        "back" => Some(Event::Back(node)),
        _ => None,
    }
}

/// The word of an event.
pub fn word_of(event: Event) -> &'static str {
    match event {
        Event::Start(_) => "start",
        Event::Open(_) => "opened",
        Event::Refused(_) => "refused",
        Event::Unclear(_) => "unclear",
        Event::Starved(_) => "starved",
        Event::Good(_) => "good",
        Event::Bad(_) => "bad",
        Event::Closed(_) => "closed",
        Event::Late(_) => "late",
        Event::Back(_) => "back",
    }
}

/// The ten events of a node.
pub fn push_events(node: u32, events: &mut Vec<Event>) -> Option<()> {
    events.push(Event::Start(node)).ok()?;
    events.push(Event::Open(node)).ok()?;
    events.push(Event::Refused(node)).ok()?;
    events.push(Event::Unclear(node)).ok()?;
    events.push(Event::Starved(node)).ok()?;
    events.push(Event::Good(node)).ok()?;
    events.push(Event::Bad(node)).ok()?;
    events.push(Event::Closed(node)).ok()?;
    events.push(Event::Late(node)).ok()?;
    events.push(Event::Back(node)).ok()
}

/// These events, and one more.
pub fn longer_by(alloc: Global, events: &[Event], event: Event) -> Option<Vec<Event>> {
    let mut longer = Vec::from_slice(alloc, events).ok()?;
    longer.push(event).ok()?;
    Some(longer)
}

/// A number in digits.
pub fn number(word: &str) -> Option<u32> {
    word.parse::<u32>().ok()
}

/// A rollout over so many nodes of which so many may be held, where both are in range.
pub fn begun(alloc: Global, nodes: u32, limit: u32) -> Option<Core> {
    if nodes < 1 || nodes > MAX_NODES {
        return None;
    }
    if limit < 1 || limit > MAX_NODES {
        return None;
    }
    Core::new(alloc, nodes, limit).ok()
}

/// That rollout after these events.
pub fn after(alloc: Global, nodes: u32, limit: u32, events: &[Event]) -> Option<Core> {
    let mut core = begun(alloc, nodes, limit)?;
    for event in events {
        core.told(event);
    }
    Some(core)
}
