//! What each rollout is held against: the lines of its events, the network that stands on each node, and what a recovery makes of
//! what a stop at any moment leaves there.
ghost use Rattle.std.specs.Prelude.{◌≡◌, true};
ghost use Rattle.document_model.specs.Entries.{is_document};

use crate::documents::{document, merged};
use crate::nodes::Node;
use crate::rollouts::{head_of, moments, nodes, roll};
use crate::words::{event_of, number};
use case_table::{Text, first_word};
use document_model::Doc;
use engine_core::recover;
use net_core::Net;
use net_equal::same_net;
use rollout_core::{Core, Event, MAX_NODES, NodeState};
use std::alloc::Global;

/// The networks of a node before a rollout, and merged with its document.
#[derive(Drop)]
pub struct Entry {
    net: Option<Net>,
    merged: Option<Net>,
}

fn entry_of(alloc: Global, node: &Node, doc: &Doc) -> Option<Entry>
    requires { is_document doc.now ≡ true }
{
    match node.net() {
        Some(net) => Some(Entry {
            net: Some(net.copy().ok()?),
            merged: merged(alloc, net, doc),
        }),
        None => Some(Entry {
            net: None,
            merged: None,
        }),
    }
}

/// The entries of nodes.
pub fn entries(alloc: Global, nodes: &[Node], doc: &Doc) -> Option<Vec<Entry>>
    requires { is_document doc.now ≡ true }
{
    let mut entries = Vec::new(alloc);
    for node in nodes {
        entries.push(entry_of(alloc, node, doc)?).ok()?;
    }
    Some(entries)
}

fn is_net(net: Option<&Net>, wanted: &Option<Net>) -> bool {
    match (net, wanted) {
        (Some(net), Some(wanted)) => same_net(net, wanted),
        (None, None) => true,
        _ => false,
    }
}

impl Entry {
    fn is_merged(&self, node: &Node) -> bool {
        self.merged.is_some() && is_net(node.net(), &self.merged)
    }

    fn is_before(&self, node: &Node) -> bool {
        is_net(node.net(), &self.net)
    }

    fn word(&self, node: &Node) -> &'static str {
        if self.is_before(node) {
            "entry "
        } else if self.is_merged(node) {
            "merged "
        } else {
            "neither "
        }
    }
}

// ---- events

// `node I WORD`, where the line is one of an event.
fn event_in(line: &str) -> Option<Event> {
    let rest = line.strip_prefix("node ")?;
    let (node, word) = first_word(rest);
    event_of(word, number(node)?)
}

/// The events of the lines.
pub fn events_in(alloc: Global, text: &str) -> Option<Vec<Event>> {
    let mut events = Vec::new(alloc);
    for line in text.lines() {
        if let Some(event) = event_in(line) {
            events.push(event).ok()?;
        }
    }
    Some(events)
}

fn count_held(nodes: &[NodeState]) -> u32 {
    let mut held = 0u32;
    for node in nodes {
        if node.is_held() {
            held = held.saturating_add(1);
        }
    }
    held
}

fn is_closed(event: Event) -> bool {
    match event {
        Event::Closed(_) => true,
        _ => false,
    }
}

// Whether an event is accepted, leaves no more held than may be, and commits nothing after a halt.
fn is_right(core: &mut Core, limit: u32, event: Event) -> bool {
    let breaks_halt = core.is_halted() && is_closed(event);
    let is_accepted = core.told(&event);
    is_accepted && !breaks_halt && count_held(core.nodes()) <= limit
}

fn wrong_events(core: &mut Core, limit: u32, events: &[Event]) -> u64 {
    let mut wrong = 0u64;
    for event in events {
        if !is_right(core, limit, *event) {
            wrong = wrong.saturating_add(1);
        }
    }
    wrong
}

// ---- nodes

fn was_good(events: &[Event], node: u32) -> bool {
    for event in events {
        if *event == Event::Good(node) {
            return true;
        }
    }
    false
}

// Whether a recovery of what a stop left leads to the network from before, or, of a node that was found good, to the merged one.
fn is_whole(alloc: Global, node: &mut Node, entry: &Entry, good: bool, now: u64) -> bool {
    match recover(node, alloc, now) {
        Ok(_) => entry.is_before(node) || good && entry.is_merged(node),
        Err(_) => node.net().is_none() && entry.is_before(node),
    }
}

fn wrong_picks(alloc: Global, node: &Node, after: u64, entry: &Entry, good: bool, now: u64) -> u64 {
    let mut wrong = 0u64;
    for pick in 0..4 {
        if let Some(stopped) = node.stopped(alloc, after, pick) {
            let mut stopped = stopped;
            if !is_whole(alloc, &mut stopped, entry, good, now) {
                wrong = wrong.saturating_add(1);
            }
        }
    }
    wrong
}

/// How many stops left what a recovery at this moment doesn't make whole.
pub fn wrong_stops(alloc: Global, node: &Node, entry: &Entry, good: bool, now: u64) -> u64 {
    let mut wrong = 0u64;
    for after in 0..node.host().calls().saturating_add(1) {
        let more = wrong_picks(alloc, node, after, entry, good, now);
        wrong = wrong.saturating_add(more);
    }
    wrong
}

// Whether the state of a node is that of its network, read and after a recovery.
fn is_as_told(
    alloc: Global,
    node: &Node,
    entry: &Entry,
    state: NodeState,
    good: bool,
    now: u64,
) -> bool {
    let is_state = match state {
        NodeState::Committed => entry.is_merged(node),
        NodeState::Restored | NodeState::Fresh => entry.is_before(node),
        _ => true,
    };
    match node.mended(alloc) {
        Some(mended) => {
            let mut mended = mended;
            is_state && is_whole(alloc, &mut mended, entry, good, now)
        }
        None => false,
    }
}

/// Which stops are looked at: one at each moment, or none.
#[derive(Clone, Copy)]
pub enum Stops {
    Each,
    None,
}

/// What is compared of a rollout: the nodes, what stood on them, its events, and the moment of the recoveries.
#[derive(Drop)]
pub struct Left {
    pub nodes: Vec<Node>,
    pub entries: Vec<Entry>,
    pub events: Vec<Event>,
    pub at: u64,
}

impl Left {
    fn wrong_node(&self, alloc: Global, i: u32, state: NodeState, stops: Stops) -> u64 {
        let place = i as usize;
        let (Some(node), Some(entry)) = (self.nodes.get(place), self.entries.get(place)) else {
            return 1;
        };
        let good = was_good(self.events.as_slice(), i);
        if !is_as_told(alloc, node, entry, state, good, self.at) {
            return 1;
        }
        match stops {
            Stops::Each => wrong_stops(alloc, node, entry, good, self.at),
            Stops::None => 0,
        }
    }

    /// How many things are wrong on the nodes.
    pub fn wrong(&self, alloc: Global, core: &Core, stops: Stops) -> u64 {
        let mut wrong = 0u64;
        let mut i = 0u32;
        for state in core.nodes() {
            let more = self.wrong_node(alloc, i, *state, stops);
            wrong = wrong.saturating_add(more);
            i = i.saturating_add(1);
        }
        wrong
    }

    fn push_words(&self, out: &mut Text) {
        for (node, entry) in self.nodes.iter().zip(self.entries.iter()) {
            out.push_str(entry.word(node));
        }
    }
}

/// How many things went wrong in a rollout: its events, and what it left.
pub fn wrong_in(alloc: Global, limit: u32, left: &Left, stops: Stops) -> Option<u64> {
    let count = left.nodes.len();
    if count < 1 || count > MAX_NODES as usize {
        return None;
    }
    if limit < 1 || limit > MAX_NODES {
        return None;
    }
    let mut core = Core::new(alloc, count as u32, limit).ok()?;
    let in_events = wrong_events(&mut core, limit, left.events.as_slice());
    Some(in_events.saturating_add(left.wrong(alloc, &core, stops)))
}

/// Rolls a document out, and gives what is left.
pub fn leave(alloc: Global, limit: u32, times: &str, doc: &Doc, nodes: Vec<Node>) -> Option<Left>
    requires { is_document doc.now ≡ true }
{
    let moments = moments(alloc, times)?;
    let entries = entries(alloc, nodes.as_slice(), doc)?;
    let last = match moments.last() {
        Some(moment) => *moment,
        None => 0,
    };
    let mut nodes = nodes;
    let printed = roll(alloc, limit, moments, doc, &mut nodes)?;
    let events = events_in(alloc, str::from_utf8(printed.bytes()).unwrap_or(""))?;
    Some(Left {
        nodes,
        entries,
        events,
        at: last.saturating_add(60),
    })
}

fn left_by(alloc: Global, limit: u32, times: &str, name: &str, words: &str) -> Option<Left> {
    let nodes = nodes(alloc, words)?;
    match document(alloc, name) {
        Some(doc) => leave(alloc, limit, times, &doc, nodes),
        None => None,
    }
}

/// `LIMIT; MOMENT ..; DOCUMENT; NODE ..`: pushes which network stands on each node, and how many things went wrong, with a stop
/// at each moment of each node and a recovery.
pub fn push_checked(alloc: Global, case: &str, out: &mut Text) -> Option<()> {
    let head = head_of(case)?;
    let left = left_by(alloc, head.limit, head.moments, head.document, head.rest)?;
    let wrong = wrong_in(alloc, head.limit, &left, Stops::Each)?;
    left.push_words(out);
    out.push_count(wrong, " wrong");
    Some(())
}
