//! The table of events, written out once more: by the state of the node before.

use rollout_model::{Action, Core, Event, NodeState};
use std::alloc::Global;

/// A rollout by this table.
#[derive(Drop)]
pub struct Plain {
    pub limit: u32,
    pub halted: bool,
    pub nodes: Vec<NodeState>,
}

// What becomes of a node, and whether the rollout is halted.
#[derive(Clone, Copy)]
struct Row {
    node: NodeState,
    halts: bool,
}

fn goes_on(node: NodeState) -> Option<Row> {
    Some(Row { node, halts: false })
}

fn halts(node: NodeState) -> Option<Row> {
    Some(Row { node, halts: true })
}

fn from_fresh(event: Event, may_start: bool) -> Option<Row> {
    match event {
        Event::Start(_) if may_start => goes_on(NodeState::Starting),
        _ => None,
    }
}

fn from_starting(event: Event) -> Option<Row> {
    match event {
        Event::Open(_) => goes_on(NodeState::Opened),
        Event::Refused(_) => halts(NodeState::Restored),
        Event::Unclear(_) | Event::Starved(_) => halts(NodeState::Doubt),
        _ => None,
    }
}

fn from_opened(event: Event) -> Option<Row> {
    match event {
        Event::Unclear(_) | Event::Starved(_) | Event::Bad(_) => halts(NodeState::Opened),
        Event::Good(_) => goes_on(NodeState::Probed),
        Event::Back(_) => goes_on(NodeState::Restored),
        _ => None,
    }
}

fn from_opened_halted(event: Event) -> Option<Row> {
    match event {
        Event::Unclear(_) | Event::Starved(_) => halts(NodeState::Doubt),
        Event::Bad(_) => halts(NodeState::Opened),
        Event::Back(_) => goes_on(NodeState::Restored),
        _ => None,
    }
}

fn from_probed(event: Event, halted: bool) -> Option<Row> {
    match event {
        Event::Unclear(_) | Event::Starved(_) | Event::Late(_) => halts(NodeState::Doubt),
        Event::Closed(_) if !halted => goes_on(NodeState::Committed),
        Event::Back(_) => goes_on(NodeState::Restored),
        _ => None,
    }
}

fn is_held(node: NodeState) -> bool {
    match node {
        NodeState::Fresh | NodeState::Committed | NodeState::Restored => false,
        NodeState::Starting | NodeState::Opened | NodeState::Probed | NodeState::Doubt => true,
    }
}

fn count_held(nodes: &[NodeState]) -> u32 {
    let mut count = 0u32;
    for node in nodes {
        if is_held(*node) {
            count = count.saturating_add(1);
        }
    }
    count
}

// The number of the first node in one of two states.
fn least(nodes: &[NodeState], one: NodeState, other: NodeState) -> Option<u32> {
    let mut number = 0u32;
    for node in nodes {
        if *node == one || *node == other {
            return Some(number);
        }
        number = number.saturating_add(1);
    }
    None
}

/// The number of the node of an event.
pub fn node_of(event: Event) -> u32 {
    match event {
        Event::Start(i) | Event::Open(i) | Event::Refused(i) => i,
        Event::Unclear(i) | Event::Starved(i) | Event::Good(i) => i,
        Event::Bad(i) | Event::Closed(i) | Event::Late(i) | Event::Back(i) => i,
    }
}

impl Plain {
    /// No node was started.
    pub fn begun(alloc: Global, nodes: u32, limit: u32) -> Option<Plain> {
        let mut states = Vec::new(alloc);
        for _ in 0..nodes {
            states.push(NodeState::Fresh).ok()?;
        }
        Some(Plain {
            limit,
            halted: false,
            nodes: states,
        })
    }

    /// The same once more.
    pub fn copied(&self, alloc: Global) -> Option<Plain> {
        Some(Plain {
            limit: self.limit,
            halted: self.halted,
            nodes: Vec::from_slice(alloc, self.nodes.as_slice()).ok()?,
        })
    }

    fn row(&self, event: Event, node: NodeState) -> Option<Row> {
        let may_start = !self.halted && count_held(self.nodes.as_slice()) < self.limit;
        match node {
            NodeState::Fresh => from_fresh(event, may_start),
            NodeState::Starting => from_starting(event),
            NodeState::Opened if self.halted => from_opened_halted(event),
            NodeState::Opened => from_opened(event),
            NodeState::Probed => from_probed(event, self.halted),
            NodeState::Committed | NodeState::Restored | NodeState::Doubt => None,
        }
    }

    /// Takes an event, and answers whether there is a row for it.
    pub fn told(&mut self, event: Event) -> bool {
        let index = node_of(event) as usize;
        let Some(node) = self.nodes.get(index) else {
            return false;
        };
        let Some(row) = self.row(event, *node) else {
            return false;
        };
        self.nodes[index] = row.node;
        if row.halts {
            self.halted = true;
        }
        true
    }

    fn next_halted(&self) -> Action {
        match least(self.nodes.as_slice(), NodeState::Opened, NodeState::Probed) {
            Some(i) => Action::Rollback(i),
            None => Action::Finish,
        }
    }

    /// What is done next.
    pub fn next(&self) -> Action {
        if self.halted {
            return self.next_halted();
        }
        let nodes = self.nodes.as_slice();
        if count_held(nodes) < self.limit {
            if let Some(i) = least(nodes, NodeState::Fresh, NodeState::Fresh) {
                return Action::Start(i);
            }
        }
        if let Some(i) = least(nodes, NodeState::Opened, NodeState::Opened) {
            return Action::Probe(i);
        }
        match least(nodes, NodeState::Probed, NodeState::Probed) {
            Some(i) => Action::Commit(i),
            None => Action::Finish,
        }
    }

    /// Whether a rollout stands as this one, and does the same next.
    pub fn agrees(&self, core: &Core) -> bool {
        let is_same = self.halted == core.is_halted() && self.next() == core.next();
        is_same && self.nodes.as_slice() == core.nodes()
    }
}
