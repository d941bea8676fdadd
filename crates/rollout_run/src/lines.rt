//! The lines of events, and the one at the end.
ghost use Rattle.std.specs.Prelude.{◌≡◌, ◌≤◌, ◌++◌, codes, decimal, count_by, length};
ghost use Rattle.rollout_model.specs.Next.{is_fresh};
ghost use Rattle.rollout_run.specs.Texts.{word, event_line, is_committed, is_restored, is_in_doubt, summary_line};

use answer_text::{Line, push_number};
use rollout_core::{Core, Event, NodeState};

// What is told of an event, in one word.
fn word(event: &Event) -> &'static [u8]
    ensures word { result.now ≡ word event.now }
    ensures short { length result.now ≤ 7 }
{
    match event {
        Event::Start(_) => b"start",
        Event::Open(_) => b"opened",
        Event::Refused(_) => b"refused",
        Event::Unclear(_) => b"unclear",
        Event::Starved(_) => b"starved",
        Event::Good(_) => b"good",
        Event::Bad(_) => b"bad",
        Event::Closed(_) => b"closed",
        Event::Late(_) => b"late",
        Event::Back(_) => b"back",
    }
}

/// The line of an event.
pub(crate) fn event_line(event: &Event) -> Line
    ensures { result ≡ event_line event.now }
{
    let mut line = Line::new();
    line.push(b"node ");
    push_number(&mut line, event.node() as u64);
    line.push(b" ");
    line.push(word(event));
    line.push(b"\n");
    line
}

fn is_committed(node: &NodeState) -> bool
    ensures { result ≡ is_committed node.now }
{
    match node {
        NodeState::Committed => true,
        _ => false,
    }
}

fn is_restored(node: &NodeState) -> bool
    ensures { result ≡ is_restored node.now }
{
    match node {
        NodeState::Restored => true,
        _ => false,
    }
}

fn is_in_doubt(node: &NodeState) -> bool
    ensures { result ≡ is_in_doubt node.now }
{
    match node {
        NodeState::Doubt => true,
        _ => false,
    }
}

// How many nodes are in each state.

fn count_fresh(nodes: &[NodeState]) -> usize
    ensures { result ≡ count_by is_fresh nodes.now }
{
    nodes.iter().filter(|node| node.is_fresh()).count()
}

fn count_committed(nodes: &[NodeState]) -> usize
    ensures { result ≡ count_by is_committed nodes.now }
{
    nodes.iter().filter(|node| is_committed(node)).count()
}

fn count_restored(nodes: &[NodeState]) -> usize
    ensures { result ≡ count_by is_restored nodes.now }
{
    nodes.iter().filter(|node| is_restored(node)).count()
}

fn count_in_doubt(nodes: &[NodeState]) -> usize
    ensures { result ≡ count_by is_in_doubt nodes.now }
{
    nodes.iter().filter(|node| is_in_doubt(node)).count()
}

/// The line at the end.
pub(crate) fn summary_line(core: &Core) -> Line
    ensures { result ≡ summary_line core.now }
{
    let nodes = core.nodes();
    let mut line = Line::new();
    push_number(&mut line, count_committed(nodes) as u64);
    line.push(b" committed, ");
    push_number(&mut line, count_restored(nodes) as u64);
    line.push(b" restored, ");
    push_number(&mut line, count_fresh(nodes) as u64);
    line.push(b" not started, ");
    push_number(&mut line, count_in_doubt(nodes) as u64);
    line.push(b" in doubt\n");
    line
}
