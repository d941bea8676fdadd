//! All runs in which what is next is done, with each answer that it may have.

use crate::plain::{Plain, node_of};
use crate::words::{after, longer_by, number};
use case_table::{Text, first_word};
use rollout_model::{Action, Core, Event, NodeState};
use std::alloc::Global;

// The most events of a node.
const MOST: u32 = 4;

// The most steps of which a run is made, for each node.
const STEPS: u32 = 4;

// The events so far, and what stands after them.
#[derive(Drop)]
struct Run {
    events: Vec<Event>,
    plain: Plain,
}

// How many runs ended, and how many things went otherwise than they should.
#[derive(Clone, Copy)]
struct Tally {
    ended: u64,
    wrong: u64,
}

impl Tally {
    fn expect(&mut self, is_right: bool) {
        if !is_right {
            self.wrong = self.wrong.saturating_add(1);
        }
    }
}

fn count_of(events: &[Event], node: u32) -> u32 {
    let mut count = 0u32;
    for event in events {
        if node_of(*event) == node {
            count = count.saturating_add(1);
        }
    }
    count
}

fn has_few(events: &[Event], nodes: u32) -> bool {
    for node in 0..nodes {
        if count_of(events, node) > MOST {
            return false;
        }
    }
    true
}

// Each node is committed, or where the rollout was halted none waits.
fn is_end(core: &Core) -> bool {
    for node in core.nodes() {
        let is_right = match *node {
            NodeState::Committed => true,
            NodeState::Fresh | NodeState::Restored | NodeState::Doubt => core.is_halted(),
            _ => false,
        };
        if !is_right {
            return false;
        }
    }
    true
}

// The run with one event more.
fn longer(alloc: Global, run: &Run, event: Event, tally: &mut Tally) -> Option<Run> {
    let events = longer_by(alloc, run.events.as_slice(), event)?;
    let mut plain = run.plain.copied(alloc)?;
    tally.expect(plain.told(event));
    Some(Run { events, plain })
}

fn answers(alloc: Global, action: Action) -> Option<Vec<Event>> {
    let answers = match action {
        Action::Start(i) => Vec::from_slice(
            alloc,
            &[
                Event::Open(i),
                Event::Refused(i),
                Event::Unclear(i),
                Event::Starved(i),
            ],
        ),
        Action::Probe(i) => Vec::from_slice(
            alloc,
            &[
                Event::Good(i),
                Event::Bad(i),
                Event::Unclear(i),
                Event::Starved(i),
            ],
        ),
        Action::Commit(i) => {
            Vec::from_slice(
                alloc,
                &[Event::Closed(i), Event::Late(i), Event::Unclear(i)],
            )
        }
        Action::Rollback(i) => {
            Vec::from_slice(
                alloc,
                &[Event::Back(i), Event::Unclear(i), Event::Starved(i)],
            )
        }
        Action::Finish => Ok(Vec::new(alloc)),
    };
    answers.ok()
}

fn each_answer(
    alloc: Global,
    run: &Run,
    action: Action,
    tally: &mut Tally,
    runs: &mut Vec<Run>,
) -> Option<()> {
    let answers = answers(alloc, action)?;
    for answer in answers.as_slice() {
        runs.push(longer(alloc, run, *answer, tally)?).ok()?;
    }
    Some(())
}

// Does what is next, with each answer. A start is an event of its own before its answer.
fn take_step(
    alloc: Global,
    run: &Run,
    action: Action,
    tally: &mut Tally,
    runs: &mut Vec<Run>,
) -> Option<()> {
    match action {
        Action::Start(i) => {
            let begun = longer(alloc, run, Event::Start(i), tally)?;
            each_answer(alloc, &begun, action, tally, runs)
        }
        _ => each_answer(alloc, run, action, tally, runs),
    }
}

fn one_step(
    alloc: Global,
    nodes: u32,
    run: &Run,
    tally: &mut Tally,
    runs: &mut Vec<Run>,
) -> Option<()> {
    let core = after(alloc, nodes, run.plain.limit, run.events.as_slice())?;
    tally.expect(run.plain.agrees(&core));
    let action = core.next();
    if action == Action::Finish {
        tally.ended = tally.ended.saturating_add(1);
        tally.expect(is_end(&core));
        tally.expect(has_few(run.events.as_slice(), nodes));
    }
    take_step(alloc, run, action, tally, runs)
}

fn each_run(alloc: Global, nodes: u32, shorter: &[Run], tally: &mut Tally) -> Option<Vec<Run>> {
    let mut runs = Vec::new(alloc);
    for run in shorter {
        one_step(alloc, nodes, run, tally, &mut runs)?;
    }
    Some(runs)
}

fn all(alloc: Global, nodes: u32, limit: u32) -> Option<Tally> {
    let mut tally = Tally { ended: 0, wrong: 0 };
    let mut runs = Vec::new(alloc);
    let first = Run {
        events: Vec::new(alloc),
        plain: Plain::begun(alloc, nodes, limit)?,
    };
    runs.push(first).ok()?;
    for _ in 0..nodes.saturating_mul(STEPS).saturating_add(1) {
        runs = each_run(alloc, nodes, runs.as_slice(), &mut tally)?;
    }
    tally.expect(runs.as_slice().is_empty());
    Some(tally)
}

/// `NODES LIMIT`: pushes how many runs there are, and how many things in them went otherwise than by the table of this program,
/// ended with a node that waits, or with more events of a node than there may be.
pub fn push_compared(alloc: Global, case: &str, out: &mut Text) -> Option<()> {
    let (nodes, limit) = first_word(case);
    let tally = all(alloc, number(nodes)?, number(limit)?)?;
    out.push_count(tally.ended, " runs, ");
    out.push_count(tally.wrong, " wrong");
    Some(())
}
