//! A step of a rollout: what is next is carried out on the hosts, and told.
ghost use Rattle.std.specs.Prelude.{◌≡◌, ◌≢◌, ◌≤◌, ◌<◌, ℕ, true, List, [], ◌∷◌, ◌++◌, length, Some, None};
ghost use Rattle.document_model.specs.Entries.{is_document};
ghost use Rattle.engine_model.specs.Machine.{Asked};
ghost use Rattle.rollout_model.specs.Next.{next};
ghost use Rattle.rollout_model.specs.Rolls.{Carries, work};
ghost use Rattle.rollout_model.specs.Steps.{after, run, AllAccepted};
ghost use Rattle.rollout_core.specs.Did.{Did, change, events_of};
ghost use Rattle.rollout_core.specs.Holding.{Holds};
ghost use Rattle.rollout_core.specs.Trace.{Stepped};

use crate::answers::{closing, opening, probing, returning};
use crate::told::Told;
use document_model::Doc;
use engine_core::{apply, check, commit, rollback};
use engine_model::ApplyOpts;
use host_core::Host;
use rollout_model::{Action, Core, Event, rollout_laws};
use std::alloc::Global;

// Makes the change of a node, and lets it wait.
fn start<H: Host>(
    alloc: Global,
    hosts: &mut Vec<H>,
    i: u32,
    doc: &Doc,
    timeout: u32,
    now: u64,
) -> Event
    requires there { i < length hosts.old.items }
    requires document { is_document doc.now ≡ true }
    ensures { Did H.Host (change doc.now timeout now) (Action.Start i) hosts.old.items hosts.new.items (Event.Start i ∷ result ∷ []) }
{
    let opts = ApplyOpts {
        no_commit: true,
        no_verify: false,
        timeout,
    };
    let host = &mut hosts[i as usize];
    let answer = apply(host, alloc, doc, &opts, now);
    opening(i, answer)
}

// Looks whether the change of a node waits in time.
fn probe<H: Host>(alloc: Global, hosts: &mut Vec<H>, i: u32, now: u64) -> Event
    requires { i < length hosts.old.items }
    ensures { (a : Asked) → a.now ≡ now → Did H.Host a (Action.Probe i) hosts.old.items hosts.new.items (result ∷ []) }
{
    let host = &mut hosts[i as usize];
    let answer = check(host, alloc);
    probing(now, i, answer)
}

// Commits the change of a node.
fn close<H: Host>(hosts: &mut Vec<H>, i: u32, now: u64) -> Event
    requires { i < length hosts.old.items }
    ensures { (a : Asked) → a.now ≡ now → Did H.Host a (Action.Commit i) hosts.old.items hosts.new.items (result ∷ []) }
{
    let host = &mut hosts[i as usize];
    let answer = commit(host, now);
    closing(i, answer)
}

// Takes the change of a node back.
fn take_back<H: Host>(alloc: Global, hosts: &mut Vec<H>, i: u32) -> Event
    requires { i < length hosts.old.items }
    ensures { (a : Asked) → Did H.Host a (Action.Rollback i) hosts.old.items hosts.new.items (result ∷ []) }
{
    let host = &mut hosts[i as usize];
    let answer = rollback(host, alloc);
    returning(i, answer)
}

// Tells of a start and its answer.
fn tell_start(core: &mut Core, start: Event, answer: Event) -> Told
    ensures core { core.new ≡ run core.old (start ∷ answer ∷ []) }
    ensures told { result ≡ record { first = Some start; second = Some answer } }
{
    core.told(&start);
    core.told(&answer);
    Told {
        first: Some(start),
        second: Some(answer),
    }
}

// Tells of the answer of another action.
fn tell(core: &mut Core, answer: Event) -> Told
    ensures core { core.new ≡ run core.old (answer ∷ []) }
    ensures told { result ≡ record { first = Some answer; second = None } }
{
    core.told(&answer);
    Told {
        first: Some(answer),
        second: None,
    }
}

// Carries out what is next, and tells of it.
fn carry_out<H: Host>(
    alloc: Global,
    core: &mut Core,
    hosts: &mut Vec<H>,
    doc: &Doc,
    timeout: u32,
    now: u64,
) -> Told
    requires hosts { length hosts.old.items ≡ length core.old.nodes }
    requires document { is_document doc.now ≡ true }
    ensures did { Did H.Host (change doc.now timeout now) (next core.old) hosts.old.items hosts.new.items (events_of result) }
    ensures core { core.new ≡ run core.old (events_of result) }
    ensures first { result.first ≡ None → result.second ≡ None }
{
    match core.next() {
        Action::Start(i) => {
            let answer = start(alloc, hosts, i, doc, timeout, now);
            tell_start(core, Event::Start(i), answer)
        }
        Action::Probe(i) => {
            let answer = probe(alloc, hosts, i, now);
            tell(core, answer)
        }
        Action::Commit(i) => {
            let answer = close(hosts, i, now);
            tell(core, answer)
        }
        Action::Rollback(i) => {
            let answer = take_back(alloc, hosts, i);
            tell(core, answer)
        }
        Action::Finish => Told {
            first: None,
            second: None,
        },
    }
}

/// Carries out what is next on its host, and tells the rollout of it. There are as many hosts as nodes, and the document is
/// one that the readers give. The timeout of each change and the moment are in seconds.
pub fn rollout_step<H: Host>(
    alloc: Global,
    core: &mut Core,
    hosts: &mut Vec<H>,
    doc: &Doc,
    timeout: u32,
    now: u64,
) -> Told
    requires hosts { length hosts.old.items ≡ length core.old.nodes }
    requires time { 1 ≤ timeout }
    requires document { is_document doc.now ≡ true }
    // What was done, with what answer, and what was told of it: on every host.
    ensures did { Did H.Host (change doc.now timeout now) (next core.old) hosts.old.items hosts.new.items (events_of result) }
    ensures core { core.new ≡ run core.old (events_of result) }
    // An event that comes alone is the first.
    ensures first { result.first ≡ None → result.second ≡ None }
    // The events carry out what was next, and each was accepted.
    ensures carries { Carries (next core.old) (events_of result) }
    ensures accepted { AllAccepted core.old (events_of result) }
    // Less is left to be done, unless nothing was.
    ensures falls { next core.old ≢ Action.Finish → work core.new < work core.old }
    ensures hosts { length hosts.new.items ≡ length core.new.nodes }
    // What holds of a rollout over honest hosts goes on to hold: how each node stands, what stops leave, why each event came.
    ensures holds { H.honest → (limit : ℕ) (first : List H) (steps : List Stepped) → next core.old ≢ Action.Finish
        → Holds H.Host doc.now timeout limit first steps core.old hosts.old.items
        → Holds H.Host doc.now timeout limit first (steps ++ record { at = now; events = events_of result } ∷ []) core.new hosts.new.items }
{
    rollout_laws();
    carry_out(alloc, core, hosts, doc, timeout, now)
}
