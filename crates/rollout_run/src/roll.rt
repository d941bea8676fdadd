//! The steps of a rollout, from the first to the last.
ghost use Rattle.std.specs.Prelude.{◌≡◌, ◌≢◌, ◌≤◌, None, true, false, [], length, option_to_list};
ghost use Rattle.document_model.specs.Entries.{is_document};
ghost use Rattle.rollout_model.specs.Rollout.{begun};
ghost use Rattle.rollout_core.specs.Did.{events_of};
ghost use Rattle.rollout_run.specs.Steps.{first_of, Advances};
ghost use Rattle.rollout_run.specs.Whole.{Rolled};

use crate::printing::{Printed, print_events, print_summary};
use document_model::Doc;
use host_core::{Clock, Host, Sink};
use rollout_core::{Core, Event, Told, holding_laws, rollout_laws, rollout_step};
use std::alloc::Global;

/// How a rollout ended.
#[derive(Clone, Copy)]
pub struct Ended {
    /// The first event that halted it, where one did.
    pub halted_by: Option<Event>,
    /// How much of its lines was printed.
    pub printed: Printed,
}

// Whether nothing was told, so that nothing was left to be done.
fn is_over(told: &Told) -> bool
    ensures over { result ≡ true → events_of told.now ≡ [] }
    ensures going { result ≡ false → events_of told.now ≢ [] }
{
    told.first.is_none() && told.second.is_none()
}

// The event, if it halts.
fn halting(event: Option<Event>) -> Option<Event>
    ensures { result ≡ first_of None (option_to_list event) }
{
    match event {
        Some(event) if event.is_halting() => Some(event),
        _ => None,
    }
}

// The first event that halted the rollout: one from before, or the first of a step that does.
fn first_halting(before: Option<Event>, told: &Told) -> Option<Event>
    ensures { result ≡ first_of before (events_of told.now) }
{
    match before {
        Some(event) => Some(event),
        None => match halting(told.first) {
            Some(event) => Some(event),
            None => halting(told.second),
        },
    }
}

// One step at the clock's moment, with its lines. It answers whether there was anything to do.
fn advance<H: Host, W: Sink, C: Clock>(
    alloc: Global,
    core: &mut Core,
    hosts: &mut Vec<H>,
    doc: &Doc,
    timeout: u32,
    clock: &mut C,
    ended: &mut Ended,
    out: &mut W,
) -> bool
    requires hosts { length hosts.old.items ≡ length core.old.nodes }
    requires time { 1 ≤ timeout }
    requires document { is_document doc.now ≡ true }
    ensures { Advances H.Host C.Clock W.Sink doc.now timeout core.old core.new hosts.old.items hosts.new.items clock.old clock.new
        ended.old ended.new out.old out.new result }
{
    let now = clock.now();
    let told = rollout_step(alloc, core, hosts, doc, timeout, now);
    if is_over(&told) {
        return false;
    }
    ended.halted_by = first_halting(ended.halted_by, &told);
    ended.printed = print_events(&told, ended.printed, out);
    true
}

/// Rolls a change out over the hosts, from the first step to the last. The clock is asked before each step, and before it is
/// seen that nothing is left to be done. A line is printed for each event as it comes, and one at the end; after a write that
/// fails, here or before, nothing more is printed, and the rollout goes on.
///
/// There are as many hosts as nodes of the rollout, and nothing was done on any of them yet; the document is one that the
/// readers give. The timeout of each change is in seconds.
pub fn roll_out<H: Host, W: Sink, C: Clock>(
    alloc: Global,
    core: &mut Core,
    hosts: &mut Vec<H>,
    doc: &Doc,
    timeout: u32,
    printed: Printed,
    clock: &mut C,
    out: &mut W,
) -> Ended
    requires new { core.old ≡ begun (length hosts.old.items) core.old.limit }
    requires time { 1 ≤ timeout }
    requires document { is_document doc.now ≡ true }
    ensures { Rolled H.Host C.Clock W.Sink doc.now timeout core.old.limit hosts.old.items hosts.new.items clock.old clock.new printed
        out.old out.new core.new result }
{
    rollout_laws();
    holding_laws::<H>();
    let mut ended = Ended {
        halted_by: None,
        printed,
    };
    'steps: loop {
        if !advance(alloc, core, hosts, doc, timeout, clock, &mut ended, out) {
            break;
        }
    }
    ended.printed = print_summary(core, ended.printed, out);
    ended
}
