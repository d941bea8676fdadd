//! The plan of a document or a policy, and the plan back, each beside its lines.

use crate::lines::{count_lines, lines_text, plan_text, read_back};
use crate::machine::{Machine, Ran};
use crate::not_done::NotDone;
use crate::tally::Tally;
use net_model::Call;
use plan_core::plan;
use std::alloc::Global;

// What came of lines: how many calls they were read back as, and whether trying them out printed what it should.
fn tally_of(documents: u64, lines: &[u8], calls: Option<u64>, is_right: bool) -> Tally {
    Tally {
        documents,
        lines: count_lines(lines),
        calls: calls.unwrap_or(0),
        differ: if is_right && calls.is_some() { 0 } else { 1 },
    }
}

// Whether lines that are tried out print this network, and leave the one that stands.
fn leads_to(alloc: Global, machine: &Machine, lines: &[u8], shown: &[u8]) -> Result<bool, NotDone> {
    let before = machine.ask(alloc, "show", b"")?;
    let tried = machine.ask(alloc, "simulate", lines)?;
    let after = tried.machine.ask(alloc, "show", b"")?;
    let is_well = tried.report.status == 0 && tried.err().is_empty();
    Ok(is_well && tried.out().as_slice() == shown && before.out() == after.out())
}

// The plan of a document that was then applied, and its lines, which are tried out on the network from before.
fn forth(
    alloc: Global,
    before: &Machine,
    text: &Ran,
    lines: &Ran,
    applied: &Ran,
) -> Result<Tally, NotDone> {
    let calls = read_back(alloc, text.out(), lines.out());
    let shown = applied.machine.ask(alloc, "show", b"")?;
    let leads = leads_to(alloc, before, lines.out(), shown.out())?;
    let is_told = text.report.status == 0 && lines.report.status == 0 && text.err() == lines.err();
    let is_right = is_told && applied.report.status == 0 && leads;
    Ok(tally_of(1, lines.out(), calls, is_right))
}

// The calls between the networks of two machines, if they have the same devices.
fn calls_between(
    alloc: Global,
    from: &Machine,
    to: &Machine,
) -> Result<Option<Vec<Call>>, NotDone> {
    let (Some(from), Some(to)) = (from.memory_net(), to.memory_net()) else {
        return Ok(None);
    };
    if !from.same_hardware(to) {
        return Ok(None);
    }
    Ok(Some(plan(alloc, from, to)?))
}

// The plan back to the network from before, and its lines.
fn back(alloc: Global, machine: &Machine, before: &Machine) -> Result<Tally, NotDone> {
    let Some(planned) = calls_between(alloc, machine, before)? else {
        return Ok(tally_of(0, b"", None, false));
    };
    let lines = lines_text(alloc, &planned);
    let text = plan_text(alloc, &planned);
    let calls = read_back(alloc, &text.bytes, &lines.bytes);
    let shown = before.ask(alloc, "show", b"")?;
    let leads = leads_to(alloc, machine, &lines.bytes, shown.out())?;
    Ok(tally_of(0, &lines.bytes, calls, leads))
}

/// Applies a document or a policy to a machine, and holds its plan and the plan back against their lines. Gives what then stands.
pub fn try_document(
    alloc: Global,
    before: &Machine,
    document: &[u8],
    tally: &mut Tally,
) -> Result<Machine, NotDone> {
    let text = before.ask(alloc, "plan", document)?;
    let lines = text.machine.ask(alloc, "plan --batch", document)?;
    let applied = lines.machine.ask(alloc, "apply", document)?;
    tally.add(forth(alloc, before, &text, &lines, &applied)?);
    tally.add(back(alloc, &applied.machine, before)?);
    Ok(applied.into_machine())
}
