//! The fault of a line that can't continue a valid document.

ghost use Rattle.std.specs.Prelude.{◌≡◌, ◌||◌, IfOk};
ghost use Rattle.yaml_read.specs.declared.stop.Repeats.TheVariants.{Refused, Taken};
ghost use Rattle.yaml_read.specs.Outside.{is_outside, has_two_dashes, entry_is_open, entry_of};
ghost use Rattle.yaml_read.specs.Faults.{entry_by_itself, is_other, is_repeat, has_other, has_repeat, by_cause, fault_of};
ghost use Rattle.yaml_read.specs.Seen.{seen, Names};
ghost use Rattle.yaml_read.specs.Brackets.{is_other_stop, is_repeat_stop};

use crate::entry::stop_of_entry;
use crate::fault::YamlFault;
use crate::outside::{entry_is_open, entry_of, has_two_dashes, is_outside};
use crate::rows::Row;
use crate::stop::{Repeats, Why};
use std::alloc::{AllocError, Global};

fn is_other_stop(stop: Option<Why>) -> bool
    ensures { result ≡ is_other_stop stop }
{
    match stop {
        None => false,
        Some(Why::Outside) => true,
        Some(Why::Repeated) => false,
        Some(Why::Deep) => false,
        Some(Why::Unfit) => false,
    }
}

fn is_repeat_stop(stop: Option<Why>) -> bool
    ensures { result ≡ is_repeat_stop stop }
{
    match stop {
        None => false,
        Some(Why::Outside) => false,
        Some(Why::Repeated) => true,
        Some(Why::Deep) => false,
        Some(Why::Unfit) => false,
    }
}

fn is_other(alloc: Global, text: &[u8]) -> Result<bool, AllocError>
    ensures { IfOk result (λ b. b ≡ is_other (entry_by_itself Taken text.now)) }
{
    let stop = stop_of_entry(alloc, Repeats::Taken, text)?;
    Ok(is_other_stop(stop))
}

fn is_repeat(alloc: Global, text: &[u8]) -> Result<bool, AllocError>
    ensures { IfOk result (λ b. b ≡ is_repeat (entry_by_itself Refused text.now)) }
{
    let stop = stop_of_entry(alloc, Repeats::Refused, text)?;
    Ok(is_repeat_stop(stop))
}

fn is_never_supported(row: &Row) -> bool
    ensures { result ≡ (is_outside (seen row.now) || has_two_dashes row.now.line.items) }
{
    is_outside(row) || has_two_dashes(&row.line)
}

// Whether the line by itself lies outside the subset.
#[tactic(auto, unfolding(crate::specs::Faults::has_other))]
fn has_other(alloc: Global, row: &Row) -> Result<bool, AllocError>
    ensures { IfOk result (λ b. b ≡ has_other (seen row.now)) }
{
    if is_never_supported(row) {
        return Ok(true);
    }
    if entry_is_open(entry_of(&row.line)) {
        return Ok(true);
    }
    is_other(alloc, entry_of(&row.line))
}

// Whether a flow map on the line has a repeated key.
#[tactic(auto, unfolding(crate::specs::Faults::has_repeat))]
fn has_repeat(alloc: Global, row: &Row) -> Result<bool, AllocError>
    ensures { IfOk result (λ b. b ≡ has_repeat (seen row.now)) }
{
    is_repeat(alloc, entry_of(&row.line))
}

fn by_cause(why: Why, number: u64) -> YamlFault
    ensures { result ≡ by_cause why number }
{
    match why {
        Why::Outside => YamlFault::Unsupported(number),
        Why::Repeated => YamlFault::DuplicateKey(number),
        Why::Deep => YamlFault::TooDeep(number),
        Why::Unfit => YamlFault::Malformed(number),
    }
}

#[tactic(auto, unfolding(crate::specs::Faults::fault_of))]
fn try_fault_of(alloc: Global, why: Why, row: &Row) -> Result<YamlFault, AllocError>
    ensures { IfOk result (λ f. f ≡ fault_of why (seen row.now)) }
{
    if has_other(alloc, row)? {
        return Ok(YamlFault::Unsupported(row.number));
    }
    if has_repeat(alloc, row)? {
        return Ok(YamlFault::DuplicateKey(row.number));
    }
    Ok(by_cause(why, row.number))
}

/// The fault of a row, by why it can't continue.
pub fn fault_of(alloc: Global, why: Why, row: &Row) -> YamlFault
    ensures { Names result (fault_of why (seen row.now)) }
{
    match try_fault_of(alloc, why, row) {
        Ok(fault) => fault,
        Err(_) => YamlFault::OutOfMemory,
    }
}
