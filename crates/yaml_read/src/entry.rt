//! Why an entry of a line stops being one, if it does, however deep it nests.

ghost use Rattle.std.specs.Prelude.{◌≡◌, false, IfOk};
ghost use Rattle.yaml_read.specs.Keys.{key};
ghost use Rattle.yaml_read.specs.OnLine.{on_line};
ghost use Rattle.yaml_read.specs.Faults.{behind_key, entry_by_itself};
ghost use Rattle.yaml_read.specs.Brackets.{flow_alone, stop_of};
ghost use Rattle.yaml_plain.specs.declared.style.Style.TheVariants.{Block};

use crate::brackets::flow_end;
use crate::keys::{begins_other, key};
use crate::line::{begins_flow, is_blank, is_over, on_line};
use crate::stop::{Repeats, Stop, Why};
use std::alloc::{AllocError, Global};
use yaml_plain::{Style, skip_spaces};

// The text behind the key that an entry begins with, if one does, or else the entry.
fn behind_key(alloc: Global, text: &[u8]) -> Result<&[u8], AllocError>
    ensures { IfOk result (λ r. r.now ≡ behind_key text.now (key Block text.now)) }
{
    match key(alloc, Style::Block, text)? {
        Some((_, behind)) => Ok(behind),
        None => Ok(text),
    }
}

// Why a list or map in brackets, behind which the line should be over, stops.
fn stop_of_flow(
    alloc: Global,
    repeats: Repeats,
    levels: usize,
    text: &[u8],
) -> Result<Option<Why>, AllocError>
    ensures { IfOk result (λ w. w ≡ stop_of (flow_alone repeats levels text.now)) }
{
    match flow_end(alloc, repeats, levels, text) {
        Ok(rest) if is_over(rest) => Ok(None),
        Ok(_) => Ok(Some(Why::Unfit)),
        Err(Stop::Memory) => Err(AllocError),
        Err(Stop::Because(why)) => Ok(Some(why)),
    }
}

// Why a value that doesn't begin with a bracket stops. It is read whole: it doesn't nest.
fn stop_of_scalar(
    alloc: Global,
    repeats: Repeats,
    levels: usize,
    text: &[u8],
) -> Result<Option<Why>, AllocError>
    ensures { IfOk result (λ w. w ≡ stop_of (on_line repeats levels text.now)) }
{
    match on_line(alloc, repeats, levels, text) {
        Ok(_) => Ok(None),
        Err(Stop::Memory) => Err(AllocError),
        Err(Stop::Because(why)) => Ok(Some(why)),
    }
}

// Why the value on a line stops.
#[tactic(auto, unfolding(crate::specs::OnLine::on_line))]
fn stop_of_value(
    alloc: Global,
    repeats: Repeats,
    levels: usize,
    text: &[u8],
) -> Result<Option<Why>, AllocError>
    ensures { IfOk result (λ w. w ≡ stop_of (on_line repeats levels text.now)) }
{
    if is_blank(text) {
        return Ok(None);
    }
    if begins_other(skip_spaces(text)) {
        return Ok(Some(Why::Outside));
    }
    if begins_flow(skip_spaces(text)) {
        return stop_of_flow(alloc, repeats, levels, skip_spaces(text));
    }
    stop_of_scalar(alloc, repeats, levels, text)
}

/// Why an entry read by itself, as deep as it may be, stops.
#[tactic(auto, unfolding(crate::specs::Faults::entry_by_itself))]
pub fn stop_of_entry(
    alloc: Global,
    repeats: Repeats,
    text: &[u8],
) -> Result<Option<Why>, AllocError>
    ensures { IfOk result (λ w. w ≡ stop_of (entry_by_itself repeats text.now)) }
{
    stop_of_value(alloc, repeats, text.len(), behind_key(alloc, text)?)
}
