//! Captures that their own values would be made of.
ghost use Rattle.std.specs.Prelude.{◌≡◌, ◌<◌, length, get_or, IfOk, map, find, option_copied};
ghost use Rattle.std.specs.Str.{bytes_eq};
ghost use Rattle.reach.specs.Positions.{positions};
ghost use Rattle.policy_model.specs.Policies.{have_name, names_capture, reaches_itself};

use crate::sites::names_of;
use base_model::{Items, OutOfMemory, Str};
use policy_model::Capture;
use reach::closure;
use std::alloc::{AllocError, Global};

fn is_named(names: &Option<Items<Str>>, capture: &Capture) -> bool
    ensures { result ≡ have_name names.now capture.now }
{
    match names {
        Some(names) => names.items().contains(&capture.name),
        None => false,
    }
}

// The places of the captures that have one of these names.
fn places_of(
    alloc: Global,
    names: &Option<Items<Str>>,
    captures: &[Capture],
) -> Result<Vec<usize>, OutOfMemory>
    ensures { IfOk result (λ places. places.items ≡ positions (have_name names.now) 0 captures.now) }
{
    let mut places = Vec::new(alloc);
    for (at, capture) in captures.iter().enumerate() {
        if is_named(names, capture) {
            places.push(at)?;
        }
    }
    Ok(places)
}

// The places of the captures that one names.
fn named_by(
    alloc: Global,
    captures: &[Capture],
    capture: &Capture,
) -> Result<Vec<usize>, OutOfMemory>
    ensures { IfOk result (λ places. places.items ≡ positions (names_capture capture.now) 0 captures.now) }
{
    let names = names_of(alloc, capture.text.as_str())?;
    places_of(alloc, &names, captures)
}

// For each capture, the places of those that it names.
fn arrows(alloc: Global, captures: &[Capture]) -> Result<Vec<Items<usize>>, OutOfMemory>
    ensures { IfOk result (λ arrows. arrows.items ≡ map (λ c. positions (names_capture c) 0 captures.now) captures.now) }
{
    let mut arrows = Vec::new(alloc);
    for capture in captures {
        let places = named_by(alloc, captures, capture)?;
        arrows.push(Items::of(places))?;
    }
    Ok(arrows)
}

// Whether a capture has this name.
pub(crate) fn has_name(capture: &Capture, name: &Str) -> bool
    ensures { result ≡ bytes_eq capture.now.name name.now }
{
    capture.name.as_str() == name.as_str()
}

fn starts(alloc: Global, captures: &[Capture], name: &Str) -> Result<Vec<bool>, AllocError>
    ensures { IfOk result (λ marks. marks.items ≡ map (λ c. bytes_eq c.name name.now) captures.now) }
{
    captures
        .iter()
        .map(|capture| has_name(capture, name))
        .collect(alloc)
}

// Whether a capture reaches itself, where these are the places of those that each names.
fn reaches_itself(
    alloc: Global,
    captures: &[Capture],
    arrows: &[Items<usize>],
    at: usize,
    capture: &Capture,
) -> Result<bool, OutOfMemory>
    requires arrows { arrows.now ≡ map (λ c. positions (names_capture c) 0 captures.now) captures.now }
    requires inside { at < length captures.now }
    requires here { capture.now ≡ get_or captures.now at capture.now }
    ensures { IfOk result (λ reaches. reaches ≡ reaches_itself captures.now capture.now) }
{
    let starts = starts(alloc, captures, &capture.name)?;
    let marks = closure(alloc, arrows, &starts)?;
    Ok(marks[at])
}

/// The first capture that reaches itself, by what it names and what that names in turn.
pub(crate) fn first_on_cycle<'a>(
    alloc: Global,
    captures: &'a [Capture],
) -> Result<Option<&'a Capture>, OutOfMemory>
    ensures { IfOk result (λ found. option_copied found ≡ find (reaches_itself captures.now) captures.now) }
{
    let arrows = arrows(alloc, captures)?;
    for (i, capture) in captures.iter().enumerate() {
        if reaches_itself(alloc, captures, &arrows, i, capture)? {
            return Ok(Some(capture));
        }
    }
    Ok(None)
}
