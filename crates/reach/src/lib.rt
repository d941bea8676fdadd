//! Which places of a graph are reachable.
#![tactic(auto)]

// Whether arrows lead round in a cycle.
mod cycle;

ghost use Rattle.std.specs.Prelude.{◌≡◌, ◌<◌, length, IfOk, OnOk, false};
ghost use Rattle.reach.specs.Following.{Follows, Lists, Marks, Waits, Works};
ghost use Rattle.reach.specs.Reach.{IsGraph, IsLeast};

use base_model::{Items, OutOfMemory};
pub use cycle::has_cycle;
use std::alloc::{AllocError, Global};

// The sources: the first places whose arrows are followed.
fn sources(alloc: Global, starts: &[bool]) -> Result<Vec<usize>, AllocError>
    ensures { IfOk result (λ left. Lists starts.now left.items) }
{
    let mut left = Vec::new(alloc);
    for place in 0..starts.len() {
        if starts[place] {
            left.push(place)?;
        }
    }
    Ok(left)
}

// Marks a place, and leaves its arrows to be followed where it is new and no source.
fn mark(
    starts: &[bool],
    marks: &mut [bool],
    left: &mut Vec<usize>,
    target: usize,
) -> Result<(), OutOfMemory>
    requires starts { length starts.now ≡ length marks.old }
    requires inside { target < length marks.old }
    ensures { OnOk result (Marks starts.now target marks.old marks.new left.old.items left.new.items) }
{
    if marks[target] {
        return Ok(());
    }
    if !starts[target] {
        left.push(target)?;
    }
    marks[target] = true;
    Ok(())
}

// Marks what the arrows of one place lead to.
fn follow(
    arrows: &[Items<usize>],
    starts: &[bool],
    marks: &mut [bool],
    left: &mut Vec<usize>,
    place: usize,
) -> Result<(), OutOfMemory>
    requires starts { length starts.now ≡ length arrows.now }
    requires graph { IsGraph arrows.now }
    requires inside { place < length arrows.now }
    requires works { Works arrows.now starts.now marks.old left.old.items place 0 }
    ensures { OnOk result (Follows arrows.now starts.now marks.old marks.new left.old.items left.new.items) }
{
    let targets = arrows[place].items();
    for target in targets {
        mark(starts, marks, left, *target)?;
    }
    Ok(())
}

// Marks what the arrows lead to from the places that are left, in any number of steps.
fn mark_reached(
    arrows: &[Items<usize>],
    starts: &[bool],
    marks: &mut [bool],
    left: &mut Vec<usize>,
) -> Result<(), OutOfMemory>
    requires starts { length starts.now ≡ length arrows.now }
    requires graph { IsGraph arrows.now }
    requires waits { Waits arrows.now starts.now marks.old left.old.items }
    ensures { OnOk result (IsLeast arrows.now starts.now marks.new) }
{
    while let Some(place) = left.pop() {
        follow(arrows, starts, marks, left, place)?;
    }
    Ok(())
}

/// Which places are reachable from the sources, in one step or more. The arrows of each place are followed once.
pub fn closure(
    alloc: Global,
    arrows: &[Items<usize>],
    starts: &[bool],
) -> Result<Vec<bool>, OutOfMemory>
    requires starts { length starts.now ≡ length arrows.now }
    requires graph { IsGraph arrows.now }
    ensures { IfOk result (λ marks. IsLeast arrows.now starts.now marks.items) }
{
    let mut marks = vec![in alloc; false; arrows.len()]?;
    let mut left = sources(alloc, starts)?;
    mark_reached(arrows, starts, &mut marks, &mut left)?;
    Ok(marks)
}
