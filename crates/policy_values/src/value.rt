//! The value of a policy.
ghost use Rattle.std.specs.Prelude.{◌≡◌, ◌≤◌, ◌∷◌, [], length, find, is_none, map, true, IfOk, option_copied};
ghost use Rattle.base_model.specs.declared.PathStep.TheVariants.{Key};
ghost use Rattle.doc_tree.specs.Shape.{shape, is_distinct, has_short_lists, levels};
ghost use Rattle.doc_tree.specs.declared.limits.TheConstants.{MAX_LEVELS};
ghost use Rattle.policy_model.specs.Keys.{desired_word};
ghost use Rattle.policy_model.specs.Places.{places, filled};
ghost use Rattle.policy_model.specs.Values.{is_empty_handed, place_value, within_limits, filled_or, policy_value};
ghost use Rattle.policy_lang.specs.Answers.{GivesTree};
ghost use Rattle.policy_lang.specs.Held.{data_of};
ghost use Rattle.policy_lang.specs.Placing.{under};
ghost use Rattle.policy_values.specs.Tables.{found_in, seen, filler};

use crate::filling::{filled, filled_count, filled_fits, place_value};
use crate::size::low_of;
use crate::values::{capture_values, has_value, have_values};
use base_model::OutOfMemory;
use doc_tree::{MAX_LEVELS, Tree};
use policy_lang::{Policy, PolicyFault, capture_at, copy_steps, desired_places, names_of};
use policy_model::{Capture, MAX_NODES, Placed};
use std::alloc::{AllocError, Global};

// Whether a capture has no value although all that it names have one.
fn is_empty_handed(
    alloc: Global,
    captures: &[Capture],
    table: &[Option<Tree>],
    capture: &Capture,
) -> Result<bool, OutOfMemory>
    requires { length table.now ≡ length captures.now }
    ensures { IfOk result (λ empty. empty ≡ is_empty_handed (found_in captures.now (seen table.now)) capture.now) }
{
    if has_value(captures, table, &capture.name) {
        return Ok(false);
    }
    match names_of(alloc, capture.text.as_str())? {
        Some(names) => Ok(have_values(captures, table, names.items())),
        None => Ok(true),
    }
}

// The first capture that has no value although all that it names have one.
fn first_empty<'a>(
    alloc: Global,
    captures: &'a [Capture],
    table: &[Option<Tree>],
) -> Result<Option<&'a Capture>, OutOfMemory>
    requires { length table.now ≡ length captures.now }
    ensures { IfOk result (λ found. option_copied found ≡ find (is_empty_handed (found_in captures.now (seen table.now))) captures.now) }
{
    for capture in captures {
        if is_empty_handed(alloc, captures, table, capture)? {
            return Ok(Some(capture));
        }
    }
    Ok(None)
}

// The first place whose reference leads nowhere.
fn first_nowhere<'a>(
    alloc: Global,
    captures: &[Capture],
    table: &[Option<Tree>],
    places: &'a [Placed],
) -> Result<Option<&'a Placed>, AllocError>
    requires { length table.now ≡ length captures.now }
    ensures { IfOk result (λ found. option_copied found ≡ find (λ p. is_none (place_value (found_in captures.now (seen table.now)) p.inner)) places.now) }
{
    for placed in places {
        let inner = placed.inner.as_str().as_bytes();
        if place_value(alloc, captures, table, inner)?.is_none() {
            return Ok(Some(placed));
        }
    }
    Ok(None)
}

// The tree with its places replaced, where that isn't too deep nor too large. One that is too large may have far more nodes
// than may be looked at one by one, and is told from one that is too deep as well by how deep the captured trees are.
fn within_limits(
    alloc: Global,
    captures: &[Capture],
    table: &[Option<Tree>],
    tree: &Tree,
) -> Result<Tree, PolicyFault>
    requires { length table.now ≡ length captures.now }
    ensures { GivesTree (within_limits (filled (filler (found_in captures.now (seen table.now))) (shape tree.now))) result }
{
    if filled_count(alloc, captures, table, MAX_NODES, tree)?.is_none() {
        if filled_fits(alloc, captures, table, low_of(table), MAX_LEVELS, tree)? {
            return Err(PolicyFault::TooLarge);
        }
        return Err(PolicyFault::TooDeep);
    }
    if !filled_fits(alloc, captures, table, None, MAX_LEVELS, tree)? {
        return Err(PolicyFault::TooDeep);
    }
    Ok(filled(alloc, captures, table, tree)?)
}

// The tree that is wanted with its places replaced, where all captures and places have values.
fn filled_or(
    alloc: Global,
    captures: &[Capture],
    table: &[Option<Tree>],
    desired: &Tree,
) -> Result<Tree, PolicyFault>
    requires { length table.now ≡ length captures.now }
    ensures { GivesTree (filled_or (found_in captures.now (seen table.now)) (record { captures = captures.now; desired = shape desired.now })) result }
{
    if let Some(capture) = first_empty(alloc, captures, table)? {
        return Err(PolicyFault::NoValue(capture_at(alloc, &capture.name)?));
    }
    let places = desired_places(alloc, desired)?;
    if let Some(placed) = first_nowhere(alloc, captures, table, places.as_slice())? {
        return Err(PolicyFault::NoValue(copy_steps(alloc, &placed.at)?));
    }
    within_limits(alloc, captures, table, desired)
}

/// The tree that a policy wants on the tree of a running state, or why there is none: `NoValue` with the first capture that
/// has no value though all that it names have one, or else with the first place that leads nowhere, then `TooDeep`, then
/// `TooLarge`. It also answers `OutOfMemory`.
pub fn value_of(alloc: Global, running: &Tree, policy: &Policy) -> Result<Tree, PolicyFault>
    requires distinct { is_distinct (shape running.now) ≡ true }
    requires short { has_short_lists (shape running.now) ≡ true }
    ensures value { GivesTree (policy_value (shape running.now) (data_of policy.now)) result }
    // What is given can be printed, and read as a document.
    ensures distinct { IfOk result (λ tree. is_distinct (shape tree) ≡ true) }
    ensures short { IfOk result (λ tree. has_short_lists (shape tree) ≡ true) }
    ensures depth { IfOk result (λ tree. levels (shape tree) ≤ MAX_LEVELS) }
{
    policy.laws();
    let captures = policy.captures();
    let table = capture_values(alloc, captures, running)?;
    filled_or(alloc, captures, table.as_slice(), policy.desired())
}
