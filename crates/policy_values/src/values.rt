//! The values of captures.
ghost use Rattle.std.specs.Prelude.{◌≡◌, ◌<◌, length, map, false, is_some, IfOk, OnOk, option_map, bytes_eq};
ghost use Rattle.doc_tree.specs.Shape.{shape};
ghost use Rattle.policy_model.specs.Values.{referred, operand_value, step_value, steps_value, expression_value};
ghost use Rattle.policy_model.specs.declared.Operand.TheVariants.{Refers};
ghost use Rattle.policy_values.specs.Tables.{found_in, valued, unknown, tables, names, have_values, seen, IsStep, IsPass};

use crate::leading::led;
use crate::steps::{narrowed, narrowed_of, value_of_tree};
use base_model::{Items, OutOfMemory, Str};
use doc_tree::Tree;
use policy_lang::{copy_tree, expression_of, names_of};
use policy_model::{Capture, Constant, Expression, Operand, Reference, Step};
use std::alloc::{AllocError, Global};

fn has_name(capture: &Capture, name: &str) -> bool
    ensures { result ≡ bytes_eq capture.now.name name.now }
{
    capture.name.as_str() == name
}

/// What is known of the capture of a name.
pub(crate) fn found_in<'a>(
    captures: &[Capture],
    table: &'a [Option<Tree>],
    name: &str,
) -> Option<&'a Tree>
    requires { length table.now ≡ length captures.now }
    ensures { option_map (λ tree. shape tree.now) result ≡ found_in captures.now (seen table.now) name.now }
{
    for (i, capture) in captures.iter().enumerate() {
        if has_name(capture, name) {
            return table[i].as_ref();
        }
    }
    None
}

/// The tree to which a reference leads.
pub(crate) fn referred<'a>(
    captures: &[Capture],
    table: &'a [Option<Tree>],
    reference: &Reference,
) -> Option<&'a Tree>
    requires { length table.now ≡ length captures.now }
    ensures { option_map (λ tree. shape tree.now) result ≡ referred (found_in captures.now (seen table.now)) reference.now }
{
    match found_in(captures, table, reference.name.as_str()) {
        Some(tree) => led(reference.path.items(), tree),
        None => None,
    }
}

// The value that a reference leads to.
fn referred_value(
    captures: &[Capture],
    table: &[Option<Tree>],
    reference: &Reference,
) -> Result<Option<Constant>, AllocError>
    requires { length table.now ≡ length captures.now }
    ensures { IfOk result (λ value. value ≡ operand_value (found_in captures.now (seen table.now)) (Refers reference.now)) }
{
    match referred(captures, table, reference) {
        Some(tree) => value_of_tree(tree),
        None => Ok(None),
    }
}

// What a step makes of a tree.
fn step_value(
    alloc: Global,
    captures: &[Capture],
    table: &[Option<Tree>],
    step: &Step,
    tree: &Tree,
) -> Result<Option<Tree>, AllocError>
    requires { length table.now ≡ length captures.now }
    ensures { IfOk result (λ found. option_map shape found ≡ step_value (found_in captures.now (seen table.now)) step.now (shape tree.now)) }
{
    match &step.operand {
        Operand::Constant(value) => narrowed(alloc, step.verb, value, step.path.items(), tree),
        Operand::Refers(reference) => match referred_value(captures, table, reference)? {
            Some(value) => narrowed(alloc, step.verb, &value, step.path.items(), tree),
            None => Ok(None),
        },
    }
}

// The same of a tree that no one else has.
fn step_value_of(
    alloc: Global,
    captures: &[Capture],
    table: &[Option<Tree>],
    step: &Step,
    tree: Tree,
) -> Result<Option<Tree>, AllocError>
    requires { length table.now ≡ length captures.now }
    ensures { IfOk result (λ found. option_map shape found ≡ step_value (found_in captures.now (seen table.now)) step.now (shape tree)) }
{
    match &step.operand {
        Operand::Constant(value) => narrowed_of(alloc, step.verb, value, step.path.items(), tree),
        Operand::Refers(reference) => match referred_value(captures, table, reference)? {
            Some(value) => narrowed_of(alloc, step.verb, &value, step.path.items(), tree),
            None => Ok(None),
        },
    }
}

// What steps make of a tree that no one else has, one after another.
fn steps_value(
    alloc: Global,
    captures: &[Capture],
    table: &[Option<Tree>],
    steps: &[Step],
    tree: Tree,
) -> Result<Option<Tree>, AllocError>
    requires { length table.now ≡ length captures.now }
    ensures { IfOk result (λ found. option_map shape found ≡ steps_value (found_in captures.now (seen table.now)) steps.now (shape tree)) }
{
    let mut made = tree;
    for step in steps {
        match step_value_of(alloc, captures, table, step, made)? {
            Some(next) => made = next,
            None => return Ok(None),
        }
    }
    Ok(Some(made))
}

// The same of a tree that stays, which is copied only where there is no step.
fn steps_from(
    alloc: Global,
    captures: &[Capture],
    table: &[Option<Tree>],
    steps: &[Step],
    tree: &Tree,
) -> Result<Option<Tree>, AllocError>
    requires { length table.now ≡ length captures.now }
    ensures { IfOk result (λ found. option_map shape found ≡ steps_value (found_in captures.now (seen table.now)) steps.now (shape tree.now)) }
{
    let [step, others @ ..] = steps else {
        return Ok(Some(copy_tree(alloc, tree)?));
    };
    match step_value(alloc, captures, table, step, tree)? {
        Some(first) => steps_value(alloc, captures, table, others, first),
        None => Ok(None),
    }
}

// The value of an expression.
fn expression_value(
    alloc: Global,
    captures: &[Capture],
    table: &[Option<Tree>],
    running: &Tree,
    expression: &Expression,
) -> Result<Option<Tree>, AllocError>
    requires { length table.now ≡ length captures.now }
    ensures { IfOk result (λ found. option_map shape found ≡ expression_value (found_in captures.now (seen table.now)) (shape running.now) expression.now) }
{
    let steps = expression.steps.items();
    match &expression.start {
        None => steps_from(alloc, captures, table, steps, running),
        Some(name) => match found_in(captures, table, name.as_str()) {
            Some(tree) => steps_from(alloc, captures, table, steps, tree),
            None => Ok(None),
        },
    }
}

// The value of a capture.
fn valued(
    alloc: Global,
    captures: &[Capture],
    table: &[Option<Tree>],
    running: &Tree,
    capture: &Capture,
) -> Result<Option<Tree>, AllocError>
    requires { length table.now ≡ length captures.now }
    ensures { IfOk result (λ found. option_map shape found ≡ valued (found_in captures.now (seen table.now)) (shape running.now) capture.now) }
{
    match expression_of(alloc, capture.text.as_str())? {
        Some(expression) => expression_value(alloc, captures, table, running, &expression),
        None => Ok(None),
    }
}

/// Whether the capture of a name has a value.
pub(crate) fn has_value(captures: &[Capture], table: &[Option<Tree>], name: &Str) -> bool
    requires { length table.now ≡ length captures.now }
    ensures { result ≡ is_some (found_in captures.now (seen table.now) name.now) }
{
    found_in(captures, table, name.as_str()).is_some()
}

/// Whether the captures of all names have values.
pub(crate) fn have_values(captures: &[Capture], table: &[Option<Tree>], names: &[Str]) -> bool
    requires { length table.now ≡ length captures.now }
    ensures { result ≡ have_values (found_in captures.now (seen table.now)) names.now }
{
    names.iter().all(|name| has_value(captures, table, name))
}

// The captures that a capture names.
fn names(alloc: Global, capture: &Capture) -> Result<Items<Str>, OutOfMemory>
    ensures { IfOk result (λ these. these ≡ names capture.now) }
{
    match names_of(alloc, capture.text.as_str())? {
        Some(names) => Ok(names),
        None => Ok(Items::of(Vec::new(alloc))),
    }
}

fn all_names(alloc: Global, captures: &[Capture]) -> Result<Vec<Items<Str>>, OutOfMemory>
    ensures { IfOk result (λ all. all.items ≡ map names captures.now) }
{
    let mut all = Vec::new(alloc);
    for capture in captures {
        all.push(names(alloc, capture)?)?;
    }
    Ok(all)
}

// Of each capture whether all that it names have values.
fn are_ready(
    alloc: Global,
    captures: &[Capture],
    table: &[Option<Tree>],
    names: &[Items<Str>],
) -> Result<Vec<bool>, AllocError>
    requires { length table.now ≡ length captures.now }
    ensures { IfOk result (λ ready. ready.items ≡ map (have_values (found_in captures.now (seen table.now))) names.now) }
{
    let mut ready = Vec::new(alloc);
    for these in names {
        ready.push(have_values(captures, table, these.items()))?;
    }
    Ok(ready)
}

// Evaluates a capture if it is ready and wasn't at the pass before.
fn bring_on(
    alloc: Global,
    captures: &[Capture],
    running: &Tree,
    done: &[bool],
    ready: &[bool],
    i: usize,
    values: &mut Vec<Option<Tree>>,
) -> Result<(), AllocError>
    requires inside { i < length captures.now }
    requires whole { length values.old.items ≡ length captures.now }
    requires done { length done.now ≡ length captures.now }
    requires ready { length ready.now ≡ length captures.now }
    ensures whole { OnOk result (length values.new.items ≡ length captures.now) }
    ensures step { OnOk result (IsStep captures.now (shape running.now) done.now ready.now i values.old.items values.new.items) }
{
    if done[i] || !ready[i] {
        return Ok(());
    }
    let value = valued(alloc, captures, values.as_slice(), running, &captures[i])?;
    values[i] = value;
    Ok(())
}

// One pass over all captures.
fn pass(
    alloc: Global,
    captures: &[Capture],
    running: &Tree,
    done: &[bool],
    ready: &[bool],
    values: &mut Vec<Option<Tree>>,
) -> Result<(), AllocError>
    requires whole { length values.old.items ≡ length captures.now }
    requires done { length done.now ≡ length captures.now }
    requires ready { length ready.now ≡ length captures.now }
    ensures pass { OnOk result (IsPass captures.now (shape running.now) done.now ready.now values.old.items values.new.items) }
{
    for i in 0..captures.len() {
        bring_on(alloc, captures, running, done, ready, i, values)?;
    }
    Ok(())
}

fn unknown(alloc: Global, captures: &[Capture]) -> Result<Vec<Option<Tree>>, AllocError>
    ensures { IfOk result (λ values. seen values.items ≡ unknown captures.now) }
{
    let mut values = Vec::new(alloc);
    for _capture in captures {
        values.push(None)?;
    }
    Ok(values)
}

fn none_ready(alloc: Global, captures: &[Capture]) -> Result<Vec<bool>, AllocError>
    ensures { IfOk result (λ flags. flags.items ≡ map (λ c. false) captures.now) }
{
    let mut flags = Vec::new(alloc);
    for _capture in captures {
        flags.push(false)?;
    }
    Ok(flags)
}

/// The values of all captures on the tree of a running state. Each is evaluated once, when all that it names have values.
pub(crate) fn capture_values(
    alloc: Global,
    captures: &[Capture],
    running: &Tree,
) -> Result<Vec<Option<Tree>>, OutOfMemory>
    ensures { IfOk result (λ values. seen values.items ≡ tables captures.now (shape running.now) (length captures.now)) }
{
    let names = all_names(alloc, captures)?;
    let mut values = unknown(alloc, captures)?;
    let mut done = none_ready(alloc, captures)?;
    for _pass in 0..captures.len() {
        let ready = are_ready(alloc, captures, values.as_slice(), names.as_slice())?;
        if ready.as_slice() == done.as_slice() {
            return Ok(values);
        }
        pass(
            alloc,
            captures,
            running,
            done.as_slice(),
            ready.as_slice(),
            &mut values,
        )?;
        done = ready;
    }
    Ok(values)
}
