//! Trees from JSON (RFC 8259).
ghost use Rattle.std.specs.Prelude.{◌≡◌, ◌≤◌, suc, IfOk, true, reverse};
ghost use Rattle.serde_json.specs.Data.{array, object};
ghost use Rattle.serde_json.specs.View.{view, number_view, items_view, members_view};
ghost use Rattle.doc_tree.specs.Shape.{shape, is_distinct, levels, has_short_lists};
ghost use Rattle.doc_tree.specs.Order.{is_in_order};
ghost use Rattle.doc_tree.specs.JsonTree.{json_tree, Gives};
ghost use Rattle.doc_tree.specs.Reading.{within, items_within, members_within, integer_of, MakesTree, ReadsValue, IsFaultAt};
ghost use Rattle.doc_tree.specs.declared.read.Stop.TheVariants.{OutOfMemory};

use crate::limits::{MAX_BYTES, MAX_LEVELS};
use crate::tree::Tree;
use base_model::{Items, Path, PathStep, Str};
use serde_json::{Category, Map, Number, Value};
use std::alloc::{AllocError, AllocFailed, Global};

/// Why a text gives no tree. Of several causes the one that stands first here is answered.
#[derive(Drop)]
pub enum JsonFault {
    /// The text has more than [`MAX_BYTES`] bytes.
    TooLarge,
    /// `serde_json` refuses the bytes: invalid UTF-8 or JSON, nested more than 127 deep, or a number beyond
    /// every float.
    NotJson,
    /// The tree has more than [`MAX_LEVELS`] levels.
    TooDeep,
    /// The first number, in the order of the tree, that isn't a whole one of u64 or i64.
    NotWhole(Path),
    /// Out of memory.
    OutOfMemory,
}

// Why a value gives no tree: a number that isn't whole, with the steps to it, the last step first; or too many levels.
#[derive(Drop)]
enum Stop {
    NotWhole(Vec<PathStep>),
    TooDeep,
    OutOfMemory,
}

impl From<AllocError> for Stop {
    ghost from_gives = { λ _ s. s ≡ OutOfMemory };

    fn from(_: AllocError) -> Stop {
        Stop::OutOfMemory
    }
}

impl<T: Drop> From<AllocFailed<T>> for Stop {
    ghost from_gives = { λ _ s. s ≡ OutOfMemory };

    fn from(_: AllocFailed<T>) -> Stop {
        Stop::OutOfMemory
    }
}

impl Stop {
    ghost use Rattle.base_model.specs.declared.path.PathStep.TheVariants.{At};
    ghost use Rattle.doc_tree.specs.Reading.{IsBelow};

    // The same, seen from the node above.
    fn below(self, step: PathStep) -> Stop
        ensures { IsBelow step self result }
    {
        match self {
            Stop::NotWhole(mut steps) => match steps.push(step) {
                Ok(()) => Stop::NotWhole(steps),
                Err(_) => Stop::OutOfMemory,
            },
            Stop::TooDeep => Stop::TooDeep,
            Stop::OutOfMemory => Stop::OutOfMemory,
        }
    }

    // The same, seen from the list in which the item stands at position `i`. A text within the limit has no list so
    // long that a position doesn't fit a step.
    fn below_item(self, i: usize) -> Stop
        ensures { IsBelow (At i) self result }
    {
        match u32::try_from(i) {
            Ok(i) => self.below(PathStep::At(i)),
            Err(_) => Stop::OutOfMemory,
        }
    }
}

// Whether a value has at most so many levels.
#[cycle(levels)]
fn fits(value: &Value, room: usize) -> bool
    ensures { result ≡ within room (view value.now) }
{
    if room == 0 {
        return false;
    }
    match value {
        Value::Array(items) => items_fit(items, room - 1),
        Value::Object(members) => members_fit(members, room - 1),
        _ => true,
    }
}

#[cycle(levels)]
fn items_fit(items: &Vec<Value>, room: usize) -> bool
    ensures { result ≡ items_within room (items_view items.now.items) }
{
    for item in items {
        if !fits(item, room) {
            return false;
        }
    }
    true
}

#[cycle(levels)]
fn members_fit(members: &Map<String, Value>, room: usize) -> bool
    ensures { result ≡ members_within room (members_view members.now.entries) }
{
    for (_, member) in members.iter() {
        if !fits(member, room) {
            return false;
        }
    }
    true
}

fn integer_of(number: &Number) -> Option<i128>
    ensures { result ≡ integer_of (number_view number.now) }
{
    match number.as_u64() {
        Some(n) => Some(i128::from(n)),
        None => Some(i128::from(number.as_i64()?)),
    }
}

// The tree of a value of at most so many levels. The value's texts and keys move into the tree.
#[cycle(trees)]
fn tree_of(alloc: Global, value: Value, room: usize) -> Result<Tree, Stop>
    ensures { MakesTree room (view value) result }
{
    if room == 0 {
        return Err(Stop::TooDeep);
    }
    match value {
        Value::Null => Ok(Tree::Null),
        Value::Bool(b) => Ok(Tree::Bool(b)),
        Value::Number(number) => match integer_of(&number) {
            Some(n) => Ok(Tree::Int(n)),
            None => Err(Stop::NotWhole(Vec::new(alloc))),
        },
        Value::String(text) => Ok(Tree::Text(Str::of(text))),
        Value::Array(items) => list_of(alloc, items, room - 1),
        Value::Object(members) => map_of(alloc, members, room - 1),
    }
}

#[cycle(trees)]
fn list_of(alloc: Global, items: Vec<Value>, room: usize) -> Result<Tree, Stop>
    ensures { MakesTree (suc room) (array (items_view items.items)) result }
{
    let mut trees = Vec::with_capacity(alloc, items.len())?;
    for item in items {
        match tree_of(alloc, item, room) {
            Ok(tree) => trees.push(tree)?,
            Err(stop) => return Err(stop.below_item(trees.len())),
        }
    }
    Ok(Tree::List(trees))
}

#[cycle(trees)]
fn map_of(alloc: Global, members: Map<String, Value>, room: usize) -> Result<Tree, Stop>
    ensures { MakesTree (suc room) (object (members_view members.entries)) result }
{
    let mut pairs = Vec::with_capacity(alloc, members.len())?;
    for (key, member) in members {
        let name = Str::of(key);
        match tree_of(alloc, member, room) {
            Ok(tree) => pairs.push((name, tree))?,
            Err(stop) => return Err(stop.below(PathStep::Key(name))),
        }
    }
    Ok(Tree::Map(pairs))
}

// The value of a JSON text.
fn value_of(alloc: Global, bytes: &[u8]) -> Result<Value, JsonFault>
    ensures { ReadsValue bytes.now result }
{
    match Value::from_slice(alloc, bytes) {
        Ok(value) => Ok(value),
        Err(error) if error.classify() == Category::Memory => Err(JsonFault::OutOfMemory),
        Err(_) => Err(JsonFault::NotJson),
    }
}

// The fault of a text whose value has a number that isn't whole: a node too deep, which may follow the number,
// comes before it, so the text is read again and looked at as a whole.
fn fault_at(alloc: Global, bytes: &[u8], mut steps: Vec<PathStep>) -> JsonFault
    ensures { IsFaultAt bytes.now (reverse steps.items) result }
{
    match value_of(alloc, bytes) {
        Ok(value) => {
            if !fits(&value, MAX_LEVELS) {
                return JsonFault::TooDeep;
            }
            steps.reverse();
            JsonFault::NotWhole(Path {
                steps: Items::of(steps),
            })
        }
        Err(fault) => fault,
    }
}

fn read_tree(alloc: Global, bytes: &[u8]) -> Result<Tree, JsonFault>
    ensures { Gives (json_tree bytes.now) result }
{
    if bytes.len() > MAX_BYTES {
        return Err(JsonFault::TooLarge);
    }
    let value = value_of(alloc, bytes)?;
    match tree_of(alloc, value, MAX_LEVELS) {
        Ok(tree) => Ok(tree),
        Err(Stop::NotWhole(steps)) => Err(fault_at(alloc, bytes, steps)),
        Err(Stop::TooDeep) => Err(JsonFault::TooDeep),
        Err(Stop::OutOfMemory) => Err(JsonFault::OutOfMemory),
    }
}

/// The tree of a JSON text of at most [`MAX_BYTES`] bytes.
///
/// Of duplicate keys of an object the last value stays, and each map's pairs come in the order of their keys'
/// bytes. `-0`, a number with a point or an exponent and a whole number beyond u64 and i64 aren't whole.
pub fn tree_of_json(alloc: Global, bytes: &[u8]) -> Result<Tree, JsonFault>
    ensures tree { Gives (json_tree bytes.now) result }
    ensures order { IfOk result (λ tree. is_in_order (shape tree) ≡ true) }
    ensures distinct { IfOk result (λ tree. is_distinct (shape tree) ≡ true) }
    ensures depth { IfOk result (λ tree. levels (shape tree) ≤ MAX_LEVELS) }
    ensures short { IfOk result (λ tree. has_short_lists (shape tree) ≡ true) }
{
    read_tree(alloc, bytes)
}
