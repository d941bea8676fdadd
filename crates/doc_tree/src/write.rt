//! JSON from trees.
ghost use Rattle.std.specs.Prelude.{◌≡◌, ◌≤◌, map, option_map, length, true, IfOk, OnOk, Ok};
ghost use Rattle.serde_json.specs.Data.{put};
ghost use Rattle.serde_json.specs.View.{view, members_view};
ghost use Rattle.doc_tree.specs.Shape.{shape, shapes_of, pair_shape, pairs_of, list, mapping, text, is_distinct, levels};
ghost use Rattle.doc_tree.specs.Order.{in_order};
ghost use Rattle.doc_tree.specs.JsonTree.{json_tree};
ghost use Rattle.doc_tree.specs.JsonText.{number_of, WritesText};
ghost use Rattle.doc_tree.specs.Writing.{MakesValue};
ghost use Rattle.doc_tree.specs.declared.write.TextFault.TheVariants.{OutOfMemory};

use crate::limits::{MAX_BYTES, MAX_LEVELS};
use crate::tree::Tree;
use base_model::Str;
use serde_json::{Map, Value};
use std::alloc::{AllocError, AllocFailed, Global};

/// Why a tree has no JSON text.
#[derive(Clone, Copy)]
pub enum TextFault {
    /// An integer fits neither i64 nor u64.
    WideInt,
    /// Out of memory.
    OutOfMemory,
}

impl From<AllocError> for TextFault {
    ghost from_gives = { λ _ s. s ≡ OutOfMemory };

    fn from(_: AllocError) -> TextFault {
        TextFault::OutOfMemory
    }
}

impl<T: Drop> From<AllocFailed<T>> for TextFault {
    ghost from_gives = { λ _ s. s ≡ OutOfMemory };

    fn from(_: AllocFailed<T>) -> TextFault {
        TextFault::OutOfMemory
    }
}

// The number, where it fits u64 or i64.
fn number_of(n: i128) -> Option<Value>
    ensures { option_map view result ≡ number_of n }
{
    match u64::try_from(n) {
        Ok(n) => Some(Value::from(n)),
        Err(_) => match i64::try_from(n) {
            Ok(n) => Some(Value::from(n)),
            Err(_) => None,
        },
    }
}

// The value of a string.
fn string_of(alloc: Global, string: &Str) -> Result<Value, TextFault>
    ensures { MakesValue (text string.now) result }
{
    Ok(Value::String(String::from_str(alloc, string.as_str())?))
}

// Puts a value under a key.
fn put(
    alloc: Global,
    members: &mut Map<String, Value>,
    key: &Str,
    value: Value,
) -> Result<(), TextFault>
    ensures { OnOk result (members_view members.new.entries ≡ put key.now (view value) (members_view members.old.entries)) }
{
    let name = String::from_str(alloc, key.as_str())?;
    drop(members.insert(name, value)?);
    Ok(())
}

// The value of a tree.
#[cycle(values)]
fn value_of(alloc: Global, tree: &Tree) -> Result<Value, TextFault>
    ensures { MakesValue (shape tree.now) result }
{
    match tree {
        Tree::Null => Ok(Value::Null),
        Tree::Bool(b) => Ok(Value::Bool(*b)),
        Tree::Int(n) => number_of(*n).ok_or(TextFault::WideInt),
        Tree::Text(text) => string_of(alloc, text),
        Tree::List(trees) => array_of(alloc, trees),
        Tree::Map(pairs) => object_of(alloc, pairs),
    }
}

#[cycle(values)]
fn array_of(alloc: Global, trees: &Vec<Tree>) -> Result<Value, TextFault>
    ensures { MakesValue (list (shapes_of (map shape trees.now.items))) result }
{
    let mut values = Vec::with_capacity(alloc, trees.len())?;
    for tree in trees {
        match value_of(alloc, tree) {
            Ok(value) => values.push(value)?,
            Err(fault) => return Err(fault),
        }
    }
    Ok(Value::Array(values))
}

#[cycle(values)]
fn object_of(alloc: Global, pairs: &Vec<(Str, Tree)>) -> Result<Value, TextFault>
    ensures { MakesValue (mapping (pairs_of (map pair_shape pairs.now.items))) result }
{
    let mut members = Map::new(alloc);
    for (key, tree) in pairs {
        match value_of(alloc, tree) {
            Ok(value) => match put(alloc, &mut members, key, value) {
                Ok(()) => {}
                Err(_) => return Err(TextFault::OutOfMemory),
            },
            Err(fault) => return Err(fault),
        }
    }
    Ok(Value::Object(members))
}

/// The compact JSON text of a tree, with each map's pairs in the order of their keys' bytes.
///
/// Where the tree has at most [`MAX_LEVELS`] levels and the text at most [`MAX_BYTES`] bytes, the text reads as the tree with its pairs
/// in that order.
pub fn json_of_tree(alloc: Global, tree: &Tree) -> Result<Vec<u8>, TextFault>
    requires { is_distinct (shape tree.now) ≡ true }
    ensures text { WritesText (shape tree.now) result }
    ensures reads_back { IfOk result (λ text. levels (shape tree.now) ≤ MAX_LEVELS → length text.items ≤ MAX_BYTES
        → json_tree text.items ≡ Ok (in_order (shape tree.now))) }
{
    let value = value_of(alloc, tree)?;
    Ok(value.to_string(alloc)?.into_bytes())
}
