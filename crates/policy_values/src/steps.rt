//! What a step makes of a tree.
ghost use Rattle.std.specs.Prelude.{◌≡◌, ◌++◌, IfOk, OnOk, option_map, map};
ghost use Rattle.doc_tree.specs.Shape.{shape, list, shapes_of, pair_shape, pairs_of};
ghost use Rattle.doc_tree.specs.Lookup.{find};
ghost use Rattle.policy_model.specs.Steps.{value_of_tree, is_value, matches, some_matches, matches_under, kept, changed, only, narrowed};
ghost use Rattle.policy_values.specs.Lists.{kept_of};

use crate::setting::{place_of, set_each};
use base_model::Str;
use doc_tree::Tree;
use policy_lang::copy_tree;
use policy_model::{Constant, Verb};
use std::alloc::{AllocError, Global};
use std::mem;

/// The string, number or boolean that a tree is, if it is one.
pub(crate) fn value_of_tree(tree: &Tree) -> Result<Option<Constant>, AllocError>
    ensures { IfOk result (λ value. value ≡ value_of_tree (shape tree.now)) }
{
    match tree {
        Tree::Text(text) => Ok(Some(Constant::Text(text.copy()?))),
        Tree::Int(n) => Ok(Some(Constant::Int(*n))),
        Tree::Bool(b) => Ok(Some(Constant::Bool(*b))),
        _ => Ok(None),
    }
}

fn is_value(value: &Constant, tree: &Tree) -> bool
    ensures { result ≡ is_value value.now (shape tree.now) }
{
    match (value, tree) {
        (Constant::Text(text), Tree::Text(other)) => other.as_str() == text.as_str(),
        (Constant::Int(n), Tree::Int(other)) => *other == *n,
        (Constant::Bool(b), Tree::Bool(other)) => *other == *b,
        _ => false,
    }
}

// Whether the path leads, through some element of each list, to the value.
#[cycle(matching)]
fn matches(value: &Constant, path: &[Str], tree: &Tree) -> bool
    ensures { result ≡ matches value.now path.now (shape tree.now) }
{
    match tree {
        Tree::List(trees) => some_matches(value, path, trees),
        Tree::Map(pairs) => match path {
            [] => false,
            [key, keys @ ..] => matches_under(value, key, keys, pairs),
        },
        _ => path.is_empty() && is_value(value, tree),
    }
}

#[cycle(matching)]
fn some_matches(value: &Constant, path: &[Str], trees: &Vec<Tree>) -> bool
    ensures { result ≡ some_matches value.now path.now (shapes_of (map shape trees.now.items)) }
{
    for tree in trees {
        if matches(value, path, tree) {
            return true;
        }
    }
    false
}

#[cycle(matching)]
fn matches_under(value: &Constant, key: &Str, keys: &[Str], pairs: &Vec<(Str, Tree)>) -> bool
    ensures { result ≡ matches_under value.now key.now keys.now (pairs_of (map pair_shape pairs.now.items)) }
{
    for pair in pairs {
        if pair.0.as_str() == key.as_str() {
            return matches(value, keys, &pair.1);
        }
    }
    false
}

// Appends a tree where it matches.
fn push_kept(
    alloc: Global,
    value: &Constant,
    path: &[Str],
    tree: &Tree,
    found: &mut Vec<Tree>,
) -> Result<(), AllocError>
    ensures { OnOk result (map shape found.new.items ≡ map shape found.old.items ++ kept_of value.now path.now tree.now) }
{
    if matches(value, path, tree) {
        found.push(copy_tree(alloc, tree)?)?;
    }
    Ok(())
}

// The elements that match.
fn kept(
    alloc: Global,
    value: &Constant,
    path: &[Str],
    trees: &Vec<Tree>,
) -> Result<Vec<Tree>, AllocError>
    ensures { IfOk result (λ found. shapes_of (map shape found.items) ≡ kept value.now path.now (shapes_of (map shape trees.now.items))) }
{
    let mut found = Vec::new(alloc);
    for tree in trees {
        push_kept(alloc, value, path, tree, &mut found)?;
    }
    Ok(found)
}

// The elements that match are left, and the others let go.
fn keep(value: &Constant, path: &[Str], trees: Vec<Tree>) -> Vec<Tree>
    ensures { shapes_of (map shape result.items) ≡ kept value.now path.now (shapes_of (map shape trees.items)) }
{
    let mut trees = trees;
    trees.retain(|tree| matches(value, path, tree));
    trees
}

// What becomes of the first list, in its place.
fn changed(
    verb: Verb,
    value: &Constant,
    path: &[Str],
    trees: Vec<Tree>,
) -> Result<Option<Tree>, AllocError>
    ensures { IfOk result (λ found. option_map shape found ≡ option_map list (changed verb value.now path.now (shapes_of (map shape trees.items)))) }
{
    match verb {
        Verb::Keep => Ok(Some(Tree::List(keep(value, path, trees)))),
        Verb::Set => match set_each(value, path, trees)? {
            Some(trees) => Ok(Some(Tree::List(trees))),
            None => Ok(None),
        },
    }
}

// A map of this pair alone.
fn only(alloc: Global, key: &Str, tree: Tree) -> Result<Tree, AllocError>
    ensures { IfOk result (λ map. shape map ≡ only key.now (shape tree)) }
{
    let mut pairs = Vec::new(alloc);
    pairs.push((key.copy()?, tree))?;
    Ok(Tree::Map(pairs))
}

// The same where anything was found.
fn only_found(alloc: Global, key: &Str, found: Option<Tree>) -> Result<Option<Tree>, AllocError>
    ensures { IfOk result (λ map. option_map shape map ≡ option_map (only key.now) (option_map shape found)) }
{
    match found {
        Some(tree) => Ok(Some(only(alloc, key, tree)?)),
        None => Ok(None),
    }
}

// What stands under a key, taken out of its map.
fn taken(key: &Str, pairs: Vec<(Str, Tree)>) -> Option<Tree>
    ensures { option_map shape result ≡ find key.now (pairs_of (map pair_shape pairs.items)) }
{
    let Some(i) = place_of(key, pairs.as_slice()) else {
        return None;
    };
    let mut pairs = pairs;
    let (_key, tree) = pairs.swap_remove(i);
    Some(tree)
}

/// The maps on the way and the first list, with its elements changed; `None` where the path leads nowhere. The tree is no
/// one else's, and what stays of it is moved.
pub(crate) fn narrowed_of(
    alloc: Global,
    verb: Verb,
    value: &Constant,
    path: &[Str],
    tree: Tree,
) -> Result<Option<Tree>, AllocError>
    ensures { IfOk result (λ found. option_map shape found ≡ narrowed verb value.now path.now (shape tree)) }
{
    let mut tree = tree;
    match &mut tree {
        Tree::List(trees) => changed(verb, value, path, mem::replace(trees, Vec::new(alloc))),
        Tree::Map(pairs) => {
            let pairs = mem::replace(pairs, Vec::new(alloc));
            let [key, keys @ ..] = path else {
                return Ok(None);
            };
            let Some(below) = taken(key, pairs) else {
                return Ok(None);
            };
            only_found(alloc, key, narrowed_of(alloc, verb, value, keys, below)?)
        }
        _ => Ok(None),
    }
}

/// The same of a tree that stays. Of its elements those that are kept are copied, and all where a value is set in them.
pub(crate) fn narrowed(
    alloc: Global,
    verb: Verb,
    value: &Constant,
    path: &[Str],
    tree: &Tree,
) -> Result<Option<Tree>, AllocError>
    ensures { IfOk result (λ found. option_map shape found ≡ narrowed verb value.now path.now (shape tree.now)) }
{
    if let Tree::List(trees) = tree {
        return match verb {
            Verb::Keep => Ok(Some(Tree::List(kept(alloc, value, path, trees)?))),
            Verb::Set => narrowed_of(alloc, verb, value, path, copy_tree(alloc, tree)?),
        };
    }
    let [key, keys @ ..] = path else {
        return Ok(None);
    };
    let Some(below) = tree.get(key.as_str()) else {
        return Ok(None);
    };
    only_found(alloc, key, narrowed(alloc, verb, value, keys, below)?)
}
