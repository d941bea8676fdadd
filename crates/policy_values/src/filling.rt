//! The tree that is wanted, each place replaced by the tree to which it refers.
ghost use Rattle.std.specs.Prelude.{◌≡◌, nat_le, map, length, true, IfOk, IfSome, option_map};
ghost use Rattle.doc_tree.specs.Shape.{shape, shapes_of, pair_shape, pairs_of, levels, shapes_levels, pairs_levels};
ghost use Rattle.policy_model.specs.Places.{put_in, filled, filled_among, filled_under};
ghost use Rattle.policy_model.specs.Reading.{inside};
ghost use Rattle.policy_model.specs.Values.{place_value, nodes, nodes_among, nodes_under};
ghost use Rattle.policy_values.specs.Tables.{found_in, filler, seen};
ghost use Rattle.policy_values.specs.Sizes.{left_behind, are_low};

use crate::size::{count, low_fits};
use crate::values::referred;
use base_model::Str;
use doc_tree::Tree;
use policy_lang::{copy_tree, inside, place_of};
use policy_model::Capture;
use std::alloc::{AllocError, Global};

/// The tree to which what stands in a place refers.
pub(crate) fn place_value<'a>(
    alloc: Global,
    captures: &[Capture],
    table: &'a [Option<Tree>],
    inner: &[u8],
) -> Result<Option<&'a Tree>, AllocError>
    requires { length table.now ≡ length captures.now }
    ensures { IfOk result (λ found. option_map (λ tree. shape tree.now) found ≡ place_value (found_in captures.now (seen table.now)) inner.now) }
{
    match place_of(alloc, inner)? {
        Some(reference) => Ok(referred(captures, table, &reference)),
        None => Ok(None),
    }
}

// Whether what stands for a string has at most so many levels; null stands where a place has no value.
fn text_fits(
    alloc: Global,
    captures: &[Capture],
    table: &[Option<Tree>],
    low: Option<usize>,
    room: usize,
    text: &Str,
) -> Result<bool, AllocError>
    requires whole { length table.now ≡ length captures.now }
    requires low { IfSome low (λ n. are_low n (seen table.now) ≡ true) }
    ensures { IfOk result (λ fit. fit ≡ nat_le (levels (put_in (filler (found_in captures.now (seen table.now))) text.now (inside text.now))) room) }
{
    match inside(text.as_str().as_bytes()) {
        Some(inner) => match place_value(alloc, captures, table, inner)? {
            Some(tree) => Ok(low_fits(low, room, tree)),
            None => Ok(room > 0),
        },
        None => Ok(room > 0),
    }
}

/// Whether the tree with its places replaced has at most so many levels. Where no tree of the table has more than `low`, those that
/// stand for places are looked at only where there is less room.
#[cycle(filled_levels)]
pub(crate) fn filled_fits(
    alloc: Global,
    captures: &[Capture],
    table: &[Option<Tree>],
    low: Option<usize>,
    room: usize,
    tree: &Tree,
) -> Result<bool, AllocError>
    requires whole { length table.now ≡ length captures.now }
    requires low { IfSome low (λ n. are_low n (seen table.now) ≡ true) }
    ensures { IfOk result (λ fit. fit ≡ nat_le (levels (filled (filler (found_in captures.now (seen table.now))) (shape tree.now))) room) }
{
    if room == 0 {
        return Ok(false);
    }
    match tree {
        Tree::Text(text) => text_fits(alloc, captures, table, low, room, text),
        Tree::List(trees) => filled_all_fit(alloc, captures, table, low, room - 1, trees),
        Tree::Map(pairs) => filled_pairs_fit(alloc, captures, table, low, room - 1, pairs),
        _ => Ok(true),
    }
}

#[cycle(filled_levels)]
fn filled_all_fit(
    alloc: Global,
    captures: &[Capture],
    table: &[Option<Tree>],
    low: Option<usize>,
    room: usize,
    trees: &Vec<Tree>,
) -> Result<bool, AllocError>
    requires whole { length table.now ≡ length captures.now }
    requires low { IfSome low (λ n. are_low n (seen table.now) ≡ true) }
    ensures { IfOk result (λ fit. fit
        ≡ nat_le (shapes_levels (filled_among (filler (found_in captures.now (seen table.now))) (shapes_of (map shape trees.now.items)))) room) }
{
    for tree in trees {
        if !filled_fits(alloc, captures, table, low, room, tree)? {
            return Ok(false);
        }
    }
    Ok(true)
}

#[cycle(filled_levels)]
fn filled_pairs_fit(
    alloc: Global,
    captures: &[Capture],
    table: &[Option<Tree>],
    low: Option<usize>,
    room: usize,
    pairs: &Vec<(Str, Tree)>,
) -> Result<bool, AllocError>
    requires whole { length table.now ≡ length captures.now }
    requires low { IfSome low (λ n. are_low n (seen table.now) ≡ true) }
    ensures { IfOk result (λ fit. fit
        ≡ nat_le (pairs_levels (filled_under (filler (found_in captures.now (seen table.now))) (pairs_of (map pair_shape pairs.now.items)))) room) }
{
    for pair in pairs {
        if !filled_fits(alloc, captures, table, low, room, &pair.1)? {
            return Ok(false);
        }
    }
    Ok(true)
}

/// What is left of a number of nodes behind those of the tree with its places replaced; `None` where it has more.
#[cycle(filled_nodes)]
pub(crate) fn filled_count(
    alloc: Global,
    captures: &[Capture],
    table: &[Option<Tree>],
    left: usize,
    tree: &Tree,
) -> Result<Option<usize>, AllocError>
    requires { length table.now ≡ length captures.now }
    ensures { IfOk result (λ rest. rest ≡ left_behind left (nodes (filled (filler (found_in captures.now (seen table.now))) (shape tree.now)))) }
{
    if left == 0 {
        return Ok(None);
    }
    match tree {
        Tree::Text(text) => text_count(alloc, captures, table, left, text),
        Tree::List(trees) => filled_count_all(alloc, captures, table, left - 1, trees),
        Tree::Map(pairs) => filled_count_pairs(alloc, captures, table, left - 1, pairs),
        _ => Ok(Some(left - 1)),
    }
}

// The same of what stands for a string.
fn text_count(
    alloc: Global,
    captures: &[Capture],
    table: &[Option<Tree>],
    left: usize,
    text: &Str,
) -> Result<Option<usize>, AllocError>
    requires { length table.now ≡ length captures.now }
    ensures { IfOk result (λ rest. rest ≡ left_behind left (nodes (put_in (filler (found_in captures.now (seen table.now))) text.now (inside text.now)))) }
{
    match inside(text.as_str().as_bytes()) {
        Some(inner) => match place_value(alloc, captures, table, inner)? {
            Some(tree) => Ok(count(left, tree)),
            None => Ok(left.checked_sub(1)),
        },
        None => Ok(left.checked_sub(1)),
    }
}

#[cycle(filled_nodes)]
fn filled_count_all(
    alloc: Global,
    captures: &[Capture],
    table: &[Option<Tree>],
    left: usize,
    trees: &Vec<Tree>,
) -> Result<Option<usize>, AllocError>
    requires { length table.now ≡ length captures.now }
    ensures { IfOk result (λ rest. rest
        ≡ left_behind left (nodes_among (filled_among (filler (found_in captures.now (seen table.now))) (shapes_of (map shape trees.now.items))))) }
{
    let mut rest = left;
    for tree in trees {
        match filled_count(alloc, captures, table, rest, tree)? {
            Some(behind) => rest = behind,
            None => return Ok(None),
        }
    }
    Ok(Some(rest))
}

#[cycle(filled_nodes)]
fn filled_count_pairs(
    alloc: Global,
    captures: &[Capture],
    table: &[Option<Tree>],
    left: usize,
    pairs: &Vec<(Str, Tree)>,
) -> Result<Option<usize>, AllocError>
    requires { length table.now ≡ length captures.now }
    ensures { IfOk result (λ rest. rest
        ≡ left_behind left (nodes_under (filled_under (filler (found_in captures.now (seen table.now))) (pairs_of (map pair_shape pairs.now.items))))) }
{
    let mut rest = left;
    for pair in pairs {
        match filled_count(alloc, captures, table, rest, &pair.1)? {
            Some(behind) => rest = behind,
            None => return Ok(None),
        }
    }
    Ok(Some(rest))
}

/// The tree with its places replaced.
#[cycle(filling)]
pub(crate) fn filled(
    alloc: Global,
    captures: &[Capture],
    table: &[Option<Tree>],
    tree: &Tree,
) -> Result<Tree, AllocError>
    requires { length table.now ≡ length captures.now }
    ensures { IfOk result (λ found. shape found ≡ filled (filler (found_in captures.now (seen table.now))) (shape tree.now)) }
{
    match tree {
        Tree::Null => Ok(Tree::Null),
        Tree::Bool(b) => Ok(Tree::Bool(*b)),
        Tree::Int(n) => Ok(Tree::Int(*n)),
        Tree::Text(text) => filled_text(alloc, captures, table, text),
        Tree::List(trees) => Ok(Tree::List(filled_among(alloc, captures, table, trees)?)),
        Tree::Map(pairs) => Ok(Tree::Map(filled_under(alloc, captures, table, pairs)?)),
    }
}

// What stands for a string.
fn filled_text(
    alloc: Global,
    captures: &[Capture],
    table: &[Option<Tree>],
    text: &Str,
) -> Result<Tree, AllocError>
    requires { length table.now ≡ length captures.now }
    ensures { IfOk result (λ found. shape found ≡ put_in (filler (found_in captures.now (seen table.now))) text.now (inside text.now)) }
{
    match inside(text.as_str().as_bytes()) {
        Some(inner) => match place_value(alloc, captures, table, inner)? {
            Some(tree) => copy_tree(alloc, tree),
            None => Ok(Tree::Null),
        },
        None => Ok(Tree::Text(text.copy()?)),
    }
}

#[cycle(filling)]
fn filled_among(
    alloc: Global,
    captures: &[Capture],
    table: &[Option<Tree>],
    trees: &Vec<Tree>,
) -> Result<Vec<Tree>, AllocError>
    requires { length table.now ≡ length captures.now }
    ensures { IfOk result (λ found. shapes_of (map shape found.items)
        ≡ filled_among (filler (found_in captures.now (seen table.now))) (shapes_of (map shape trees.now.items))) }
{
    let mut found = Vec::new(alloc);
    for tree in trees {
        found.push(filled(alloc, captures, table, tree)?)?;
    }
    Ok(found)
}

#[cycle(filling)]
fn filled_under(
    alloc: Global,
    captures: &[Capture],
    table: &[Option<Tree>],
    pairs: &Vec<(Str, Tree)>,
) -> Result<Vec<(Str, Tree)>, AllocError>
    requires { length table.now ≡ length captures.now }
    ensures { IfOk result (λ found. pairs_of (map pair_shape found.items)
        ≡ filled_under (filler (found_in captures.now (seen table.now))) (pairs_of (map pair_shape pairs.now.items))) }
{
    let mut found = Vec::new(alloc);
    for pair in pairs {
        let key = pair.0.copy()?;
        found.push((key, filled(alloc, captures, table, &pair.1)?))?;
    }
    Ok(found)
}
