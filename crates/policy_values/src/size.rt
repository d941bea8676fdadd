//! How deep and how large trees are.
ghost use Rattle.std.specs.Prelude.{◌≡◌, ◌≤◌, nat_le, map, option_map, true, IfSome};
ghost use Rattle.doc_tree.specs.Shape.{shape, shapes_of, pair_shape, pairs_of, levels, shapes_levels, pairs_levels};
ghost use Rattle.policy_model.specs.Values.{nodes, nodes_among, nodes_under};
ghost use Rattle.policy_values.specs.Sizes.{left_behind, is_low, are_low};
ghost use Rattle.policy_values.specs.Tables.{seen};

use base_model::Str;
use doc_tree::{MAX_LEVELS, Tree};

/// Whether a tree has at most so many levels.
#[cycle(fitting)]
pub(crate) fn fits(room: usize, tree: &Tree) -> bool
    ensures { result ≡ nat_le (levels (shape tree.now)) room }
{
    if room == 0 {
        return false;
    }
    match tree {
        Tree::List(trees) => all_fit(room - 1, trees),
        Tree::Map(pairs) => pairs_fit(room - 1, pairs),
        _ => true,
    }
}

#[cycle(fitting)]
fn all_fit(room: usize, trees: &Vec<Tree>) -> bool
    ensures { result ≡ nat_le (shapes_levels (shapes_of (map shape trees.now.items))) room }
{
    for tree in trees {
        if !fits(room, tree) {
            return false;
        }
    }
    true
}

#[cycle(fitting)]
fn pairs_fit(room: usize, pairs: &Vec<(Str, Tree)>) -> bool
    ensures { result ≡ nat_le (pairs_levels (pairs_of (map pair_shape pairs.now.items))) room }
{
    for pair in pairs {
        if !fits(room, &pair.1) {
            return false;
        }
    }
    true
}

/// The same of a tree that is known to have at most `low` levels: it is looked at only where there is less room.
pub(crate) fn low_fits(low: Option<usize>, room: usize, tree: &Tree) -> bool
    requires { IfSome low (λ n. levels (shape tree.now) ≤ n) }
    ensures { result ≡ nat_le (levels (shape tree.now)) room }
{
    match low {
        Some(low) => low <= room || fits(room, tree),
        None => fits(room, tree),
    }
}

fn is_low(low: usize, value: &Option<Tree>) -> bool
    ensures { result ≡ is_low low (option_map shape value.now) }
{
    match value {
        Some(tree) => fits(low, tree),
        None => true,
    }
}

// Whether no tree of the table has more levels.
fn are_low(low: usize, table: &[Option<Tree>]) -> bool
    ensures { result ≡ are_low low (seen table.now) }
{
    for value in table {
        if !is_low(low, value) {
            return false;
        }
    }
    true
}

/// A number of levels that no tree of the table exceeds, if they have at most [`MAX_LEVELS`].
pub(crate) fn low_of(table: &[Option<Tree>]) -> Option<usize>
    ensures { IfSome result (λ low. are_low low (seen table.now) ≡ true) }
{
    for low in 1..=MAX_LEVELS {
        if are_low(low, table) {
            return Some(low);
        }
    }
    None
}

/// What is left of a number of nodes behind those of a tree; `None` where it has more.
#[cycle(counting)]
pub(crate) fn count(left: usize, tree: &Tree) -> Option<usize>
    ensures { result ≡ left_behind left (nodes (shape tree.now)) }
{
    if left == 0 {
        return None;
    }
    match tree {
        Tree::List(trees) => count_all(left - 1, trees),
        Tree::Map(pairs) => count_pairs(left - 1, pairs),
        _ => Some(left - 1),
    }
}

#[cycle(counting)]
fn count_all(left: usize, trees: &Vec<Tree>) -> Option<usize>
    ensures { result ≡ left_behind left (nodes_among (shapes_of (map shape trees.now.items))) }
{
    let mut rest = left;
    for tree in trees {
        match count(rest, tree) {
            Some(behind) => rest = behind,
            None => return None,
        }
    }
    Some(rest)
}

#[cycle(counting)]
fn count_pairs(left: usize, pairs: &Vec<(Str, Tree)>) -> Option<usize>
    ensures { result ≡ left_behind left (nodes_under (pairs_of (map pair_shape pairs.now.items))) }
{
    let mut rest = left;
    for pair in pairs {
        match count(rest, &pair.1) {
            Some(behind) => rest = behind,
            None => return None,
        }
    }
    Some(rest)
}
