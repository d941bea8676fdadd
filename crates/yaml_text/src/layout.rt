//! The lines of a tree.

ghost use Rattle.std.specs.Prelude.{◌≡◌, ◌+◌, ◌*◌, ◌≤◌, ◌++◌, ◌∷◌, map, OnOk, string_bytes};
ghost use Rattle.doc_tree.specs.Shape.{shape, pair_shape, shapes_of, pairs_of, levels, shapes_levels, pairs_levels};
ghost use Rattle.std.specs.Fmt.{signed_decimal};
ghost use Rattle.doc_tree.specs.declared.limits.TheConstants.{MAX_LEVELS};
ghost use Rattle.yaml_plain.specs.Bytes.{dash};
ghost use Rattle.yaml_text.specs.Scalars.{on_line};
ghost use Rattle.yaml_text.specs.Layout.{spaces, stands_below, behind, below_key, pairs_lines, items_lines, item_lines, joined};
ghost use Rattle.yaml_text.specs.Pieces.{lead_of, pair_text, behind_text, pairs_text, item_text};

use crate::scalars::push_text;
use doc_tree::{Str, Tree};
use itoa::Buffer;
use std::alloc::AllocError;

fn append_spaces(count: usize, out: &mut String) -> Result<(), AllocError>
    ensures { OnOk result (string_bytes out.new ≡ string_bytes out.old ++ spaces count) }
{
    for _ in 0..count {
        out.push(' ')?;
    }
    Ok(())
}

// Appends the lead of a pair whose key stands at this column: the first one's stands there already.
fn push_lead(first: bool, column: usize, out: &mut String) -> Result<(), AllocError>
    ensures { OnOk result (string_bytes out.new ≡ string_bytes out.old ++ lead_of first column) }
{
    if first {
        Ok(())
    } else {
        append_spaces(column, out)
    }
}

fn push_integer(n: i128, out: &mut String) -> Result<(), AllocError>
    ensures { OnOk result (string_bytes out.new ≡ string_bytes out.old ++ signed_decimal n) }
{
    let mut buffer = Buffer::new();
    out.push_str(buffer.format(n))
}

// Whether the value of a key or of a dash stands on the lines below.
fn stands_below(tree: &Tree) -> bool
    ensures { result ≡ stands_below (shape tree.now) }
{
    match tree {
        Tree::List(trees) => !trees.is_empty(),
        Tree::Map(pairs) => !pairs.is_empty(),
        _ => false,
    }
}

/// Appends a scalar, or the signs of an empty list or map.
pub fn push_on_line(tree: &Tree, out: &mut String) -> Result<(), AllocError>
    ensures { OnOk result (string_bytes out.new ≡ string_bytes out.old ++ on_line (shape tree.now)) }
{
    match tree {
        Tree::Null => out.push_str("null"),
        Tree::Bool(true) => out.push_str("true"),
        Tree::Bool(false) => out.push_str("false"),
        Tree::Int(n) => push_integer(*n, out),
        Tree::Text(text) => push_text(text.as_str(), out),
        Tree::List(_) => out.push_str("[]"),
        Tree::Map(_) => out.push_str("{}"),
    }
}

// Appends what follows a key's colon or a dash, and the end of the line.
fn push_behind(tree: &Tree, out: &mut String) -> Result<(), AllocError>
    ensures { OnOk result (string_bytes out.new ≡ string_bytes out.old ++ behind_text (shape tree.now)) }
{
    if !stands_below(tree) {
        out.push(' ')?;
        push_on_line(tree, out)?;
    }
    out.push('\n')
}

// Appends an item that follows its dash.
fn push_scalar_item(tree: &Tree, out: &mut String) -> Result<(), AllocError>
    ensures { OnOk result (string_bytes out.new ≡ string_bytes out.old ++ (dash ∷ behind_text (shape tree.now))) }
{
    out.push('-')?;
    push_behind(tree, out)
}

// Appends a pair whose key stands at this column, where the line has its lead already, and the lines of its value.
#[cycle(layout)]
fn push_pair(column: usize, key: &Str, tree: &Tree, out: &mut String) -> Result<(), AllocError>
    requires { column + 2 * levels (shape tree.now) ≤ 2 * MAX_LEVELS }
    ensures { OnOk result (string_bytes out.new ≡ string_bytes out.old ++ pair_text column key.now (shape tree.now)) }
{
    push_text(key.as_str(), out)?;
    out.push(':')?;
    push_behind(tree, out)?;
    append_below_key(column, tree, out)
}

// Appends the lines below a key at this column.
#[cycle(layout)]
fn append_below_key(column: usize, tree: &Tree, out: &mut String) -> Result<(), AllocError>
    requires { column + 2 * levels (shape tree.now) ≤ 2 * MAX_LEVELS }
    ensures { OnOk result (string_bytes out.new ≡ string_bytes out.old ++ joined (below_key column (shape tree.now))) }
{
    match tree {
        Tree::List(trees) => append_items(column, trees, out),
        Tree::Map(pairs) if !pairs.is_empty() => {
            append_spaces(column + 2, out)?;
            append_pairs(column + 2, pairs, out)
        }
        _ => Ok(()),
    }
}

/// Appends the pairs of a map whose keys stand at this column, where the first line has its lead already.
#[cycle(layout)]
pub fn append_pairs(
    column: usize,
    pairs: &Vec<(Str, Tree)>,
    out: &mut String,
) -> Result<(), AllocError>
    requires { column + 2 * pairs_levels (pairs_of (map pair_shape pairs.now.items)) ≤ 2 * MAX_LEVELS }
    ensures { OnOk result (string_bytes out.new ≡ string_bytes out.old ++ pairs_text column (pairs_of (map pair_shape pairs.now.items))) }
{
    let mut first = true;
    for (key, tree) in pairs {
        push_lead(first, column, out)?;
        push_pair(column, key, tree, out)?;
        first = false;
    }
    Ok(())
}

/// Appends the items of a list whose dashes stand at this column.
#[cycle(layout)]
pub fn append_items(column: usize, trees: &Vec<Tree>, out: &mut String) -> Result<(), AllocError>
    requires { column + 2 * shapes_levels (shapes_of (map shape trees.now.items)) ≤ 2 * MAX_LEVELS }
    ensures { OnOk result (string_bytes out.new ≡ string_bytes out.old ++ joined (items_lines column (shapes_of (map shape trees.now.items)))) }
{
    for tree in trees {
        append_spaces(column, out)?;
        push_item(column, tree, out)?;
    }
    Ok(())
}

// Appends an item whose dash stands at this column, where the line has its spaces already.
#[cycle(layout)]
fn push_item(column: usize, tree: &Tree, out: &mut String) -> Result<(), AllocError>
    requires { column + 2 * levels (shape tree.now) ≤ 2 * MAX_LEVELS }
    ensures { OnOk result (string_bytes out.new ≡ string_bytes out.old ++ item_text column (shape tree.now)) }
{
    match tree {
        Tree::Map(pairs) if !pairs.is_empty() => {
            out.push_str("- ")?;
            append_pairs(column + 2, pairs, out)
        }
        Tree::List(trees) => {
            out.push('-')?;
            push_behind(tree, out)?;
            append_items(column + 2, trees, out)
        }
        Tree::Null => push_scalar_item(tree, out),
        Tree::Bool(_) => push_scalar_item(tree, out),
        Tree::Int(_) => push_scalar_item(tree, out),
        Tree::Text(_) => push_scalar_item(tree, out),
        Tree::Map(_) => push_scalar_item(tree, out),
    }
}
