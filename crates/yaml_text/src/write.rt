//! Trees as texts.

ghost use Rattle.std.specs.Prelude.{◌≡◌, ◌≤◌, ◌++◌, ◌∷◌, [], true, IfOk, OnOk, Ok, length, string_bytes};
ghost use Rattle.doc_tree.specs.Shape.{Shape, shape, is_distinct, levels};
ghost use Rattle.yaml_text.specs.Scalars.{on_line};
ghost use Rattle.yaml_text.specs.Layout.{yaml_text_of, yaml_lines, joined, is_filled_map};
ghost use Rattle.doc_tree.specs.declared.limits.TheConstants.{MAX_BYTES, MAX_LEVELS};
ghost use Rattle.yaml_read.specs.Reading.{reading};
ghost use Rattle.yaml_read.specs.Standing.{StandsFor};

use crate::layout::{append_items, append_pairs, push_on_line};
use base_model::OutOfMemory;
use doc_tree::{Tree, integer_laws};
use std::alloc::{AllocError, Global};
use yaml_read::reading_laws;

// Appends a tree that is one line.
fn push_only_line(tree: &Tree, out: &mut String) -> Result<(), AllocError>
    ensures { OnOk result (string_bytes out.new ≡ string_bytes out.old ++ joined (on_line (shape tree.now) ∷ [])) }
{
    push_on_line(tree, out)?;
    out.push('\n')
}

fn push_tree(tree: &Tree, out: &mut String) -> Result<(), AllocError>
    requires { levels (shape tree.now) ≤ MAX_LEVELS }
    ensures { OnOk result (string_bytes out.new ≡ string_bytes out.old ++ joined (yaml_lines (shape tree.now))) }
{
    match tree {
        Tree::List(trees) if !trees.is_empty() => append_items(0, trees, out),
        Tree::Map(pairs) if !pairs.is_empty() => append_pairs(0, pairs, out),
        Tree::Null => push_only_line(tree, out),
        Tree::Bool(_) => push_only_line(tree, out),
        Tree::Int(_) => push_only_line(tree, out),
        Tree::Text(_) => push_only_line(tree, out),
        Tree::List(_) => push_only_line(tree, out),
        Tree::Map(_) => push_only_line(tree, out),
    }
}

#[tactic(auto, unfolding(crate::specs::Layout::yaml_text_of))]
fn text_of(alloc: Global, tree: &Tree) -> Result<String, AllocError>
    requires { levels (shape tree.now) ≤ MAX_LEVELS }
    ensures { IfOk result (λ text. string_bytes text ≡ yaml_text_of (shape tree.now)) }
{
    let mut out = String::new(alloc);
    push_tree(tree, &mut out)?;
    Ok(out)
}

/// The text of a tree, in the subset that `tree_of_yaml` reads.
///
/// The text of a map that has a pair stands for that map and for no other tree, and is read as it where it has at most
/// [`MAX_BYTES`](doc_tree::MAX_BYTES) bytes. Another tree's text is for the eye: a scalar, `[]` or `{}` on one line, or a list at column 0.
pub fn yaml_of_tree(alloc: Global, tree: &Tree) -> Result<Vec<u8>, OutOfMemory>
    requires distinct { is_distinct (shape tree.now) ≡ true }
    requires depth { levels (shape tree.now) ≤ MAX_LEVELS }
    // The text is exactly that of the definition.
    ensures text { IfOk result (λ text. text.items ≡ yaml_text_of (shape tree.now)) }
    ensures stands { IfOk result (λ text. is_filled_map (shape tree.now) ≡ true → StandsFor text.items (shape tree.now)) }
    ensures alone { IfOk result (λ text. is_filled_map (shape tree.now) ≡ true → (u : Shape) → StandsFor text.items u → u ≡ shape tree.now) }
    ensures reads { IfOk result (λ text. is_filled_map (shape tree.now) ≡ true → length text.items ≤ MAX_BYTES → reading text.items ≡ Ok (shape tree.now)) }
{
    integer_laws(tree);
    reading_laws();
    let text = text_of(alloc, tree)?;
    Ok(text.into_bytes())
}
