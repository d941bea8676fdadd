//! The whole numbers of a tree have 128 bits, as their type says.
ghost use Rattle.std.specs.Prelude.{◌≡◌, map, true};
ghost use Rattle.doc_tree.specs.Shape.{shape, pair_shape, shapes_of, pairs_of};
ghost use Rattle.doc_tree.specs.Integers.{has_128_bits, integers_fit, items_fit, pairs_fit};

use crate::tree::Tree;
use base_model::Str;

fn integer_fits(_n: i128)
    ensures { has_128_bits _n ≡ true }
{}

/// Supplies what the type of a tree's whole numbers says of them, by going over the tree; has no other effect at run time.
#[cycle(integers)]
pub fn integer_laws(tree: &Tree)
    ensures { integers_fit (shape tree.now) ≡ true }
{
    match tree {
        Tree::Null => {}
        Tree::Bool(_) => {}
        Tree::Int(n) => integer_fits(*n),
        Tree::Text(_) => {}
        Tree::List(trees) => items_laws(trees),
        Tree::Map(pairs) => pairs_laws(pairs),
    }
}

#[cycle(integers)]
fn items_laws(trees: &Vec<Tree>)
    ensures { items_fit (shapes_of (map shape trees.now.items)) ≡ true }
{
    for tree in trees {
        integer_laws(tree);
    }
}

#[cycle(integers)]
fn pairs_laws(pairs: &Vec<(Str, Tree)>)
    ensures { pairs_fit (pairs_of (map pair_shape pairs.now.items)) ≡ true }
{
    for (_, tree) in pairs {
        integer_laws(tree);
    }
}
