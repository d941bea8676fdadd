//! `:=` in a tree that no one else has: the value at the path, in every element of each list.
ghost use Rattle.std.specs.Prelude.{◌≡◌, ◌<◌, length, IfSome, Some, None, IfOk, option_map, map, bytes_eq};
ghost use Rattle.doc_tree.specs.Shape.{shape, shapes_of, pair_shape, pairs_of};
ghost use Rattle.policy_model.specs.Steps.{tree_of, added, set, set_each, set_under};
ghost use Rattle.policy_lang.specs.Parting.{pairs_onto};
ghost use Rattle.policy_values.specs.Lists.{place_of};

use base_model::Str;
use doc_tree::Tree;
use policy_model::Constant;
use std::alloc::AllocError;
use std::mem;

fn tree_of(value: &Constant) -> Result<Tree, AllocError>
    ensures { IfOk result (λ tree. shape tree ≡ tree_of value.now) }
{
    match value {
        Constant::Text(text) => Ok(Tree::Text(text.copy()?)),
        Constant::Int(n) => Ok(Tree::Int(*n)),
        Constant::Bool(b) => Ok(Tree::Bool(*b)),
    }
}

fn has_key(pair: &(Str, Tree), key: &Str) -> bool
    ensures { result ≡ bytes_eq pair.now.0 key.now }
{
    pair.0.as_str() == key.as_str()
}

/// The place of the first pair of a key.
pub(crate) fn place_of(key: &Str, pairs: &[(Str, Tree)]) -> Option<usize>
    ensures place { result ≡ place_of key.now pairs.now }
    ensures inside { IfSome result (λ i. i < length pairs.now) }
{
    for (i, pair) in pairs.iter().enumerate() {
        if has_key(pair, key) {
            return Some(i);
        }
    }
    None
}

/// The tree with the value at the path, in every element of each list; `None` where the path leads nowhere.
#[cycle(setting)]
pub(crate) fn set(value: &Constant, path: &[Str], tree: Tree) -> Result<Option<Tree>, AllocError>
    ensures { IfOk result (λ found. option_map shape found ≡ set value.now path.now (shape tree)) }
{
    let [key, keys @ ..] = path else {
        return Ok(Some(tree_of(value)?));
    };
    let mut tree = tree;
    match &mut tree {
        Tree::List(trees) => {
            let alloc = *trees.allocator();
            let trees = mem::replace(trees, Vec::new(alloc));
            match set_each(value, path, trees)? {
                Some(trees) => Ok(Some(Tree::List(trees))),
                None => Ok(None),
            }
        }
        Tree::Map(pairs) => {
            let alloc = *pairs.allocator();
            let pairs = mem::replace(pairs, Vec::new(alloc));
            match set_under(value, key, keys, pairs)? {
                Some(pairs) => Ok(Some(Tree::Map(pairs))),
                None => Ok(None),
            }
        }
        _ => Ok(None),
    }
}

/// The same of each tree.
#[cycle(setting)]
pub(crate) fn set_each(
    value: &Constant,
    path: &[Str],
    trees: Vec<Tree>,
) -> Result<Option<Vec<Tree>>, AllocError>
    ensures { IfOk result (λ found. option_map (λ trees. shapes_of (map shape trees.items)) found
        ≡ set_each value.now path.now (shapes_of (map shape trees.items))) }
{
    let mut trees = trees;
    for i in 0..trees.len() {
        let tree = mem::replace(&mut trees[i], Tree::Null);
        let Some(tree) = set(value, path, tree)? else {
            return Ok(None);
        };
        trees[i] = tree;
    }
    Ok(Some(trees))
}

// A missing last key comes at the end of its map.
fn added(
    value: &Constant,
    key: &Str,
    keys: &[Str],
    pairs: Vec<(Str, Tree)>,
) -> Result<Option<Vec<(Str, Tree)>>, AllocError>
    ensures { IfOk result (λ all. option_map (λ pairs. pairs_of (map pair_shape pairs.items)) all
        ≡ option_map (pairs_onto (map pair_shape pairs.items)) (added value.now key.now keys.now)) }
{
    if !keys.is_empty() {
        return Ok(None);
    }
    let mut pairs = pairs;
    let name = key.copy()?;
    pairs.push((name, tree_of(value)?))?;
    Ok(Some(pairs))
}

#[cycle(setting)]
fn set_under(
    value: &Constant,
    key: &Str,
    keys: &[Str],
    pairs: Vec<(Str, Tree)>,
) -> Result<Option<Vec<(Str, Tree)>>, AllocError>
    ensures { IfOk result (λ found. option_map (λ pairs. pairs_of (map pair_shape pairs.items)) found
        ≡ set_under value.now key.now keys.now (pairs_of (map pair_shape pairs.items))) }
{
    let Some(i) = place_of(key, pairs.as_slice()) else {
        return added(value, key, keys, pairs);
    };
    let mut pairs = pairs;
    let tree = mem::replace(&mut pairs[i].1, Tree::Null);
    let Some(tree) = set(value, keys, tree)? else {
        return Ok(None);
    };
    pairs[i].1 = tree;
    Ok(Some(pairs))
}
