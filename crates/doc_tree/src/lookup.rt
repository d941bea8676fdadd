//! What stands under a key.
ghost use Rattle.std.specs.Prelude.{◌≡◌, map, option_map};
ghost use Rattle.doc_tree.specs.Shape.{shape, pair_shape, pairs_of};
ghost use Rattle.doc_tree.specs.Lookup.{find, get};

use crate::tree::Tree;
use base_model::Str;

fn find<'a>(key: &str, pairs: &'a Vec<(Str, Tree)>) -> Option<&'a Tree>
    ensures { option_map (λ tree. shape tree.now) result ≡ find key.now (pairs_of (map pair_shape pairs.now.items)) }
{
    for pair in pairs {
        if pair.0.as_str() == key {
            return Some(&pair.1);
        }
    }
    None
}

impl Tree {
    /// The node under a key of a map, if the tree is a map that has the key. Of several pairs with the key it is the
    /// first one's.
    pub fn get(&self, key: &str) -> Option<&Tree>
        ensures { option_map (λ tree. shape tree.now) result ≡ get key.now (shape self.now) }
    {
        match self {
            Tree::Map(pairs) => find(key, pairs),
            _ => None,
        }
    }
}
