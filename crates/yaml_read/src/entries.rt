//! The pairs of a map, with a set of their keys, so that a key is looked up in a time that grows with the logarithm of their
//! number.

ghost use Rattle.std.specs.Prelude.{◌≡◌, ◌++◌, ◌∷◌, [], map, IfOk};
ghost use Rattle.yaml_read.specs.Keys.{is_among};

use base_model::Str;
use doc_tree::Tree;
use std::alloc::{AllocError, Global};
use std::collections::BTreeSet;
use std::marker::Model;

/// The pairs of a map in their order. Contracts see their list.
pub struct Entries {
    pairs: Vec<(Str, Tree)>,
    names: BTreeSet<Str>,
}

// By hand, so that a proof sees one call where they are dropped, and not a step for each part.
impl Drop for Entries {
    fn drop(self) {
        let Entries { pairs: _, names: _ } = self;
    }
}

impl Model for Entries {
    ghost use Rattle.std.specs.Prelude.{ℕ, List, map};
    ghost use Rattle.doc_tree.specs.declared.tree.Tree.{Tree};
    ghost use Rattle.std.specs.Coded.{codes};
    ghost use Rattle.doc_tree.specs.contracts.tree.Tree as tree;
    ghost use Rattle.yaml_read.specs.Index.{HasKeys};

    ghost Value = { List (List ℕ × Tree) };

    ghost view = { λ e. e.pairs.items };

    ghost coded = { Prim.hlevel (codes, tree.the_row.coded) };

    ghost invariant = { λ e. HasKeys e.names (map (λ p. p.0) e.pairs.items) };
}

impl Entries {
    pub fn new(alloc: Global) -> Entries
        ensures { result ≡ [] }
    {
        Entries {
            pairs: Vec::new(alloc),
            names: BTreeSet::new(alloc),
        }
    }

    /// Whether one of the pairs has this key.
    pub fn has(&self, name: &Str) -> bool
        ensures { result ≡ is_among name.now (map (λ p. p.0) self.now) }
    {
        self.names.contains(name)
    }

    /// The pairs with one more behind them.
    pub fn with(self, name: Str, tree: Tree) -> Result<Entries, AllocError>
        ensures { IfOk result (λ entries. entries ≡ self ++ (name, tree) ∷ []) }
    {
        let Entries {
            mut pairs,
            mut names,
        } = self;
        names.insert(name.copy()?)?;
        pairs.push((name, tree))?;
        Ok(Entries { pairs, names })
    }

    /// The pairs. It takes no memory.
    pub fn into_pairs(self) -> Vec<(Str, Tree)>
        ensures { result.items ≡ self }
    {
        let Entries { pairs, names: _ } = self;
        pairs
    }
}
