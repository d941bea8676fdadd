//! Maps of a tree, built pair by pair.
ghost use Rattle.std.specs.Prelude.{◌≡◌, ◌++◌, [], OnOk};
ghost use Rattle.doc_tree.specs.Shape.{shape, text};
ghost use Rattle.show_core.specs.Fields.{fields, field, number};
ghost use Rattle.scenario_trees.specs.Pairs.{held};

use base_model::{OutOfMemory, Str};
use doc_tree::Tree;
use std::alloc::Global;

/// The pairs of a map that is being built. What it holds, in the words of contracts, is each key with the shape of its tree.
#[derive(Drop)]
pub struct Pairs {
    pairs: Vec<(Str, Tree)>,
}

impl Pairs {
    /// No pairs.
    pub fn new(alloc: Global) -> Pairs
        ensures { held result ≡ [] }
    {
        Pairs {
            pairs: Vec::new(alloc),
        }
    }

    /// Appends a pair.
    pub fn put(&mut self, key: &str, tree: Tree) -> Result<(), OutOfMemory>
        ensures { OnOk result (held self.new ≡ held self.old ++ field key.now (shape tree)) }
    {
        let key = Str::of(String::from_str(*self.pairs.allocator(), key)?);
        self.pairs.push((key, tree))?;
        Ok(())
    }

    /// Appends a pair of a key and a number.
    pub fn put_number(&mut self, key: &str, n: u32) -> Result<(), OutOfMemory>
        ensures { OnOk result (held self.new ≡ held self.old ++ field key.now (number n)) }
    {
        self.put(key, Tree::Int(i128::from(n)))
    }

    /// Appends a pair of a key and a string.
    pub fn put_text(&mut self, key: &str, string: Str) -> Result<(), OutOfMemory>
        ensures { OnOk result (held self.new ≡ held self.old ++ field key.now (text string)) }
    {
        self.put(key, Tree::Text(string))
    }

    /// Appends a pair of a key and a word.
    pub fn put_word(&mut self, key: &str, word: &str) -> Result<(), OutOfMemory>
        ensures { OnOk result (held self.new ≡ held self.old ++ field key.now (text word.now)) }
    {
        let word = Str::of(String::from_str(*self.pairs.allocator(), word)?);
        self.put(key, Tree::Text(word))
    }

    /// The map.
    pub fn into_tree(self) -> Tree
        ensures { shape result ≡ fields (held self) }
    {
        let Pairs { pairs } = self;
        Tree::Map(pairs)
    }
}
