//! Maps of a tree, built pair by pair.
ghost use Rattle.std.specs.Prelude.{◌≡◌, ◌++◌, ℕ, Bool, List, [], map, IfOk};
ghost use Rattle.doc_tree.specs.Shape.{Shape, pair_shape, truth, text};
ghost use Rattle.show_core.specs.Fields.{Fields, fields, field, field_of, fields_if, number, address, prefix};
ghost use Rattle.show_core.specs.Pairs.{Holds, IsTree};

use crate::values::{address_tree, bool_tree, name_tree, number_tree, subnet_tree, word_tree};
use doc_tree::{Str, Tree};
use net_model::{Addr, Name, OutOfMemory, Subnet};
use std::alloc::Global;

/// The pairs of a map that is being built, unless memory ran out: then it stays so, and there is no map in the end. What it
/// holds, in the words of contracts, is each key with the shape of its tree.
#[derive(Drop)]
pub struct Pairs {
    alloc: Global,
    pairs: Result<Vec<(Str, Tree)>, OutOfMemory>,
}

// The pairs, and one more.
fn with_pair(
    alloc: Global,
    pairs: Result<Vec<(Str, Tree)>, OutOfMemory>,
    key: &str,
    tree: Result<Tree, OutOfMemory>,
) -> Result<Vec<(Str, Tree)>, OutOfMemory>
    ensures { (held : Fields) (form : Shape) → IfOk pairs (λ pairs. map pair_shape pairs.items ≡ held) → IsTree form tree
        → IfOk result (λ pairs. map pair_shape pairs.items ≡ held ++ field key.now form) }
{
    let mut pairs = pairs?;
    let tree = tree?;
    let key = Str::of(String::from_str(alloc, key)?);
    pairs.push((key, tree))?;
    Ok(pairs)
}

impl Pairs {
    /// No pairs.
    pub fn new(alloc: Global) -> Pairs
        ensures { Holds [] result }
    {
        Pairs {
            alloc,
            pairs: Ok(Vec::new(alloc)),
        }
    }

    /// Appends a pair.
    pub fn put(self, key: &str, tree: Result<Tree, OutOfMemory>) -> Pairs
        ensures { (held : Fields) (form : Shape) → Holds held self → IsTree form tree → Holds (held ++ field key.now form) result }
    {
        let Pairs { alloc, pairs } = self;
        Pairs {
            alloc,
            pairs: with_pair(alloc, pairs, key, tree),
        }
    }

    /// Appends a pair of a key and a number.
    pub fn put_number(self, key: &str, n: u32) -> Pairs
        ensures { (held : Fields) (value : ℕ) → Holds held self → n ≡ value → Holds (held ++ field key.now (number value)) result }
    {
        self.put(key, Ok(number_tree(n)))
    }

    /// Appends a pair of a key and a boolean.
    pub fn put_bool(self, key: &str, b: bool) -> Pairs
        ensures { (held : Fields) (value : Bool) → Holds held self → b ≡ value → Holds (held ++ field key.now (truth value)) result }
    {
        self.put(key, Ok(bool_tree(b)))
    }

    /// Appends a pair of a key and a word.
    pub fn put_word(self, key: &str, word: &str) -> Pairs
        ensures { (held : Fields) (value : List ℕ) → Holds held self → word.now ≡ value → Holds (held ++ field key.now (text value)) result }
    {
        let tree = word_tree(self.alloc, word);
        self.put(key, tree)
    }

    /// Appends a pair of a key and a name.
    pub fn put_name(self, key: &str, name: &Name) -> Pairs
        ensures { (held : Fields) → Holds held self → Holds (held ++ field key.now (text name.now)) result }
    {
        let tree = name_tree(self.alloc, name);
        self.put(key, tree)
    }

    /// Appends a pair of a key and a name, where there is one.
    pub fn put_some_name(self, key: &str, name: &Option<Name>) -> Pairs
        ensures { (held : Fields) → Holds held self → Holds (held ++ field_of key.now text name.now) result }
    {
        match name {
            None => self,
            Some(name) => self.put_name(key, name),
        }
    }

    /// Appends a pair of a key and an address, where there is one.
    pub fn put_some_address(self, key: &str, addr: Option<Addr>) -> Pairs
        ensures { (held : Fields) → Holds held self → Holds (held ++ field_of key.now address addr) result }
    {
        match addr {
            None => self,
            Some(addr) => {
                let tree = address_tree(self.alloc, addr);
                self.put(key, tree)
            }
        }
    }

    /// Appends a pair of a key and a prefix, where there is one.
    pub fn put_some_subnet(self, key: &str, subnet: Option<Subnet>) -> Pairs
        ensures { (held : Fields) → Holds held self → Holds (held ++ field_of key.now prefix subnet) result }
    {
        match subnet {
            None => self,
            Some(subnet) => {
                let tree = subnet_tree(self.alloc, subnet);
                self.put(key, tree)
            }
        }
    }

    /// Appends a pair, where it is to stand there.
    pub fn put_if(self, stands: bool, key: &str, tree: Result<Tree, OutOfMemory>) -> Pairs
        ensures { (held : Fields) (test : Bool) (form : Shape) → Holds held self → stands ≡ test → IsTree form tree
            → Holds (held ++ fields_if test (field key.now form)) result }
    {
        if stands { self.put(key, tree) } else { self }
    }

    /// The map, unless memory ran out.
    pub fn into_tree(self) -> Result<Tree, OutOfMemory>
        ensures { (held : Fields) → Holds held self → IsTree (fields held) result }
    {
        let Pairs { pairs, .. } = self;
        Ok(Tree::Map(pairs?))
    }
}
