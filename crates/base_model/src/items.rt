//! Lists that a struct owns.
ghost use Rattle.std.specs.Prelude.{◌≡◌, ◌<◌, ◌≤◌, ◌++◌, ◌∷◌, [], length, slice_index_or, insert, remove, OnOk, OnErr};

use crate::OutOfMemory;
use std::marker::Model;

/// An owned list. Contracts see the list of its items, so that two of them with the same items are equal values; a type
/// that contracts compare has this in place of a vector.
#[derive(Clone, Drop)]
pub struct Items<T> {
    items: Vec<T>,
}

impl<T> Model for Items<T> {
    ghost use Rattle.std.specs.Prelude.{List};

    ghost Value = { List T };

    ghost view = { λ s. s.items.items };
}

impl<T> Items<T> {
    /// The list of these items. It allocates nothing.
    pub fn of(items: Vec<T>) -> Items<T>
        ensures { result ≡ items.items }
    {
        Items { items }
    }

    pub fn items(&self) -> &Vec<T>
        ensures { result.now.items ≡ self.now }
    {
        &self.items
    }

    /// The vector of the items. It allocates nothing.
    pub fn into_vec(self) -> Vec<T>
        ensures { result.items ≡ self }
    {
        let Items { items } = self;
        items
    }

    /// Appends an item.
    pub fn push(&mut self, item: T) -> Result<(), OutOfMemory>
    where
        T: Drop,
        ensures ok { OnOk result (self.new ≡ self.old ++ item ∷ []) }
        ensures err { OnErr result (self.new ≡ self.old) }
    {
        self.items.push(item)?;
        Ok(())
    }

    /// Inserts an item at an index. Where memory is refused, the list is as it was.
    pub fn insert(&mut self, index: usize, item: T) -> Result<(), OutOfMemory>
    where
        T: Drop,
        requires { index ≤ length self.old }
        ensures ok { OnOk result (self.new ≡ insert self.old index item) }
        ensures err { OnErr result (self.new ≡ self.old) }
    {
        self.items.insert(index, item)?;
        Ok(())
    }

    /// Takes the item at an index out.
    pub fn remove(&mut self, index: usize) -> T
        requires { index < length self.old }
        ensures item { (d : T) → result ≡ slice_index_or self.old index d }
        ensures rest { self.new ≡ remove self.old index }
    {
        self.items.remove(index)
    }

    pub fn clear(&mut self)
    where
        T: Drop,
        ensures { self.new ≡ [] }
    {
        self.items.clear();
    }
}
