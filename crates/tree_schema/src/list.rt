//! Lists whose items are read one by one.
ghost use Rattle.std.specs.Prelude.{◌≡◌, ◌<◌, ◌≤◌, ◌+◌, ◌^◌, nat_lt, length, ◌++◌, List, Option, map, option_to_list, OnOk, IfOk, IfErr, Bool, true};
ghost use Rattle.std.specs.List.{list_all};
ghost use Rattle.std.specs.Option.{option_map_or};
ghost use Rattle.base_model.specs.Lists.{is_short};
ghost use Rattle.base_model.specs.declared.PathStep.TheVariants.{At};
ghost use Rattle.doc_tree.specs.Shape.{Shape, shape, shapes_of};
ghost use Rattle.tree_schema.specs.Reached.{Answers, AnswersItems};
ghost use Rattle.tree_schema.specs.declared.stop.Stop.TheVariants.{OutOfMemory};
ghost use Rattle.tree_schema.specs.Reading.{Reading, below, read_items, read_list};

use crate::{Reader, Reason, Stop};
use base_model::Items;
use doc_tree::Tree;

/// What the items of a list are read as.
pub trait Item {
    type Value;

    /// What an item gives; one that gives nothing is dropped.
    ghost reading: { Self → Shape → Reading (Option Self.Value) };

    /// What holds of each value.
    ghost holds: { Self → Self.Value → Bool };

    fn read(&self, reader: &mut Reader, tree: &Tree) -> Result<Option<Self::Value>, Stop>
        ensures read { Answers (reading self.now (shape tree.now)) reader.old reader.new result }
        ensures right { IfOk result (λ value. option_map_or (holds self.now) value true ≡ true) };
}

fn push_given<T: Drop>(values: &mut Vec<T>, value: Option<T>) -> Result<(), Stop>
    ensures ok { OnOk result (values.new.items ≡ values.old.items ++ option_to_list value) }
    ensures more { OnOk result (length values.new.items ≤ length values.old.items + 1) }
    ensures err { IfErr result (λ stop. stop ≡ OutOfMemory) }
{
    if let Some(value) = value {
        values.push(value)?;
    }
    Ok(())
}

fn read_items<I: Item>(
    item: &I,
    reader: &mut Reader,
    trees: &Vec<Tree>,
) -> Result<Vec<I::Value>, Stop>
where
    I::Value: Drop,
    ensures read { AnswersItems (read_items (I.reading item.now) 0 (shapes_of (map shape trees.now.items))) reader.old reader.new result }
    ensures right { IfOk result (λ values. list_all (I.holds item.now) values.items ≡ true) }
    ensures short { IfOk result (λ values. length values.items < 2 ^ 31) }
{
    let mut values = Vec::new(reader.alloc());
    for (i, tree) in trees.iter().enumerate() {
        let value = read_item(item, reader, i, tree)?;
        push_given(&mut values, value)?;
    }
    Ok(values)
}

fn read_item<I: Item>(
    item: &I,
    reader: &mut Reader,
    i: usize,
    tree: &Tree,
) -> Result<Option<I::Value>, Stop>
    ensures read { Answers (below (At i) (I.reading item.now (shape tree.now))) reader.old reader.new result }
    ensures right { IfOk result (λ value. option_map_or (I.holds item.now) value true ≡ true) }
    ensures short { OnOk result (i < 2147483647) }
{
    reader.enter_item(i)?;
    let value = item.read(reader, tree)?;
    reader.leave();
    Ok(value)
}

/// Reads the items of a list, in order. What is no list is `WrongType`. A list of 2^31 items or more is answered as out of
/// memory.
pub fn read_list<I: Item>(
    item: &I,
    reader: &mut Reader,
    tree: &Tree,
) -> Result<Items<I::Value>, Stop>
where
    I::Value: Drop,
    ensures read { Answers (read_list (I.reading item.now) (shape tree.now)) reader.old reader.new result }
    ensures right { IfOk result (λ values. list_all (I.holds item.now) values ≡ true) }
    ensures short { IfOk result (λ values. is_short values ≡ true) }
{
    match tree {
        Tree::List(trees) => Ok(Items::of(read_items(item, reader, trees)?)),
        _ => Err(Stop::Refused(Reason::WrongType)),
    }
}
