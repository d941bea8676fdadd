//! Maps that are read by a table of their keys.
ghost use Rattle.std.specs.Prelude.{◌≡◌, map, Bool, true, OnOk};
ghost use Rattle.doc_tree.specs.Shape.{nothing, shape, pair_shape, pairs_of};
ghost use Rattle.tree_schema.specs.Reached.{Changes};
ghost use Rattle.tree_schema.specs.Tables.{Table, read_key, read_pair, read_pairs, read_map, value_in, value_at, top_of};
ghost use Rattle.std.specs.Option.{option_map_or};

use crate::values::is_null;
use crate::{Reader, Reason, Stop};
use base_model::Str;
use doc_tree::Tree;

/// A map of a document, whose pairs are read into an entry.
pub trait Section {
    type Entry;

    /// The keys of the map.
    ghost table: { Self → Table Self.Entry };

    /// What holds of the entry before and after each pair.
    ghost holds: { Self → Self.Entry → Bool };

    /// Reads the value of a key, which isn't null, into the entry.
    fn read_key(
        &self,
        reader: &mut Reader,
        key: &str,
        value: &Tree,
        entry: &mut Self::Entry,
    ) -> Result<(), Stop>
        requires { holds self.now entry.old ≡ true }
        ensures read { Changes (read_key (table self.now) key.now (shape value.now) entry.old) reader.old reader.new entry.new result }
        ensures right { OnOk result (holds self.now entry.new ≡ true) };
}

fn read_pair<S: Section>(
    section: &S,
    reader: &mut Reader,
    pair: &(Str, Tree),
    entry: &mut S::Entry,
) -> Result<(), Stop>
    requires { S.holds section.now entry.old ≡ true }
    ensures read { Changes (read_pair (S.table section.now) pair.now.0 (shape pair.now.1) entry.old) reader.old reader.new entry.new result }
    ensures right { OnOk result (S.holds section.now entry.new ≡ true) }
{
    if is_null(&pair.1) {
        return Ok(());
    }
    reader.enter_key(pair.0.as_str())?;
    section.read_key(reader, pair.0.as_str(), &pair.1, entry)?;
    reader.leave();
    Ok(())
}

fn read_pairs<S: Section>(
    section: &S,
    reader: &mut Reader,
    pairs: &Vec<(Str, Tree)>,
    entry: &mut S::Entry,
) -> Result<(), Stop>
    requires { S.holds section.now entry.old ≡ true }
    ensures read { Changes (read_pairs (S.table section.now) entry.old (pairs_of (map pair_shape pairs.now.items))) reader.old reader.new entry.new result }
    ensures right { OnOk result (S.holds section.now entry.new ≡ true) }
{
    for pair in pairs {
        read_pair(section, reader, pair, entry)?;
    }
    Ok(())
}

/// Reads the pairs of a map into an entry, in the order of the tree. What is no map is `WrongType`. Needed keys, and checks
/// between keys, are for the caller to look at after all pairs.
pub fn read_map<S: Section>(
    section: &S,
    reader: &mut Reader,
    tree: &Tree,
    entry: &mut S::Entry,
) -> Result<(), Stop>
    requires { S.holds section.now entry.old ≡ true }
    ensures read { Changes (read_map (S.table section.now) entry.old (shape tree.now)) reader.old reader.new entry.new result }
    ensures right { OnOk result (S.holds section.now entry.new ≡ true) }
{
    match tree {
        Tree::Map(pairs) => read_pairs(section, reader, pairs, entry),
        _ => Err(Stop::Refused(Reason::WrongType)),
    }
}

/// The same of the top, where null is an empty map.
pub fn read_top<S: Section>(
    section: &S,
    reader: &mut Reader,
    tree: &Tree,
    entry: &mut S::Entry,
) -> Result<(), Stop>
    requires { S.holds section.now entry.old ≡ true }
    ensures read { Changes (read_map (S.table section.now) entry.old (top_of (shape tree.now))) reader.old reader.new entry.new result }
    ensures right { OnOk result (S.holds section.now entry.new ≡ true) }
{
    if is_null(tree) {
        return Ok(());
    }
    read_map(section, reader, tree, entry)
}

fn value_in<'a>(key: &str, pairs: &'a Vec<(Str, Tree)>) -> Option<&'a Tree>
    ensures { option_map_or (λ t. shape t.now) result nothing ≡ value_in key.now (pairs_of (map pair_shape pairs.now.items)) }
{
    for pair in pairs {
        if pair.0.as_str() == key {
            return Some(&pair.1);
        }
    }
    None
}

/// What stands under a key of a map.
pub fn value_under<'a>(key: &str, tree: &'a Tree) -> Option<&'a Tree>
    ensures { option_map_or (λ t. shape t.now) result nothing ≡ value_at key.now (shape tree.now) }
{
    match tree {
        Tree::Map(pairs) => value_in(key, pairs),
        _ => None,
    }
}
