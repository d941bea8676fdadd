//! Texts as trees.

ghost use Rattle.std.specs.Prelude.{◌≡◌, ◌≤◌, true, length, IfOk};
ghost use Rattle.std.specs.Str.Lines.{lines};
ghost use Rattle.doc_tree.specs.Shape.{shape, is_distinct, levels, has_short_lists};
ghost use Rattle.yaml_read.specs.Rows.{rows_of};
ghost use Rattle.yaml_read.specs.Reading.{document, reading};
ghost use Rattle.yaml_read.specs.Seen.{Answers};
ghost use Rattle.doc_tree.specs.declared.limits.TheConstants.{MAX_LEVELS};

use crate::fault::YamlFault;
use crate::reader::document;
use crate::rows::{rows_from, without_start};
use doc_tree::{MAX_BYTES, Tree};
use std::alloc::Global;
use std::str;

// The tree of a text that is UTF-8.
fn tree_of_text(alloc: Global, text: &str) -> Result<Tree, YamlFault>
    requires { length text.now ≤ MAX_BYTES }
    ensures { Answers shape result (document (rows_of text.now)) }
{
    let rows = rows_from(alloc, text)?;
    document(alloc, without_start(&rows))
}

fn read_tree(alloc: Global, bytes: &[u8]) -> Result<Tree, YamlFault>
    ensures { Answers shape result (reading bytes.now) }
{
    if bytes.len() > MAX_BYTES {
        return Err(YamlFault::TooLarge);
    }
    match str::from_utf8(bytes) {
        Ok(text) => tree_of_text(alloc, text),
        Err(error) => Err(YamlFault::NotUtf8(error.valid_up_to() as u64)),
    }
}

/// The tree that a text of the subset stands for.
///
/// A text of more than [`MAX_BYTES`](doc_tree::MAX_BYTES) bytes is `TooLarge`, and one that isn't UTF-8 `NotUtf8` with the place at which it stops
/// being. Else the fault names the first line that can't continue a valid document: `Unsupported` where the line by
/// itself has something of YAML that lies outside, else `DuplicateKey` where a key equals an earlier one of its map, else
/// `TooDeep` where a node begins past level [`MAX_LEVELS`](doc_tree::MAX_LEVELS), else `Malformed`.
pub fn tree_of_yaml(alloc: Global, bytes: &[u8]) -> Result<Tree, YamlFault>
    ensures exact { Answers shape result (reading bytes.now) }
    ensures distinct { IfOk result (λ tree. is_distinct (shape tree) ≡ true) }
    ensures depth { IfOk result (λ tree. levels (shape tree) ≤ MAX_LEVELS) }
    ensures short { IfOk result (λ tree. has_short_lists (shape tree) ≡ true) }
{
    read_tree(alloc, bytes)
}
