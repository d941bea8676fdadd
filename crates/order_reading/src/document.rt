//! Documents and hardware lists.
ghost use Rattle.std.specs.Prelude.{◌≡◌, ◌&&◌, true, IfOk};
ghost use Rattle.doc_tree.specs.Shape.{shape, is_distinct, has_short_lists};
ghost use Rattle.document_model.specs.Entries.{is_document, has_short_doc};
ghost use Rattle.doc_tree.specs.JsonTree.{json_tree};
ghost use Rattle.yaml_read.specs.Reading.{reading};
ghost use Rattle.top_model.specs.Orders.{begins_json, with_fault, tree_of, document_of_tree, document, hardware_list};
ghost use Rattle.top_model.specs.declared.DocFault.TheVariants.{Json, Yaml, Schema};
ghost use Rattle.order_reading.specs.Faults.{json_cause, yaml_cause, schema_cause};
ghost use Rattle.order_reading.specs.Reading.{Answers, itself};

use doc_tree::{JsonFault, Tree, tree_of_json};
use document_model::Doc;
use document_schema::doc_of;
use link_schema::hardware_of;
use net_model::{Items, Link};
use std::alloc::Global;
use top_model::{Cause, DocFault};
use tree_schema::SchemaFault;
use yaml_read::{YamlFault, tree_of_yaml};

// Whether the first byte that isn't space, tab, CR or LF begins an object or an array of JSON.
fn begins_json(bytes: &[u8]) -> bool
    ensures { result ≡ begins_json bytes.now }
{
    for byte in bytes {
        match *byte {
            b' ' | b'\t' | b'\r' | b'\n' => {}
            first => return first == b'{' || first == b'[',
        }
    }
    false
}

// Why a text of JSON is refused.
fn json_cause(fault: JsonFault) -> Cause
    ensures { result ≡ json_cause fault }
{
    match fault {
        JsonFault::OutOfMemory => Cause::OutOfMemory,
        fault => Cause::DocRefused(DocFault::Json(fault)),
    }
}

// Why a text of YAML is refused.
fn yaml_cause(fault: YamlFault) -> Cause
    ensures { result ≡ yaml_cause fault }
{
    match fault {
        YamlFault::OutOfMemory => Cause::OutOfMemory,
        fault => Cause::DocRefused(DocFault::Yaml(fault)),
    }
}

// Why a tree is refused.
pub(crate) fn schema_cause(fault: SchemaFault) -> Cause
    ensures { result ≡ schema_cause fault }
{
    match fault {
        SchemaFault::OutOfMemory => Cause::OutOfMemory,
        fault => Cause::DocRefused(DocFault::Schema(fault)),
    }
}

fn json_tree(alloc: Global, bytes: &[u8]) -> Result<Tree, Cause>
    ensures read { Answers shape (with_fault Json (json_tree bytes.now)) result }
    ensures distinct { IfOk result (λ tree. is_distinct (shape tree) ≡ true) }
    ensures short { IfOk result (λ tree. has_short_lists (shape tree) ≡ true) }
{
    match tree_of_json(alloc, bytes) {
        Ok(tree) => Ok(tree),
        Err(fault) => Err(json_cause(fault)),
    }
}

pub(crate) fn yaml_tree(alloc: Global, bytes: &[u8]) -> Result<Tree, Cause>
    ensures read { Answers shape (with_fault Yaml (reading bytes.now)) result }
    ensures distinct { IfOk result (λ tree. is_distinct (shape tree) ≡ true) }
    ensures short { IfOk result (λ tree. has_short_lists (shape tree) ≡ true) }
{
    match tree_of_yaml(alloc, bytes) {
        Ok(tree) => Ok(tree),
        Err(fault) => Err(yaml_cause(fault)),
    }
}

// The tree of JSON or of YAML.
pub(crate) fn tree_of(alloc: Global, bytes: &[u8]) -> Result<Tree, Cause>
    ensures read { Answers shape (tree_of bytes.now) result }
    ensures distinct { IfOk result (λ tree. is_distinct (shape tree) ≡ true) }
    ensures short { IfOk result (λ tree. has_short_lists (shape tree) ≡ true) }
{
    if begins_json(bytes) {
        json_tree(alloc, bytes)
    } else {
        yaml_tree(alloc, bytes)
    }
}

/// The document that a tree is, or `DocRefused` where it is none. It also answers `OutOfMemory`.
pub fn document_of(alloc: Global, tree: &Tree) -> Result<Doc, Cause>
    ensures read { Answers itself (with_fault Schema (document_of_tree (shape tree.now))) result }
    ensures right { IfOk result (λ doc. is_document doc && has_short_doc doc ≡ true) }
{
    match doc_of(alloc, tree) {
        Ok(doc) => Ok(doc),
        Err(fault) => Err(schema_cause(fault)),
    }
}

/// The document that the bytes are, in JSON or YAML, or `DocRefused` where they are none. It also answers `OutOfMemory`.
pub fn document_in(alloc: Global, bytes: &[u8]) -> Result<Doc, Cause>
    ensures read { Answers itself (document bytes.now) result }
    ensures right { IfOk result (λ doc. is_document doc && has_short_doc doc ≡ true) }
{
    let tree = tree_of(alloc, bytes)?;
    document_of(alloc, &tree)
}

/// The links of the hardware list that the bytes are.
pub fn hardware_in(alloc: Global, bytes: &[u8]) -> Result<Items<Link>, Cause>
    ensures { Answers itself (hardware_list bytes.now) result }
{
    let tree = tree_of(alloc, bytes)?;
    match hardware_of(alloc, &tree) {
        Ok(links) => Ok(links),
        Err(fault) => Err(schema_cause(fault)),
    }
}
