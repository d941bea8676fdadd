//! Generated workloads, as they are read again where they are printed.
ghost use Rattle.std.specs.Prelude.{◌≡◌, ◌≤◌, ◌&&◌, true, IfOk};
ghost use Rattle.command_words.specs.declared.command.TheConstants.{MIN_DEVICES, MAX_DEVICES};
ghost use Rattle.doc_tree.specs.Shape.{shape};
ghost use Rattle.document_model.specs.Entries.{is_document, has_short_doc};
ghost use Rattle.top_model.specs.Orders.{document_of_tree, hardware_of_tree, reprinted, reread, generated};
ghost use Rattle.order_reading.specs.Reading.{Answers, itself};
ghost use Rattle.order_reading.specs.Workload.{IsPrinted, order_for, has_right_workload};

use crate::document::{schema_cause, yaml_tree};
use base_model::{Items, OutOfMemory};
use doc_tree::Tree;
use document_model::Doc;
use document_schema::doc_of;
use link_schema::hardware_of;
use net_model::Link;
use scenario_model::Inputs;
use scenario_trees::trees;
use std::alloc::Global;
use top_model::Cause;
use yaml_text::yaml_of_tree;

/// The devices and the documents of a workload.
#[derive(Drop)]
pub struct Workload {
    pub devices: Items<Link>,
    pub first: Doc,
    pub second: Doc,
}

// A tree that is printed in YAML, and read again.
fn reread(alloc: Global, tree: &Tree) -> Result<Tree, Cause>
    requires { IsPrinted (shape tree.now) }
    ensures { Answers shape (reprinted (shape tree.now)) result }
{
    let text = yaml_of_tree(alloc, tree)?;
    yaml_tree(alloc, text.as_slice())
}

// The document of a tree that is printed and read again.
fn reread_document(alloc: Global, tree: &Tree) -> Result<Doc, Cause>
    requires { IsPrinted (shape tree.now) }
    ensures read { Answers itself (reread document_of_tree (shape tree.now)) result }
    ensures right { IfOk result (λ doc. is_document doc && has_short_doc doc ≡ true) }
{
    let again = reread(alloc, tree)?;
    match doc_of(alloc, &again) {
        Ok(doc) => Ok(doc),
        Err(fault) => Err(schema_cause(fault)),
    }
}

// The links of a hardware list that is printed and read again.
fn reread_hardware(alloc: Global, tree: &Tree) -> Result<Items<Link>, Cause>
    requires { IsPrinted (shape tree.now) }
    ensures { Answers itself (reread hardware_of_tree (shape tree.now)) result }
{
    let again = reread(alloc, tree)?;
    match hardware_of(alloc, &again) {
        Ok(links) => Ok(links),
        Err(fault) => Err(schema_cause(fault)),
    }
}

/// The workload of so many devices and a seed.
pub fn generated(alloc: Global, count: u32, seed: u32) -> Result<Workload, Cause>
    requires least { MIN_DEVICES ≤ count }
    requires most { count ≤ MAX_DEVICES }
    ensures read { Answers order_for (generated count seed) result }
    ensures right { IfOk result (λ workload. has_right_workload workload ≡ true) }
{
    let trees = trees(alloc, count, seed)?;
    let devices = reread_hardware(alloc, &trees.hardware)?;
    let first = reread_document(alloc, &trees.first)?;
    let second = reread_document(alloc, &trees.second)?;
    Ok(Workload {
        devices,
        first,
        second,
    })
}
