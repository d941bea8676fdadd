//! What reading a tree answers, in one line.

use crate::entries::{push_entries, push_links};
use base_model::{OutOfMemory, Path, write_path};
use doc_tree::{Tree, tree_of_json};
use document_model::Doc;
use document_schema::doc_of;
use link_schema::{LinkPart, hardware_of, links_of};
use net_model::{Items, Link};
use std::alloc::Global;
use tree_schema::SchemaFault;
use yaml_read::tree_of_yaml;

/// What a tree is read as, and what is said of it.
#[derive(Clone, Copy)]
pub enum Kind {
    /// A document: the places of its notes.
    Document,
    /// A document: its entries, each with what it states.
    Entries,
    /// The interfaces alone: their entries, and the places of their notes.
    Interfaces,
    /// A hardware list.
    Hardware,
}

// The readers, without their contracts.
fn read_document(alloc: Global, tree: &Tree) -> Result<Doc, SchemaFault> {
    doc_of(alloc, tree)
}

fn read_hardware(alloc: Global, tree: &Tree) -> Result<Items<Link>, SchemaFault> {
    hardware_of(alloc, tree)
}

fn read_interfaces(alloc: Global, tree: &Tree) -> Result<LinkPart, SchemaFault> {
    links_of(alloc, tree)
}

fn json_tree(alloc: Global, text: &str) -> Option<Tree> {
    tree_of_json(alloc, text.as_bytes()).ok()
}

fn yaml_tree(alloc: Global, text: &str) -> Option<Tree> {
    tree_of_yaml(alloc, text.as_bytes()).ok()
}

fn tree_of(alloc: Global, text: &str) -> Option<Tree> {
    if text.starts_with('{') || text.starts_with('[') {
        json_tree(alloc, text)
    } else {
        yaml_tree(alloc, text)
    }
}

fn push_refusal(word: &str, path: &Path, out: &mut Vec<u8>) -> Result<(), OutOfMemory> {
    out.extend_from_slice(word.as_bytes())?;
    out.extend_from_slice(b" at ")?;
    write_path(path, out)
}

fn push_fault(fault: &SchemaFault, out: &mut Vec<u8>) -> Result<(), OutOfMemory> {
    match fault {
        SchemaFault::UnknownKey(path) => push_refusal("UnknownKey", path, out),
        SchemaFault::WrongType(path) => push_refusal("WrongType", path, out),
        SchemaFault::OutOfRange(path) => push_refusal("OutOfRange", path, out),
        SchemaFault::Missing(path) => push_refusal("Missing", path, out),
        SchemaFault::Unsupported(path) => push_refusal("Unsupported", path, out),
        SchemaFault::OutOfMemory => Err(OutOfMemory),
    }
}

fn push_notes(notes: &Items<Path>, out: &mut Vec<u8>) -> Result<(), OutOfMemory> {
    out.extend_from_slice(b"read")?;
    if !notes.items().is_empty() {
        out.extend_from_slice(b", but for")?;
    }
    for note in notes.items() {
        out.push(b' ')?;
        write_path(note, out)?;
    }
    Ok(())
}

fn push_document(
    alloc: Global,
    kind: Kind,
    tree: &Tree,
    out: &mut Vec<u8>,
) -> Result<(), OutOfMemory> {
    match read_document(alloc, tree) {
        Ok(doc) => match kind {
            Kind::Entries => push_entries(&doc, out),
            _ => push_notes(&doc.notes, out),
        },
        Err(fault) => push_fault(&fault, out),
    }
}

fn push_hardware(alloc: Global, tree: &Tree, out: &mut Vec<u8>) -> Result<(), OutOfMemory> {
    match read_hardware(alloc, tree) {
        Ok(_) => Ok(out.extend_from_slice(b"read")?),
        Err(fault) => push_fault(&fault, out),
    }
}

fn push_interfaces(alloc: Global, tree: &Tree, out: &mut Vec<u8>) -> Result<(), OutOfMemory> {
    match read_interfaces(alloc, tree) {
        Ok(part) => {
            push_links(part.links.items(), out)?;
            out.extend_from_slice(b"; ")?;
            push_notes(&part.notes, out)
        }
        Err(fault) => push_fault(&fault, out),
    }
}

/// What reading the text answers, in one line.
pub fn answer(alloc: Global, kind: Kind, text: &str) -> Result<Vec<u8>, OutOfMemory> {
    let mut out = Vec::new(alloc);
    match tree_of(alloc, text) {
        Some(tree) => match kind {
            Kind::Hardware => push_hardware(alloc, &tree, &mut out)?,
            Kind::Interfaces => push_interfaces(alloc, &tree, &mut out)?,
            _ => push_document(alloc, kind, &tree, &mut out)?,
        },
        None => out.extend_from_slice(b"no tree")?,
    }
    Ok(out)
}
