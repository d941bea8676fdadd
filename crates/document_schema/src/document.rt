//! A whole document.
ghost use Rattle.std.specs.Prelude.{◌≡◌, ◌&&◌, true, IfOk};
ghost use Rattle.std.specs.List.{list_all};
ghost use Rattle.doc_tree.specs.Shape.{shape};
ghost use Rattle.base_model.specs.Lists.{is_short};
ghost use Rattle.document_model.specs.Entries.{is_document, is_route_entry, is_rule_entry, passes, has_short_dns, has_short_doc, are_read_links};
ghost use Rattle.tree_schema.specs.Reached.{Answers};
ghost use Rattle.tree_schema.specs.Faults.{Tells};
ghost use Rattle.document_schema.specs.Document.{document, doc};

use crate::draft::Parts;
use doc_tree::Tree;
use document_model::Doc;
use link_schema::read_links;
use route_schema::{read_dns, read_routes, read_rules};
use std::alloc::Global;
use tree_schema::{Reader, SchemaFault, Stop, fault_of};

fn read_parts(reader: &mut Reader, tree: &Tree) -> Result<Parts, Stop>
    ensures read { Answers (document (shape tree.now)) reader.old reader.new result }
    ensures right_links { IfOk result (λ p. are_read_links p.links ≡ true) }
    ensures right_routes { IfOk result (λ p. is_short p.routes && list_all is_route_entry p.routes ≡ true) }
    ensures right_rules { IfOk result (λ p. is_short p.rules && list_all is_rule_entry p.rules ≡ true) }
    ensures right_dns { IfOk result (λ p. passes has_short_dns p.dns ≡ true) }
{
    let links = read_links(reader, tree)?;
    let routes = read_routes(reader, tree)?;
    let rules = read_rules(reader, tree)?;
    let dns = read_dns(reader, tree)?;
    Ok(Parts {
        links,
        routes,
        rules,
        dns,
    })
}

/// The document of a tree: each entry with what it states and the places of what was read over, or the first refusal with
/// its place. The top keys and the interfaces come first, then the routes, the rules and DNS.
pub fn doc_of(alloc: Global, tree: &Tree) -> Result<Doc, SchemaFault>
    ensures read { Tells doc (document (shape tree.now)) result }
    ensures right { IfOk result (λ d. is_document d ≡ true) }
    ensures short { IfOk result (λ d. has_short_doc d ≡ true) }
{
    let mut reader = Reader::new(alloc);
    match read_parts(&mut reader, tree) {
        Ok(parts) => {
            let (_, notes) = reader.into_parts();
            Ok(Doc {
                links: parts.links,
                routes: parts.routes,
                rules: parts.rules,
                dns: parts.dns,
                notes,
            })
        }
        Err(stop) => Err(fault_of(stop, reader)),
    }
}
