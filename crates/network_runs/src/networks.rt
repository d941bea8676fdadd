//! Networks from documents, and what a kernel call makes of one.
ghost use Rattle.std.specs.Prelude.{◌≡◌, true, IfSome};
ghost use Rattle.document_model.specs.Entries.{is_document};

use doc_tree::Tree;
use document_model::Doc;
use document_schema::doc_of;
use kernel_step::{StepFault, step};
use link_schema::hardware_of;
use merge_core::merge;
use net_core::Net;
use net_model::{Call, Dns, Items, Link, Subnet};
use std::alloc::Global;
use yaml_read::tree_of_yaml;

fn tree(alloc: Global, text: &str) -> Option<Tree> {
    tree_of_yaml(alloc, text.as_bytes()).ok()
}

fn document(alloc: Global, text: &str) -> Option<Doc>
    ensures { IfSome result (λ doc. is_document doc ≡ true) }
{
    let tree = tree(alloc, text)?;
    match doc_of(alloc, &tree) {
        Ok(doc) => Some(doc),
        Err(_) => None,
    }
}

/// The subnet, if it is of a family.
pub fn of_family(subnet: Subnet, v6: bool) -> Option<Subnet>
    ensures { IfSome result (λ subnet. subnet.addr.v6 ≡ v6) }
{
    if subnet.is_v6() == v6 {
        Some(subnet)
    } else {
        None
    }
}

/// A network of links alone.
pub fn of_links(alloc: Global, links: Vec<Link>) -> Option<Net> {
    let dns = Dns {
        servers: Items::of(Vec::new(alloc)),
        search: Items::of(Vec::new(alloc)),
    };
    Net::new(alloc, links, Vec::new(alloc), Vec::new(alloc), dns).ok()
}

/// The network of the devices of a hardware list.
pub fn first(alloc: Global, text: &str) -> Option<Net> {
    let tree = tree(alloc, text)?;
    let links = hardware_of(alloc, &tree).ok()?;
    of_links(alloc, links.into_vec())
}

/// The network that a document makes of another.
pub fn merged(alloc: Global, net: &Net, text: &str) -> Option<Net> {
    let doc = document(alloc, text)?;
    merge(alloc, net, &doc).ok()
}

/// Makes a call, and gives the number with which it is refused, if it is.
pub fn try_call(net: &mut Net, call: &Call) -> Option<Option<u8>> {
    match step(net, call) {
        Ok(()) => Some(None),
        Err(StepFault::Refused(number)) => Some(Some(number)),
        Err(StepFault::OutOfMemory) => None,
    }
}
