//! Networks and documents.
ghost use Rattle.std.specs.Prelude.{◌≡◌, true, MatchOption};
ghost use Rattle.document_model.specs.Entries.{is_document};

use doc_tree::Tree;
use document_model::Doc;
use document_schema::doc_of;
use link_schema::hardware_of;
use merge_core::merge;
use net_core::Net;
use net_model::{Dns, Items};
use std::alloc::Global;
use yaml_read::tree_of_yaml;

/// Two devices, down.
pub const BOTH: &str =
    "hardware:\n- name: eth1\n  mac-address: 52:54:00:00:00:01\n- name: eth2\n  mac-address: 52:54:00:00:00:02\n";

/// The second device alone.
pub const SECOND: &str = "hardware:\n- name: eth2\n  mac-address: 52:54:00:00:00:02\n";

/// The MTU of the first device.
const MTU: &str = "interfaces:\n- name: eth1\n  mtu: 9000\n";

/// A bridge over the first device, and the second device with another MTU, both up: several calls.
const BRIDGE: &str =
    "interfaces:\n- name: br0\n  type: linux-bridge\n  state: up\n  bridge:\n    port:\n    - name: eth1\n- name: eth2\n  state: up\n  mtu: 9000\n";

fn tree(alloc: Global, text: &str) -> Option<Tree> {
    tree_of_yaml(alloc, text.as_bytes()).ok()
}

/// The network of these devices.
pub fn first(alloc: Global, text: &str) -> Option<Net> {
    let tree = tree(alloc, text)?;
    let links = hardware_of(alloc, &tree).ok()?;
    let dns = Dns {
        servers: Items::of(Vec::new(alloc)),
        search: Items::of(Vec::new(alloc)),
    };
    let empty = Vec::new(alloc);
    Net::new(alloc, links.into_vec(), empty, Vec::new(alloc), dns).ok()
}

fn read(alloc: Global, tree: &Tree) -> Option<Doc>
    ensures { MatchOption result (Unit {0}) (λ doc. is_document doc ≡ true) }
{
    match doc_of(alloc, tree) {
        Ok(doc) => Some(doc),
        Err(_) => None,
    }
}

/// The document `mtu`, or that of the bridge by any other name.
pub fn document(alloc: Global, name: &str) -> Option<Doc>
    ensures { MatchOption result (Unit {0}) (λ doc. is_document doc ≡ true) }
{
    let text = if name == "mtu" { MTU } else { BRIDGE };
    match tree(alloc, text) {
        Some(tree) => read(alloc, &tree),
        None => None,
    }
}

/// The network that a document makes of another, or none where it is refused.
pub fn merged(alloc: Global, net: &Net, doc: &Doc) -> Option<Net>
    requires { is_document doc.now ≡ true }
{
    merge(alloc, net, doc).ok()
}
