//! Whether attaching a port makes a cycle.
ghost use Rattle.std.specs.Prelude.{◌≡◌, ◌≢◌, ◌<◌, ◌&&◌, true, false, not, IfSome, IfOk, length, slice_index_or};
ghost use Rattle.net_model.specs.Name.{same_bytes};
ghost use Rattle.net_model.specs.Words.{is_among};
ghost use Rattle.net_model.specs.Links.{ports_of};
ghost use Rattle.net_model.specs.Dependence.{reaches, no_cycle};
ghost use Rattle.kernel_model.specs.Words.{has_link};
ghost use Rattle.net_model.specs.Edits.{edit_link, attached};
ghost use Rattle.link_step.specs.Leaf.{is_leaf};

use crate::dependents::dependents;
use net_core::Net;
use net_edits::is_among;
use net_lists::{find_link, is_bond, place_of};
use net_model::{Kind, Name, OutOfMemory};

// Whether the port depends on the link at this place.
fn reaches(net: &Net, port: usize, at: usize) -> Result<bool, OutOfMemory>
    requires port { port < length net.now.links }
    requires inside { at < length net.now.links }
    requires other { port ≢ at }
    ensures { IfOk result (λ is. (d : _) → is ≡ reaches net.now.links (length net.now.links) (slice_index_or net.now.links port d).name (slice_index_or net.now.links at d)) }
{
    net.laws();
    let alloc = *net.links().allocator();
    let marks = dependents(alloc, net, at)?;
    Ok(marks[port])
}

// Whether a link of this kind depends on none: it has neither a base nor ports.
fn is_leaf(kind: &Kind) -> bool
    ensures { result ≡ is_leaf kind.now }
{
    matches!(
        kind,
        Kind::Ethernet { .. } | Kind::Dummy | Kind::Veth { .. }
    )
}

// Whether the controller is a port of the bond.
fn is_port_of_bond(net: &Net, bond: &Name, controller: &Name) -> bool
    ensures { result ≡ is_among (ports_of net.now.links bond.now) controller.now }
{
    is_among(net.ports_of(bond), controller)
}

// Whether attaching the port makes a cycle, where the chain of its bases tells. A chain of VLANs that meets the controller
// makes one, since VLANs have no ports. One that ends before in an Ethernet link, a dummy or a veth makes none, and one
// that ends in a bond makes one where the controller is a port of that, since these have no ports of their own.
fn by_bases(net: &Net, port: &Name, controller: &Name) -> Option<bool>
    requires there { (has_link port.now net.now.links && has_link controller.now net.now.links) ≡ true }
    requires other { same_bytes port.now controller.now ≡ false }
    ensures { IfSome result (λ makes. makes ≡ not (no_cycle (edit_link port.now (attached controller.now) net.now.links))) }
{
    net.laws();
    let links = net.links();
    let mut name = *port;
    for _ in 0..links.len() {
        let Some(link) = find_link(links, &name) else {
            return None;
        };
        if is_leaf(&link.kind) {
            return Some(false);
        }
        if is_bond(&link.kind) {
            return Some(is_port_of_bond(net, &name, controller));
        }
        let Kind::Vlan { base, .. } = link.kind else {
            return None;
        };
        if base == *controller {
            return Some(true);
        }
        name = base;
    }
    None
}

// Whether dependence has a cycle once the port is attached: where the port is the controller, or depends on it.
pub(crate) fn makes_cycle(net: &Net, port: &Name, controller: &Name) -> Result<bool, OutOfMemory>
    requires { (has_link port.now net.now.links && has_link controller.now net.now.links) ≡ true }
    ensures { IfOk result (λ makes. makes ≡ not (no_cycle (edit_link port.now (attached controller.now) net.now.links))) }
{
    net.laws();
    let links = net.links();
    if port == controller {
        return Ok(true);
    }
    if let Some(makes) = by_bases(net, port, controller) {
        return Ok(makes);
    }
    let at = match place_of(links, controller) {
        Some(at) => at,
        None => return Ok(false),
    };
    let below = match place_of(links, port) {
        Some(below) => below,
        None => return Ok(false),
    };
    let reached = reaches(net, below, at)?;
    Ok(reached)
}
