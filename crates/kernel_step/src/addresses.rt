//! Addresses that come and go.
ghost use Rattle.std.specs.Prelude.{◌≡◌, true, false, filter, OnOk, OnErr};
ghost use Rattle.std.specs.List.{list_all, list_any};
ghost use Rattle.net_model.specs.Words.{rises};
ghost use Rattle.net_model.specs.Order.{block_cmp, link_cmp, route_cmp};
ghost use Rattle.net_model.specs.Links.{named_passes};
ghost use Rattle.net_model.specs.Edits.{stays_on_link};
ghost use Rattle.net_model.specs.NetData.{IsNet};
ghost use Rattle.kernel_model.specs.Addresses.{has_block, after_add_address, after_del_address};
ghost use Rattle.kernel_step.specs.Leaning.{leans_on, is_cut_off, Leans};

use net_core::Parts;
use net_lists::{find_link, route_on_link};
use net_model::{Link, Name, OutOfMemory, Prefix, Route};

// Gives the named link an address that it doesn't have.
pub(crate) fn add_address(parts: &mut Parts, name: &Name, addr: &Prefix) -> Result<(), OutOfMemory>
    requires names { rises link_cmp parts.old.links ≡ true }
    requires in_order { list_all (λ l. rises block_cmp l.addrs) parts.old.links ≡ true }
    requires new { named_passes (λ l. has_block addr.now l.addrs) parts.old.links name.now ≡ false }
    ensures ok { OnOk result (parts.new ≡ after_add_address name.now addr.now parts.old) }
    ensures err { OnErr result (parts.new ≡ parts.old) }
{
    parts.put_address(name, addr)
}

// Whether the route has a gateway that lies in the subnet.
fn leans_on(subnet: &Prefix, route: &Route) -> bool
    ensures { result ≡ leans_on subnet.now route.now }
{
    match route.gateway {
        Some(gateway) => subnet.holds(gateway),
        None => false,
    }
}

// Whether the route is over this link, and its gateway lies in the subnet and isn't on-link there. What the gateway lies in is
// asked first: it takes least time, and few routes lean on one subnet.
fn is_cut_off(link: &Link, subnet: &Prefix, route: &Route) -> bool
    ensures { result ≡ is_cut_off subnet.now link.now route.now }
{
    leans_on(subnet, route) && route.dev == link.name && !route_on_link(link, route)
}

fn has_cut_off(routes: &[Route], link: &Link, subnet: &Prefix) -> bool
    ensures { result ≡ list_any (is_cut_off subnet.now link.now) routes.now }
{
    routes.iter().any(|route| is_cut_off(link, subnet, route))
}

// Whether a device may lose routes with a subnet that went, on which each of its routes leans whose gateway isn't on-link.
fn may_lose_routes(parts: &Parts, name: &Name, gone: &Prefix) -> bool
    requires links { rises link_cmp parts.now.links ≡ true }
    requires leaning { Leans gone.now name.now parts.now }
    ensures { result ≡ false → filter (stays_on_link name.now parts.now.links) parts.now.routes ≡ parts.now.routes }
{
    if parts.routes_of(name).is_empty() {
        return false;
    }
    match find_link(&parts.links, name) {
        Some(link) => has_cut_off(&parts.routes, link, gone),
        None => true,
    }
}

// Takes out the routes of a device whose gateway isn't on-link there, which leans on a subnet that went. Where none does, the
// routes and their index are left alone.
fn keep_on_link(parts: &mut Parts, name: &Name, gone: &Prefix)
    requires links { rises link_cmp parts.old.links ≡ true }
    requires routes { rises route_cmp parts.old.routes ≡ true }
    requires leaning { Leans gone.now name.now parts.old }
    ensures { parts.new ≡ record parts.old { routes = filter (stays_on_link name.now parts.old.links) parts.old.routes } }
{
    if may_lose_routes(parts, name, gone) {
        parts.keep_on_link(name);
    }
}

// Takes an address from the named link, and its routes whose gateway isn't on-link any more.
pub(crate) fn del_address(parts: &mut Parts, name: &Name, addr: &Prefix)
    requires { IsNet parts.old }
    ensures { parts.new ≡ after_del_address name.now addr.now parts.old }
{
    parts.remove_address(name, addr);
    keep_on_link(parts, name, addr);
}
