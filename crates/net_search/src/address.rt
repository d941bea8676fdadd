//! Finding an address on a link.
ghost use Rattle.std.specs.Prelude.{◌≡◌, true};
ghost use Rattle.net_model.specs.Words.{rises};
ghost use Rattle.net_model.specs.Order.{address_cmp, block_cmp};
ghost use Rattle.net_model.specs.Valid.{addresses_differ};
ghost use Rattle.net_search.specs.Search.{find_in, find_address};

use net_core::Net;
use net_model::{Addr, Name, Prefix};
use std::cmp::Ordering;

// How a prefix's address is ordered to another.
fn order_to(prefix: &Prefix, addr: Addr) -> Ordering
    ensures { result ≡ address_cmp prefix.now.addr addr }
{
    prefix.addr().cmp(&addr)
}

fn find_in(prefixes: &[Prefix], addr: Addr) -> Option<Prefix>
    requires in_order { rises block_cmp prefixes.now ≡ true }
    requires differ { addresses_differ prefixes.now ≡ true }
    ensures { result ≡ find_in addr prefixes.now }
{
    match prefixes.binary_search_by(|prefix| order_to(prefix, addr)) {
        Ok(i) => Some(prefixes[i]),
        Err(_) => None,
    }
}

/// The prefix, of whatever length, with which the address stands on the link of this name, by binary search, or `None` exactly
/// where there is no such link or the address isn't on it.
pub fn find_address(net: &Net, link: &Name, addr: Addr) -> Option<Prefix>
    ensures { result ≡ find_address link.now addr net.now.links }
{
    net.laws();
    match net.link(link) {
        Some(found) => find_in(found.addrs.items(), addr),
        None => None,
    }
}
