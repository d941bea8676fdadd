//! Finding a route by its key.
ghost use Rattle.std.specs.Prelude.{◌≡◌, true, option_copied};
ghost use Rattle.net_model.specs.Words.{rises};
ghost use Rattle.net_model.specs.Order.{route_cmp};
ghost use Rattle.net_model.specs.Valid.{keys_differ};
ghost use Rattle.net_search.specs.Search.{find_route, key_cmp};

use net_core::Net;
use net_model::{Route, Subnet, TableId};
use std::cmp::Ordering;

// How a route is ordered to a key.
fn order_to(route: &Route, dest: Subnet, table: TableId, metric: u32) -> Ordering
    ensures { result ≡ key_cmp dest table metric route.now }
{
    route
        .dest
        .cmp(&dest)
        .then(route.table.cmp(&table))
        .then(route.metric.cmp(&metric))
}

fn find_in<'a>(routes: &'a [Route], dest: Subnet, table: TableId, metric: u32) -> Option<&'a Route>
    requires in_order { rises route_cmp routes.now ≡ true }
    requires differ { keys_differ routes.now ≡ true }
    ensures { option_copied result ≡ find_route dest table metric routes.now }
{
    match routes.binary_search_by(|route| order_to(route, dest, table, metric)) {
        Ok(i) => Some(&routes[i]),
        Err(_) => None,
    }
}

/// The route of this destination, table and metric, by binary search, or `None` exactly where no route has that key.
pub fn find_route<'a>(net: &'a Net, dest: Subnet, table: TableId, metric: u32) -> Option<&'a Route>
    ensures { option_copied result ≡ find_route dest table metric net.now.routes }
{
    net.laws();
    find_in(net.routes(), dest, table, metric)
}
