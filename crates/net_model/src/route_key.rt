//! The key of a route, by which routes are ordered.
ghost use Rattle.std.specs.Prelude.{◌≡◌};
ghost use Rattle.net_model.specs.OfName.{key_of};

use crate::address::Subnet;
use crate::id::TableId;
use crate::route::Route;
use std::cmp::Ordering;

/// Destination, table and metric of a route. Keys are ordered as routes are: by destination, table and metric.
#[derive(Clone, Copy)]
pub struct RouteKey {
    pub dest: Subnet,
    pub table: TableId,
    pub metric: u32,
}

impl RouteKey {
    /// The key of a route.
    pub fn of(route: &Route) -> RouteKey
        ensures { result ≡ key_of route.now }
    {
        RouteKey {
            dest: route.dest,
            table: route.table,
            metric: route.metric,
        }
    }
}

impl PartialEq for RouteKey {
    ghost use Rattle.std.specs.Ordering.{eq_by_cmp};
    ghost use Rattle.net_model.specs.KeyOrder.{key_cmp, keys_equal};

    ghost eq = { eq_by_cmp key_cmp };

    ghost laws = { keys_equal };

    fn eq(&self, other: &RouteKey) -> bool {
        self.cmp(other) == Ordering::Equal
    }
}

impl Eq for RouteKey {
    ghost use Rattle.net_model.specs.KeyOrder.{keys_equivalent};

    ghost laws = { keys_equivalent };
}

impl PartialOrd for RouteKey {
    ghost use Rattle.std.specs.Ordering.{as_partial_cmp};
    ghost use Rattle.net_model.specs.KeyOrder.{key_cmp, keys_partly};

    ghost partial_cmp = { as_partial_cmp key_cmp };

    ghost laws = { keys_partly };

    fn partial_cmp(&self, other: &RouteKey) -> Option<Ordering> {
        Some(self.cmp(other))
    }
}

// Written out, since a derived order groups its fields otherwise than that of routes.
impl Ord for RouteKey {
    ghost use Rattle.net_model.specs.KeyOrder.{key_cmp, key_cmp_total, keys_agree, keys_tied};

    ghost cmp = { key_cmp };

    ghost total = { key_cmp_total };

    ghost matches_partial_cmp = { keys_agree };

    ghost matches_eq = { keys_tied };

    fn cmp(&self, other: &RouteKey) -> Ordering {
        self.dest
            .cmp(&other.dest)
            .then(self.table.cmp(&other.table))
            .then(self.metric.cmp(&other.metric))
    }
}
