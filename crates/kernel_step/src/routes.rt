//! Routes that come and go.
ghost use Rattle.std.specs.Prelude.{◌≡◌, true, false, OnOk, OnErr};
ghost use Rattle.std.specs.List.{list_any};
ghost use Rattle.net_model.specs.Words.{rises};
ghost use Rattle.net_model.specs.Order.{route_cmp};
ghost use Rattle.net_model.specs.Valid.{same_key};
ghost use Rattle.kernel_model.specs.Routes.{after_add_route, after_del_route};

use net_core::Parts;
use net_model::{OutOfMemory, Route};

fn copy_route(route: &Route) -> Route
    ensures { result ≡ route.now }
{
    let Route {
        dest,
        table,
        metric,
        gateway,
        dev,
    } = *route;
    Route {
        dest,
        table,
        metric,
        gateway,
        dev,
    }
}

// Adds a route whose key isn't there.
pub(crate) fn add_route(parts: &mut Parts, route: &Route) -> Result<(), OutOfMemory>
    requires in_order { rises route_cmp parts.old.routes ≡ true }
    requires new { list_any (same_key route.now) parts.old.routes ≡ false }
    ensures ok { OnOk result (parts.new ≡ after_add_route route.now parts.old) }
    ensures err { OnErr result (parts.new ≡ parts.old) }
{
    parts.put_route(copy_route(route))
}

pub(crate) fn del_route(parts: &mut Parts, route: &Route)
    requires { rises route_cmp parts.old.routes ≡ true }
    ensures { parts.new ≡ after_del_route route.now parts.old }
{
    parts.remove_route(route);
}
