//! Which routes stay with the addresses of a link.
ghost use Rattle.std.specs.Prelude.{◌≡◌, true};
ghost use Rattle.net_model.specs.Words.{rises};
ghost use Rattle.net_model.specs.Order.{link_cmp, route_cmp};
ghost use Rattle.net_model.specs.Links.{named_passes};
ghost use Rattle.net_model.specs.Valid.{route_on_link};
ghost use Rattle.net_model.specs.Edits.{stays_on_link};
ghost use Rattle.net_model.specs.RoutePosition.{with_key, key_stays};

use crate::position::{link_position, route_position};
use crate::valid_routes::route_on_link;
use net_model::{Link, Name, Position, Route, RouteKey};

fn is_on_link_at(links: &[Link], name: &Name, route: &Route) -> bool
    requires { rises link_cmp links.now ≡ true }
    ensures { result ≡ named_passes (λ l. route_on_link l route.now) links.now name.now }
{
    match link_position(links, name) {
        Position::At(i) => route_on_link(&links[i], route),
        Position::Gap(_) => false,
    }
}

/// Whether a route is of another device than the named one, or has no gateway or one that is on-link there. The links are sorted
/// by name.
pub fn stays_on_link(links: &[Link], name: &Name, route: &Route) -> bool
    requires { rises link_cmp links.now ≡ true }
    ensures { result ≡ stays_on_link name.now links.now route.now }
{
    route.dev != *name || is_on_link_at(links, name, route)
}

fn with_key(key: &RouteKey, dev: &Name) -> Route
    ensures { result ≡ with_key key.now dev.now }
{
    Route {
        dest: key.dest,
        table: key.table,
        metric: key.metric,
        gateway: None,
        dev: *dev,
    }
}

/// Whether the route of a key stays with its device, by binary search in routes that are sorted. Where there is none it stays.
pub fn key_stays(links: &[Link], routes: &[Route], name: &Name, key: &RouteKey) -> bool
    requires links { rises link_cmp links.now ≡ true }
    requires routes { rises route_cmp routes.now ≡ true }
    ensures { result ≡ key_stays name.now links.now routes.now key.now }
{
    match route_position(routes, &with_key(key, name)) {
        Position::At(i) => stays_on_link(links, name, &routes[i]),
        Position::Gap(_) => true,
    }
}
