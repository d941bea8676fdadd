//! Edits of routes alone, as `parts` makes them beside those of the indexes.
ghost use Rattle.std.specs.Prelude.{◌≡◌, ◌≤◌, ◌<◌, true, false, not, filter, length, insert, vec_len, vec_capacity};
ghost use Rattle.std.specs.List.{list_any};
ghost use Rattle.net_model.specs.Words.{rises, put, is_among};
ghost use Rattle.net_model.specs.Order.{name_cmp, link_cmp, route_cmp};
ghost use Rattle.net_model.specs.Valid.{same_key};
ghost use Rattle.net_model.specs.Edits.{same_route, stays_on_link};
ghost use Rattle.net_model.specs.RoutePosition.{RoutePosition};

use crate::link_edits::is_among;
use net_lists::{route_position, stays_on_link};
use net_model::{Link, Name, Position, Route};

// Where a route belongs whose key isn't there.
fn route_gap(routes: &[Route], route: &Route) -> usize
    requires in_order { rises route_cmp routes.now ≡ true }
    requires new { list_any (same_key route.now) routes.now ≡ false }
    ensures inside { result ≤ length routes.now }
    ensures puts { insert routes.now result route.now ≡ put route_cmp route.now routes.now }
{
    match route_position(routes, route) {
        Position::At(_) => 0,
        Position::Gap(i) => i,
    }
}

/// Inserts a route whose key isn't there, where there is room for it.
pub fn insert_route(routes: &mut Vec<Route>, route: Route)
    requires in_order { rises route_cmp routes.old.items ≡ true }
    requires new { list_any (same_key route) routes.old.items ≡ false }
    requires room { vec_len routes.old < vec_capacity routes.old }
    ensures { routes.new.items ≡ put route_cmp route routes.old.items }
{
    let at = route_gap(routes, &route);
    match routes.insert(at, route) {
        Ok(()) => {}
        Err(_) => unreachable!(),
    }
}

/// Leaves the routes of other devices.
pub fn remove_routes(routes: &mut Vec<Route>, devs: &[Name])
    requires { rises name_cmp devs.now ≡ true }
    ensures { routes.new.items ≡ filter (λ r. not (is_among devs.now r.dev)) routes.old.items }
{
    routes.retain(|route| !is_among(devs, &route.dev));
}

/// Whether all fields of two routes are equal.
pub fn same_route(a: &Route, b: &Route) -> bool
    ensures { result ≡ same_route a.now b.now }
{
    a == b
}

/// The position of a route that is there with all its fields, by binary search.
pub fn position_of(routes: &[Route], route: &Route) -> Option<usize>
    requires { rises route_cmp routes.now ≡ true }
    ensures { RoutePosition result route.now routes.now }
{
    match route_position(routes, route) {
        Position::At(i) => {
            if same_route(route, &routes[i]) {
                Some(i)
            } else {
                None
            }
        }
        Position::Gap(_) => None,
    }
}

/// Leaves the routes of other devices, and those whose gateway is on-link at the named one.
pub fn keep_on_link(routes: &mut Vec<Route>, links: &[Link], name: &Name)
    requires { rises link_cmp links.now ≡ true }
    ensures { routes.new.items ≡ filter (stays_on_link name.now links.now) routes.old.items }
{
    routes.retain(|route| stays_on_link(links, name, route));
}
