//! Sets of routes and of their keys.
ghost use Rattle.std.specs.Prelude.{◌≡◌, ℕ, List, ◌++◌, ◌∷◌, [], true, not, IfOk, OnOk};
ghost use Rattle.std.specs.List.{list_any};
ghost use Rattle.std.specs.Option.{option_map_or};
ghost use Rattle.std.specs.BTreeMap.{get};
ghost use Rattle.std.specs.BTreeSet.{contains, Updates};
ghost use Rattle.net_model.specs.Valid.{same_key};
ghost use Rattle.net_model.specs.declared.Route.{Route};
ghost use Rattle.merge_model.specs.Routes.{same_route};
ghost use Rattle.route_merge.specs.Keys.{key_of, key_cmp, whole_cmp, HasKeys, HasFirsts};

use crate::matching::same_route;
use net_model::{Route, Subnet, TableId};
use std::alloc::{AllocError, Global};
use std::collections::{BTreeMap, BTreeSet};
use std::marker::Model;

fn key_of(route: &Route) -> (Subnet, TableId, u32)
    ensures { result ≡ key_of route.now }
{
    (route.dest, route.table, route.metric)
}

// The keys of the routes.
pub(crate) fn keys_of(
    alloc: Global,
    routes: &[Route],
) -> Result<BTreeSet<(Subnet, TableId, u32)>, AllocError>
    ensures { IfOk result (λ keys. HasKeys keys routes.now) }
{
    let mut keys = BTreeSet::new(alloc);
    for route in routes {
        keys.insert(key_of(route))?;
    }
    Ok(keys)
}

// Whether one of these routes, of which the set has the keys, has the key of the route.
pub(crate) fn has_key(keys: &BTreeSet<(Subnet, TableId, u32)>, route: &Route) -> bool
    ensures { (routes : List Route) → HasKeys keys.now routes → result ≡ list_any (same_key route.now) routes }
{
    keys.contains(&key_of(route))
}

// A route as an item of a set.
#[derive(Clone, Copy, PartialEq, Eq, PartialOrd, Ord)]
pub(crate) struct Whole {
    route: Route,
}

impl Model for Whole {
    ghost use Rattle.net_model.specs.declared.Route.{Route};

    ghost Value = { Route };

    ghost view = { λ w. w.route };

    ghost inverse = { λ r. record { route = r } };
}

// Puts a route into the set, and says whether it is new there.
pub(crate) fn is_new(seen: &mut BTreeSet<Whole>, route: &Route) -> Result<bool, AllocError>
    ensures new { IfOk result (λ new. new ≡ not (contains whole_cmp seen.old route.now)) }
    ensures updates { OnOk result (Updates whole_cmp seen.old seen.new route.now true) }
{
    let new = seen.insert(Whole { route: *route })?;
    Ok(new)
}

// Whether the route equals the first one of its key. Where there is none, the route becomes that one.
pub(crate) fn is_first_or_equal(
    firsts: &mut BTreeMap<(Subnet, TableId, u32), Route>,
    route: &Route,
) -> Result<bool, AllocError>
    ensures equal { IfOk result (λ equal. equal ≡ option_map_or (λ f. same_route f route.now) (get key_cmp firsts.old (key_of route.now)) true) }
    ensures firsts { IfOk result (λ equal. equal ≡ true → (seen : List (ℕ × Route)) (at : ℕ)
        → HasFirsts firsts.old seen → HasFirsts firsts.new (seen ++ (at, route.now) ∷ [])) }
{
    if let Some(first) = firsts.get(&key_of(route)) {
        return Ok(same_route(first, route));
    }
    firsts.insert(key_of(route), *route)?;
    Ok(true)
}
