//! Places in strictly sorted lists, by binary search.
ghost use Rattle.std.specs.Prelude.{◌≡◌, ◌≤◌, true, false, length, insert};
ghost use Rattle.std.specs.List.{list_any};
ghost use Rattle.net_model.specs.Words.{rises, put};
ghost use Rattle.net_model.specs.Order.{route_cmp, rule_cmp};
ghost use Rattle.net_model.specs.Valid.{same_key, same_rule};
ghost use Rattle.net_model.specs.Edits.{same_route};
ghost use Rattle.kernel_step.specs.Searches.{Searches};

use net_edits::same_route;
use net_model::{Route, Rule};

fn search_routes(routes: &[Route], route: &Route) -> Result<usize, usize>
    requires { rises route_cmp routes.now ≡ true }
    ensures { Searches route_cmp route.now routes.now result }
{
    let key = (route.dest, route.table, route.metric);
    match routes.binary_search_by_key(&key, |route| (route.dest, route.table, route.metric)) {
        Ok(i) => Ok(i),
        Err(i) => Err(i),
    }
}

fn search_rules(rules: &[Rule], rule: &Rule) -> Result<usize, usize>
    requires { rises rule_cmp rules.now ≡ true }
    ensures { Searches rule_cmp rule.now rules.now result }
{
    match rules.binary_search(rule) {
        Ok(i) => Ok(i),
        Err(i) => Err(i),
    }
}

// Whether a route of this destination, table and metric is there.
pub(crate) fn has_key(routes: &[Route], route: &Route) -> bool
    requires { rises route_cmp routes.now ≡ true }
    ensures { result ≡ list_any (same_key route.now) routes.now }
{
    match search_routes(routes, route) {
        Ok(_) => true,
        Err(_) => false,
    }
}

// Whether a route of all these fields is there: none but that of its key can be.
pub(crate) fn has_route(routes: &[Route], route: &Route) -> bool
    requires { rises route_cmp routes.now ≡ true }
    ensures { result ≡ list_any (same_route route.now) routes.now }
{
    match search_routes(routes, route) {
        Ok(i) => same_route(route, &routes[i]),
        Err(_) => false,
    }
}

pub(crate) fn has_rule(rules: &[Rule], rule: &Rule) -> bool
    requires { rises rule_cmp rules.now ≡ true }
    ensures { result ≡ list_any (same_rule rule.now) rules.now }
{
    match search_rules(rules, rule) {
        Ok(_) => true,
        Err(_) => false,
    }
}

// Where a rule belongs that isn't there.
pub(crate) fn rule_gap(rules: &[Rule], rule: &Rule) -> usize
    requires { rises rule_cmp rules.now ≡ true }
    ensures inside { result ≤ length rules.now }
    ensures puts { list_any (same_rule rule.now) rules.now ≡ false → insert rules.now result rule.now ≡ put rule_cmp rule.now rules.now }
{
    match search_rules(rules, rule) {
        Ok(i) => i,
        Err(i) => i,
    }
}
