//! The merge of routes, rules and DNS, over merged links.
#![tactic(auto)]

// Which routes are the same.
mod matching;
// The connected subnets of links, to find whether one of them holds a gateway.
mod connected;
// Links with an index by name.
mod devices;
// Sets of routes and of their keys.
mod keys;
// The rules of the merge that look at stated routes.
mod broken;
// The absent entries of routes, to find whether one of them matches a route.
mod absent_routes;
// The merged routes.
mod routes;
// Merged rules with an index, and the numbers of those without a priority.
mod taken;
// The absent entries of rules, to find whether one of them matches a rule.
mod absent_rules;
// The merged rules.
mod rules;
// The merged settings of DNS.
mod resolver;
// All of these together.
mod rest;

pub use rest::{Rest, merge_rest};
