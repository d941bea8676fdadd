//! What a document says of routes, rules and DNS.
#![tactic(auto)]

// `dns-resolver`.
mod dns;
// What isn't whole yet: a rule whose target isn't chosen.
mod draft;
// The order of the keys in a map.
mod order;
// `routes`.
mod routes;
// `route-rules`.
mod rules;
// What stands under the top keys of routes, rules and DNS.
mod under;
// What the values of routes, rules and DNS are looked at as.
mod words;

pub use order::order_laws;
pub use under::{read_dns, read_routes, read_rules};
