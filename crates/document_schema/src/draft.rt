//! What isn't whole yet: a document without its notes.

use document_model::{DnsEntry, LinkEntry, RouteEntry, RuleEntry};
use net_model::Items;

/// A document but for its notes.
#[derive(Drop)]
pub(crate) struct Parts {
    pub links: Items<LinkEntry>,
    pub routes: Items<RouteEntry>,
    pub rules: Items<RuleEntry>,
    pub dns: Option<DnsEntry>,
}
