//! What stands under the top keys of routes, rules and DNS.
ghost use Rattle.std.specs.Prelude.{◌≡◌, ◌&&◌, true, IfOk};
ghost use Rattle.std.specs.List.{list_all};
ghost use Rattle.doc_tree.specs.Shape.{shape};
ghost use Rattle.base_model.specs.Lists.{is_short};
ghost use Rattle.document_model.specs.Entries.{is_route_entry, is_rule_entry, passes, has_short_dns};
ghost use Rattle.tree_schema.specs.Reached.{Answers};
ghost use Rattle.route_schema.specs.Under.{routes_under, rules_under, dns_under};

use crate::dns::DnsSection;
use crate::routes::RouteSection;
use crate::rules::RuleSection;
use doc_tree::Tree;
use document_model::{DnsEntry, RouteEntry, RuleEntry};
use net_model::Items;
use tree_schema::{Reader, Stop, read_under};

/// Reads the routes of a document, none where the key isn't there.
pub fn read_routes(reader: &mut Reader, tree: &Tree) -> Result<Items<RouteEntry>, Stop>
    ensures read { Answers (routes_under (shape tree.now)) reader.old reader.new result }
    ensures right { IfOk result (λ routes. is_short routes && list_all is_route_entry routes ≡ true) }
{
    let none = Items::of(Vec::new(reader.alloc()));
    read_under(&RouteSection, "routes", none, reader, tree)
}

/// Reads its rules, none where the key isn't there.
pub fn read_rules(reader: &mut Reader, tree: &Tree) -> Result<Items<RuleEntry>, Stop>
    ensures read { Answers (rules_under (shape tree.now)) reader.old reader.new result }
    ensures right { IfOk result (λ rules. is_short rules && list_all is_rule_entry rules ≡ true) }
{
    let none = Items::of(Vec::new(reader.alloc()));
    read_under(&RuleSection, "route-rules", none, reader, tree)
}

/// Reads its settings of DNS, nothing where the key isn't there.
pub fn read_dns(reader: &mut Reader, tree: &Tree) -> Result<Option<DnsEntry>, Stop>
    ensures read { Answers (dns_under (shape tree.now)) reader.old reader.new result }
    ensures right { IfOk result (λ dns. passes has_short_dns dns ≡ true) }
{
    read_under(&DnsSection, "dns-resolver", None, reader, tree)
}
