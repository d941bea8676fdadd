//! The order of the keys in a map.
ghost use Rattle.tree_schema.specs.Order.{IsReadInAnyOrder};
ghost use Rattle.route_schema.specs.Dns.{dns_config_table, dns_table};
ghost use Rattle.route_schema.specs.Routes.{route_table, routes_table};
ghost use Rattle.route_schema.specs.Rules.{rule_table, rules_table};

/// Supplies laws; has no effect at run time: two maps of distinct keys with the same value under each key are read as the
/// same entry or are both refused, whatever the order of their pairs.
pub fn order_laws()
    ensures route { IsReadInAnyOrder route_table }
    ensures routes { IsReadInAnyOrder routes_table }
    ensures rule { IsReadInAnyOrder rule_table }
    ensures rules { IsReadInAnyOrder rules_table }
    ensures dns_config { IsReadInAnyOrder dns_config_table }
    ensures dns { IsReadInAnyOrder dns_table }
{}
