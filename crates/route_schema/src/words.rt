//! What the values of routes, rules and DNS are looked at as.
ghost use Rattle.std.specs.Prelude.{◌≡◌, true, option_map};
ghost use Rattle.doc_tree.specs.Shape.{shape};
ghost use Rattle.net_model.specs.Address.{subnet_of};
ghost use Rattle.net_text.specs.AddrText.{addr_of, prefix_of};
ghost use Rattle.net_text.specs.Words.{word_in};
ghost use Rattle.route_schema.specs.Words.{address, subnet_from, subnet, table, absences, absence};

use doc_tree::Tree;
use net_model::{Addr, Prefix, Subnet, TableId};
use net_text::{read_addr, read_prefix};
use tree_schema::{Form, Reason, formed, number};

fn addr_in(text: &str) -> Option<Addr>
    ensures { result ≡ addr_of text.now }
{
    read_addr(text.as_bytes())
}

fn prefix_in(text: &str) -> Option<Prefix>
    ensures { result ≡ prefix_of text.now }
{
    read_prefix(text.as_bytes())
}

fn without_host_bits(prefix: Option<Prefix>) -> Option<Subnet>
    ensures { result ≡ option_map subnet_of prefix }
{
    Some(Subnet::of(prefix?))
}

/// Addresses of either family.
pub(crate) struct Addresses;

impl Form for Addresses {
    type Value = Addr;

    ghost form = { λ _. addr_of };

    ghost holds = { λ _ _. true };

    fn read(&self, text: &str) -> Option<Addr> {
        addr_in(text)
    }
}

/// An address of either family.
pub(crate) fn address(tree: &Tree) -> Result<Addr, Reason>
    ensures { result ≡ address (shape tree.now) }
{
    formed(&Addresses, tree)
}

/// Prefixes, whose host bits are cleared.
pub(crate) struct Subnets;

impl Form for Subnets {
    type Value = Subnet;

    ghost form = { λ _. subnet_from };

    ghost holds = { λ _ _. true };

    fn read(&self, text: &str) -> Option<Subnet> {
        without_host_bits(prefix_in(text))
    }
}

/// A prefix, whose host bits are cleared.
pub(crate) fn subnet(tree: &Tree) -> Result<Subnet, Reason>
    ensures { result ≡ subnet (shape tree.now) }
{
    formed(&Subnets, tree)
}

/// The number of a table, where 0 stands for the main one.
pub(crate) fn table(tree: &Tree) -> Result<TableId, Reason>
    ensures { result ≡ table (shape tree.now) }
{
    Ok(TableId::of(number(0, u32::MAX, tree)?))
}

struct Absences;

impl Form for Absences {
    type Value = bool;

    ghost form = { λ _. word_in absences };

    ghost holds = { λ _ _. true };

    fn read(&self, text: &str) -> Option<bool> {
        match text {
            "absent" => Some(true),
            _ => None,
        }
    }
}

/// The one state that an entry of routes and rules may state.
pub(crate) fn absence(tree: &Tree) -> Result<bool, Reason>
    ensures { result ≡ absence (shape tree.now) }
{
    formed(&Absences, tree)
}
