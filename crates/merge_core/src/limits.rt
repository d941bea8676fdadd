//! The rule of the merge on limits: each count of the merged network is within its limit. The first limit that is passed
//! is reported.
ghost use Rattle.std.specs.Prelude.{◌≡◌, Some, length, filter, option_copied};
ghost use Rattle.std.specs.Option.{option_or, option_map, option_and_then};
ghost use Rattle.net_model.specs.Lists.{net_of};
ghost use Rattle.net_model.specs.Valid.{address_count};
ghost use Rattle.net_model.specs.declared.limits.TheConstants.{MAX_ADDRESSES};
ghost use Rattle.merge_model.specs.Places.{at_link, least_name, lesser};
ghost use Rattle.merge_model.specs.Limits.{above, is_crowded, at_limit, limit_passed};

use document_model::{Place, Refused};
use net_model::{
    Dns, Link, MAX_ADDRESSES, MAX_LINK_ADDRESSES, MAX_LINKS, MAX_ROUTES, MAX_RULES, MAX_SEARCH,
    MAX_SERVERS, Route, Rule,
};

// The number of the rule on limits.
const LIMITS: u8 = 21;

fn above(most: usize, count: usize) -> Option<Place>
    ensures { result ≡ above most count }
{
    if count <= most {
        None
    } else {
        Some(Place::Whole)
    }
}

fn is_crowded(link: &Link) -> bool
    ensures { result ≡ is_crowded link.now }
{
    link.addrs.items().len() > MAX_LINK_ADDRESSES
}

// Counts down from the limit, so that no sum can overflow.
fn addresses_above(links: &[Link]) -> Option<Place>
    ensures { result ≡ above MAX_ADDRESSES (address_count links.now) }
{
    let mut room = MAX_ADDRESSES;
    let mut left = links;
    while let Some((link, rest)) = left.split_first() {
        let count = link.addrs.items().len();
        if count > room {
            return Some(Place::Whole);
        }
        room -= count;
        left = rest;
    }
    None
}

// The link that was found, where its name is less, else the other.
fn lesser<'a>(link: &'a Link, found: Option<&'a Link>) -> Option<&'a Link>
    ensures { option_copied result ≡ option_or (option_and_then (lesser link.now) (option_copied found.entry)) (Some link.now) }
{
    match found {
        Some(other) => {
            if other.name.cmp(&link.name).is_lt() {
                Some(other)
            } else {
                Some(link)
            }
        }
        None => Some(link),
    }
}

// Of the links with too many addresses, the one with the least name. It calls itself once a link: call it only where the
// number of links is within its limit.
fn least_crowded(links: &[Link]) -> Option<&Link>
    ensures { option_copied result ≡ least_name (filter is_crowded links.now) }
{
    match links.split_first() {
        Some((link, rest)) => {
            let found = least_crowded(rest);
            if is_crowded(link) {
                lesser(link, found)
            } else {
                found
            }
        }
        None => None,
    }
}

fn at_link(found: Option<&Link>) -> Option<Place>
    ensures { result ≡ at_link (option_copied found.entry) }
{
    match found {
        Some(link) => Some(Place::Link(link.name)),
        None => None,
    }
}

// The refusal for this limit, where it is passed, else the later one.
fn or_later(which: u8, place: Option<Place>, later: Option<Refused>) -> Option<Refused>
    ensures { result ≡ option_or (option_map (at_limit which) place) later }
{
    match place {
        Some(place) => Some(Refused {
            rule: LIMITS,
            which,
            place,
        }),
        None => later,
    }
}

// The first limit that these lists pass, and where.
pub(crate) fn limit_passed(
    links: &[Link],
    routes: &[Route],
    rules: &[Rule],
    dns: &Dns,
) -> Option<Refused>
    ensures { result ≡ limit_passed (net_of links.now routes.now rules.now dns.now) }
{
    if links.len() > MAX_LINKS {
        return or_later(1, Some(Place::Whole), None);
    }
    let search = or_later(7, above(MAX_SEARCH, dns.search.items().len()), None);
    let servers = or_later(6, above(MAX_SERVERS, dns.servers.items().len()), search);
    let rules = or_later(5, above(MAX_RULES, rules.len()), servers);
    let routes = or_later(4, above(MAX_ROUTES, routes.len()), rules);
    let addresses = or_later(3, addresses_above(links), routes);
    or_later(2, at_link(least_crowded(links)), addresses)
}
