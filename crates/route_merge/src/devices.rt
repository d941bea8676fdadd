//! Links with an index by name.
ghost use Rattle.std.specs.Prelude.{◌≡◌, true, option_copied, Some, IfOk, IfSome};
ghost use Rattle.std.specs.List.{list_any};
ghost use Rattle.net_model.specs.Links.{find_link, named_passes};
ghost use Rattle.net_model.specs.Valid.{names_differ, route_on_link, route_stands};
ghost use Rattle.merge_model.specs.Limits.{is_crowded};

use crate::connected::ConnectedSubnets;
use net_lists::route_on_link;
use net_model::{Link, MAX_LINK_ADDRESSES, Name, Route};
use std::alloc::{AllocError, Global};
use std::collections::BTreeMap;
use std::marker::Model;

// Links with an index by name.
#[derive(Drop)]
pub(crate) struct Devices<'a> {
    links: &'a [Link],
    places: BTreeMap<Name, usize>,
    // It is there where a link has more addresses than it may have.
    connected: Option<ConnectedSubnets<'a>>,
}

impl<'a> Model for Devices<'a> {
    ghost use Rattle.std.specs.Prelude.{◌≡◌, List, IfSome};
    ghost use Rattle.net_model.specs.declared.Link.{Link};
    ghost use Rattle.route_merge.specs.Devices.{IsByName};

    ghost Value = { List Link };

    ghost view = { λ d. d.links.now };

    ghost invariant = { λ d. IsByName d.links.now d.places × IfSome d.connected (λ c. c ≡ d.links.now) };
}

fn is_crowded(link: &Link) -> bool
    ensures { result ≡ is_crowded link.now }
{
    link.addrs.items().len() > MAX_LINK_ADDRESSES
}

fn any_crowded(links: &[Link]) -> bool
    ensures { result ≡ list_any is_crowded links.now }
{
    links.iter().any(|link| is_crowded(link))
}

// The connected subnets, where a link has more addresses than it may have. Elsewhere a pass over the addresses of one link
// costs less than an index of all.
fn connected<'a>(
    alloc: Global,
    links: &'a [Link],
) -> Result<Option<ConnectedSubnets<'a>>, AllocError>
    ensures { IfOk result (λ found. IfSome found (λ connected. connected ≡ links.now)) }
{
    if !any_crowded(links) {
        return Ok(None);
    }
    let connected = ConnectedSubnets::of(alloc, links)?;
    Ok(Some(connected))
}

impl<'a> Devices<'a> {
    pub(crate) fn of(alloc: Global, links: &'a [Link]) -> Result<Devices<'a>, AllocError>
        requires { names_differ links.now ≡ true }
        ensures { IfOk result (λ devices. devices ≡ links.now) }
    {
        let mut places = BTreeMap::new(alloc);
        let mut at = links.len();
        while at > 0 {
            at -= 1;
            places.insert(links[at].name, at)?;
        }
        let connected = connected(alloc, links)?;
        Ok(Devices {
            links,
            places,
            connected,
        })
    }

    fn find(&self, name: &Name) -> Option<&'a Link>
        ensures link { option_copied result ≡ find_link name.now self.now }
        ensures differ { names_differ self.now ≡ true }
    {
        match self.places.get(name) {
            Some(at) => self.links.get(*at),
            None => None,
        }
    }

    // Whether a link of this name is there and up.
    #[tactic(auto, using(crate::proofs::ByName::found_passes))]
    pub(crate) fn is_up(&self, name: &Name) -> bool
        ensures { result ≡ named_passes (λ l. l.up) self.now name.now }
    {
        self.find(name).is_some_and(|link| link.up)
    }

    // Whether the route's device is there and up, and its gateway on-link there.
    #[tactic(auto, using(crate::proofs::ByName::found_passes))]
    pub(crate) fn stands(&self, route: &Route) -> bool
        ensures { result ≡ route_stands self.now route.now }
    {
        match self.find(&route.dev) {
            Some(link) => link.up && self.on_link(link, route),
            None => false,
        }
    }

    // Whether the route has no gateway, or one that is on-link at its device, which is this link.
    #[tactic(auto, using(crate::proofs::ByName::found_passes))]
    fn on_link(&self, link: &Link, route: &Route) -> bool
        requires link { find_link route.now.dev self.now ≡ Some link.now }
        requires names { names_differ self.now ≡ true }
        ensures { result ≡ route_on_link link.now route.now }
    {
        match (&self.connected, route.gateway) {
            (Some(connected), Some(gateway)) => {
                gateway.is_v6() == route.dest.is_v6()
                    && (gateway.is_link_local() || connected.hold(&route.dev, gateway))
            }
            _ => route_on_link(link, route),
        }
    }
}
