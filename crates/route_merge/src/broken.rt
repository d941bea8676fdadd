//! Rules 18 to 20 of the merge, which look at the stated routes.
ghost use Rattle.std.specs.Prelude.{◌≡◌, ◌&&◌, ◌++◌, ◌∷◌, not, [], find, IfOk, OnOk, option_copied};
ghost use Rattle.std.specs.Option.{option_map, option_to_list};
ghost use Rattle.net_model.specs.Links.{named_passes};
ghost use Rattle.net_model.specs.Valid.{same_key, route_stands};
ghost use Rattle.merge_model.specs.Routes.{stated_route, same_route};
ghost use Rattle.merge_model.specs.Places.{at_route, at_rule, first_of, first_second};
ghost use Rattle.merge_model.specs.BrokenRoutes.{stated_at, route_device, route_gateway, route_twin};
ghost use Rattle.merge_model.specs.Merge.{routes_broken};
ghost use Rattle.route_merge.specs.Rest.{rules_over};

use crate::devices::Devices;
use crate::keys::is_first_or_equal;
use crate::routes::stated_route;
use document_model::{Place, Refused, RouteEntry};
use net_model::Route;
use std::alloc::{AllocError, Global};
use std::collections::BTreeMap;
use std::marker::Model;

// The number of the rule that the device of a stated route is there and up.
const ROUTE_DEVICE: u8 = 18;
// The number of the rule that the gateway of a stated route is on-link.
const ROUTE_GATEWAY: u8 = 19;
// The number of the rule that stated routes of one key are equal.
const ROUTE_TWIN: u8 = 20;

// A stated route and the position of its entry.
#[derive(Drop)]
struct Stated {
    at: u32,
    route: Route,
}

impl Model for Stated {
    ghost use Rattle.std.specs.Prelude.{ℕ};
    ghost use Rattle.net_model.specs.declared.Route.{Route};

    ghost Value = { ℕ × Route };

    ghost view = { λ s. (s.at, s.route) };
}

impl Stated {
    fn at(&self) -> u32
        ensures { result ≡ self.now.0 }
    {
        self.at
    }

    fn route(&self) -> &Route
        ensures { result.now ≡ self.now.1 }
    {
        &self.route
    }
}

fn placed(at: u32, entry: &RouteEntry) -> Option<Stated>
    ensures { result ≡ option_map (λ r. (at, r)) (stated_route entry.now) }
{
    match stated_route(entry) {
        Some(route) => Some(Stated { at, route }),
        None => None,
    }
}

fn push_stated(stated: &mut Vec<Stated>, at: u32, entry: &RouteEntry) -> Result<(), AllocError>
    ensures { OnOk result (stated.new.items ≡ stated.old.items ++ option_to_list (option_map (λ r. (at, r)) (stated_route entry.now))) }
{
    if let Some(route) = placed(at, entry) {
        stated.push(route)?;
    }
    Ok(())
}

// The stated routes, each with the position of its entry.
#[tactic(auto, using(merge_model::proofs::lemmas::StatedAt::one_stated))]
fn stated_at(alloc: Global, entries: &[RouteEntry]) -> Result<Vec<Stated>, AllocError>
    ensures { IfOk result (λ stated. stated.items ≡ stated_at 0 entries.now) }
{
    let mut stated = Vec::new(alloc);
    let mut at: u32 = 0;
    let mut left = entries;
    while let Some((entry, rest)) = left.split_first() {
        push_stated(&mut stated, at, entry)?;
        at = at.checked_add(1).ok_or(AllocError)?;
        left = rest;
    }
    Ok(stated)
}

fn at_route(found: Option<&Stated>) -> Option<Place>
    ensures { result ≡ at_route (option_copied found.entry) }
{
    match found {
        Some(stated) => Some(Place::Route(stated.at())),
        None => None,
    }
}

fn first_down<'a>(devices: &Devices, stated: &'a [Stated]) -> Option<&'a Stated>
    ensures { option_copied result ≡ find (λ s. not (named_passes (λ l. l.up) devices.now s.1.dev)) stated.now }
{
    stated.iter().find(|s| !devices.is_up(&s.route().dev))
}

fn first_off_link<'a>(devices: &Devices, stated: &'a [Stated]) -> Option<&'a Stated>
    ensures { option_copied result ≡ find (λ s. not (route_stands devices.now s.1)) stated.now }
{
    stated.iter().find(|s| !devices.stands(s.route()))
}

fn first_twin(alloc: Global, stated: &[Stated]) -> Result<Option<&Stated>, AllocError>
    ensures { IfOk result (λ found. option_copied found ≡ first_second (λ a b. same_key a.1 b.1 && not (same_route a.1 b.1)) [] stated.now) }
{
    let mut firsts = BTreeMap::new(alloc);
    for i in 0..stated.len() {
        let route = &stated[i];
        if !is_first_or_equal(&mut firsts, route.route())? {
            return Ok(Some(route));
        }
    }
    Ok(None)
}

fn refused(rule: u8, place: Place) -> Refused
    ensures { result ≡ at_rule rule place }
{
    Refused {
        rule,
        which: 0,
        place,
    }
}

// The refusal for the first rule that has a place.
fn least(device: Option<Place>, gateway: Option<Place>, twin: Option<Place>) -> Option<Refused>
    ensures { result ≡ first_of at_rule ((18, device) ∷ (19, gateway) ∷ (20, twin) ∷ []) }
{
    match (device, gateway, twin) {
        (Some(place), _, _) => Some(refused(ROUTE_DEVICE, place)),
        (None, Some(place), _) => Some(refused(ROUTE_GATEWAY, place)),
        (None, None, Some(place)) => Some(refused(ROUTE_TWIN, place)),
        (None, None, None) => None,
    }
}

fn stated_broken(
    alloc: Global,
    devices: &Devices,
    stated: &[Stated],
) -> Result<Option<Refused>, AllocError>
    ensures { IfOk result (λ broken. broken ≡ rules_over devices.now stated.now) }
{
    let device = at_route(first_down(devices, stated));
    let gateway = at_route(first_off_link(devices, stated));
    let twin = at_route(first_twin(alloc, stated)?);
    Ok(least(device, gateway, twin))
}

// The first of rules 18 to 20 that the stated routes break over these links, at its first entry.
pub(crate) fn routes_broken(
    alloc: Global,
    devices: &Devices,
    entries: &[RouteEntry],
) -> Result<Option<Refused>, AllocError>
    ensures { IfOk result (λ broken. broken ≡ routes_broken devices.now entries.now) }
{
    let stated = stated_at(alloc, entries)?;
    stated_broken(alloc, devices, &stated)
}
