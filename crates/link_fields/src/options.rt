//! The options of the merged links: whose current ones and whose entries count.
ghost use Rattle.std.specs.Prelude.{◌≡◌, ◌&&◌, [], false, slice_get, option_copied};
ghost use Rattle.std.specs.Option.{option_map_or, option_and_then, unwrap_or};
ghost use Rattle.net_model.specs.Links.{is_bridge, is_port_of};
ghost use Rattle.net_model.specs.Options.{default_port};
ghost use Rattle.merge_model.specs.Members.{find_member};
ghost use Rattle.merge_model.specs.OptionRules.{merge_bond, merge_bridge, merge_port};
ghost use Rattle.merge_model.specs.LinkOptions.{no_bond, no_bridge, if_same_mode, if_bridge, bond_of, bridge_of, controller_member, if_same_bridge, port_under, port_of};
ghost use Rattle.link_members.specs.Listers.{port_place};

use document_model::{BondEntry, BridgeEntry, LinkEntry, PortEntry};
use link_members::Members;
use link_order::{Member, same_mode};
use net_lists::{is_bridge, is_port_of};
use net_model::{BondOpts, BridgeOpts, Items, Kind, Link, Name, PortOpts};
use option_rules::{merge_bond, merge_bridge, merge_port};
use std::alloc::Global;

fn no_bond() -> BondEntry
    ensures { result ≡ no_bond }
{
    BondEntry {
        mode: None,
        primary: None,
        lacp_rate: None,
        hash_policy: None,
        miimon: None,
        updelay: None,
        downdelay: None,
        ports: None,
    }
}

fn no_bridge() -> BridgeEntry
    ensures { result ≡ no_bridge }
{
    BridgeEntry {
        stp: None,
        priority: None,
        forward_delay: None,
        hello_time: None,
        max_age: None,
        mac_ageing: None,
        ports: None,
    }
}

// The current options count for a bond that was one of the same mode.
fn current_bond<'a>(old: Option<&'a Link>, kind: &Kind) -> Option<&'a BondOpts>
    ensures { option_copied result ≡ option_and_then (if_same_mode kind.now) (option_copied old.entry) }
{
    match old {
        Some(link) => {
            if same_mode(&link.kind, kind) {
                Some(&link.bond)
            } else {
                None
            }
        }
        None => None,
    }
}

// And for a bridge that was one.
fn current_bridge<'a>(old: Option<&'a Link>) -> Option<&'a BridgeOpts>
    ensures { option_copied result ≡ option_and_then if_bridge (option_copied old.entry) }
{
    match old {
        Some(link) => {
            if is_bridge(&link.kind) {
                Some(&link.bridge)
            } else {
                None
            }
        }
        None => None,
    }
}

fn bond_with(current: Option<&BondOpts>, entry: Option<&LinkEntry>, ports: &Vec<Name>) -> BondOpts
    ensures { result ≡ merge_bond (option_copied current.entry) (option_map_or (λ e. e.bond) (option_copied entry.entry) no_bond) ports.now.items }
{
    match entry {
        Some(entry) => merge_bond(current, &entry.bond, ports),
        None => merge_bond(current, &no_bond(), ports),
    }
}

fn bond_by(
    alloc: Global,
    current: Option<&BondOpts>,
    entry: Option<&LinkEntry>,
    ports: Option<&Items<Name>>,
) -> BondOpts
    ensures { result ≡ merge_bond (option_copied current.entry)
        (option_map_or (λ e. e.bond) (option_copied entry.entry) no_bond) (unwrap_or (option_copied ports.entry) []) }
{
    match ports {
        Some(ports) => bond_with(current, entry, ports.items()),
        None => bond_with(current, entry, &Vec::new(alloc)),
    }
}

/// The options of a bond, the defaults for another kind. It allocates nothing.
pub(crate) fn bond_of(alloc: Global, members: &Members, member: &Member) -> BondOpts
    ensures { result ≡ bond_of members.now member.now member.now.kind }
{
    let kind = member.kind();
    match kind {
        Kind::Bond { .. } => {
            let ports = members.ports_of(&member.name());
            bond_by(
                alloc,
                current_bond(member.old(), &kind),
                member.entry(),
                ports,
            )
        }
        _ => BondOpts::defaults(),
    }
}

fn bridge_by(current: Option<&BridgeOpts>, entry: Option<&LinkEntry>) -> BridgeOpts
    ensures { result ≡ merge_bridge (option_copied current.entry) (option_map_or (λ e. e.bridge) (option_copied entry.entry) no_bridge) }
{
    match entry {
        Some(entry) => merge_bridge(current, &entry.bridge),
        None => merge_bridge(current, &no_bridge()),
    }
}

/// The options of a bridge, the defaults for another kind.
pub(crate) fn bridge_of(member: &Member) -> BridgeOpts
    ensures { result ≡ bridge_of member.now member.now.kind }
{
    match member.kind() {
        Kind::Bridge => bridge_by(current_bridge(member.old()), member.entry()),
        _ => BridgeOpts::defaults(),
    }
}

/// The link that is the controller.
pub(crate) fn controller_member<'a, 'b>(
    members: &'b Members<'a>,
    member: &Member<'a>,
) -> Option<&'b Member<'a>>
    ensures { option_copied result ≡ controller_member members.now member.now }
{
    match member.controller() {
        Some(name) => members.find(&name),
        None => None,
    }
}

fn was_bridge(member: &Member) -> bool
    ensures { result ≡ option_map_or (λ b. is_bridge b.kind) member.now.old false }
{
    match member.old() {
        Some(link) => is_bridge(&link.kind),
        None => false,
    }
}

fn was_port_of_bridge(controller: &Member, link: &Link) -> bool
    ensures { result ≡ (is_port_of controller.now.name link.now && option_map_or (λ b. is_bridge b.kind) controller.now.old false) }
{
    is_port_of(link, &controller.name()) && was_bridge(controller)
}

// The current options count for a port of the same bridge.
fn current_port<'a>(controller: &Member, old: Option<&'a Link>) -> Option<&'a PortOpts>
    ensures { option_copied result ≡ option_and_then (if_same_bridge controller.now) (option_copied old.entry) }
{
    match old {
        Some(link) => {
            if was_port_of_bridge(controller, link) {
                Some(&link.port)
            } else {
                None
            }
        }
        None => None,
    }
}

fn port_at<'a>(ports: &'a [PortEntry], place: Option<usize>) -> Option<&'a PortEntry>
    ensures { option_copied result ≡ option_and_then (slice_get ports.now) place }
{
    match place {
        Some(at) => ports.get(at),
        None => None,
    }
}

fn port_among<'a>(
    ports: &'a Option<Items<PortEntry>>,
    place: Option<usize>,
) -> Option<&'a PortEntry>
    ensures { option_copied result ≡ option_and_then (slice_get (unwrap_or ports.now [])) place }
{
    match ports {
        Some(ports) => port_at(ports.items(), place),
        None => None,
    }
}

// What the entry of a bridge states at this place of its list.
fn port_entry<'a>(entry: Option<&'a LinkEntry>, place: Option<usize>) -> Option<&'a PortEntry>
    ensures { option_copied result ≡ option_and_then (λ e. option_and_then (slice_get (unwrap_or e.bridge.ports [])) place) (option_copied entry.entry) }
{
    match entry {
        Some(entry) => port_among(&entry.bridge.ports, place),
        None => None,
    }
}

// The options under the controller in whose stated list the port has this place.
fn port_under(member: &Member, controller: &Member, place: Option<usize>) -> PortOpts
    requires { place ≡ port_place member.now.name controller.now }
    ensures { result ≡ port_under member.now controller.now }
{
    if is_bridge(&controller.kind()) {
        merge_port(
            current_port(controller, member.old()),
            port_entry(controller.entry(), place),
        )
    } else {
        PortOpts::defaults()
    }
}

fn port_under_named(members: &Members, member: &Member, controller: &Name) -> PortOpts
    ensures { result ≡ option_map_or (port_under member.now) (find_member controller.now members.now) default_port }
{
    let place = members.port_place(controller, &member.name());
    match members.find(controller) {
        Some(controller) => port_under(member, controller, place),
        None => PortOpts::defaults(),
    }
}

/// The options of a bridge's port, the defaults under another controller.
pub(crate) fn port_of(members: &Members, member: &Member) -> PortOpts
    ensures { result ≡ port_of members.now member.now }
{
    match member.controller() {
        Some(controller) => port_under_named(members, member, &controller),
        None => PortOpts::defaults(),
    }
}
