//! The tree of the first document.
ghost use Rattle.std.specs.Prelude.{◌≡◌, ◌++◌, ◌∷◌, [], map, IfOk, OnOk};
ghost use Rattle.std.specs.List.{flat_map};
ghost use Rattle.doc_tree.specs.Shape.{shape};
ghost use Rattle.scenario_model.specs.Trees.{vlan_tree, address_tree, ipv4_tree, routed_tree, bridged_tree, port_tree, bridge_tree, vlans, route_tree, rule_tree, config, first_tree};

use crate::lists::{Entry, each};
use crate::names::{
    base_name, bridged_name, far_subnet, gateway, own_address, own_subnet, routed_name,
};
use crate::pairs::Pairs;
use base_model::{OutOfMemory, Str};
use doc_tree::Tree;
use scenario_model::{Device, RULE_TABLE, VLAN_IDS};
use std::alloc::Global;

// The section of a VLAN.
fn vlan_tree(alloc: Global, base: Str, id: u32) -> Result<Tree, OutOfMemory>
    ensures { IfOk result (λ tree. shape tree ≡ vlan_tree base id) }
{
    let mut pairs = Pairs::new(alloc);
    pairs.put_text("base-iface", base)?;
    pairs.put_number("id", id)?;
    Ok(pairs.into_tree())
}

fn address_tree(alloc: Global, device: Device) -> Result<Tree, OutOfMemory>
    ensures { IfOk result (λ tree. shape tree ≡ address_tree device) }
{
    let mut pairs = Pairs::new(alloc);
    let address = own_address(alloc, device)?;
    pairs.put_text("ip", address)?;
    pairs.put_number("prefix-length", 24)?;
    Ok(pairs.into_tree())
}

fn ipv4_tree(alloc: Global, device: Device) -> Result<Tree, OutOfMemory>
    ensures { IfOk result (λ tree. shape tree ≡ ipv4_tree device) }
{
    let mut pairs = Pairs::new(alloc);
    pairs.put("enabled", Tree::Bool(true))?;
    let address = address_tree(alloc, device)?;
    let mut addresses = Vec::new(alloc);
    addresses.push(address)?;
    pairs.put("address", Tree::List(addresses))?;
    Ok(pairs.into_tree())
}

fn routed_tree(alloc: Global, device: Device) -> Result<Tree, OutOfMemory>
    ensures { IfOk result (λ tree. shape tree ≡ routed_tree device) }
{
    let mut pairs = Pairs::new(alloc);
    let name = routed_name(alloc, device)?;
    pairs.put_text("name", name)?;
    pairs.put_word("type", "vlan")?;
    pairs.put_word("state", "up")?;
    let ipv4 = ipv4_tree(alloc, device)?;
    pairs.put("ipv4", ipv4)?;
    let base = base_name(alloc, device)?;
    let vlan = vlan_tree(alloc, base, u32::from(device.id))?;
    pairs.put("vlan", vlan)?;
    Ok(pairs.into_tree())
}

fn bridged_tree(alloc: Global, device: Device) -> Result<Tree, OutOfMemory>
    ensures { IfOk result (λ tree. shape tree ≡ bridged_tree device) }
{
    let mut pairs = Pairs::new(alloc);
    let name = bridged_name(alloc, device)?;
    pairs.put_text("name", name)?;
    pairs.put_word("type", "vlan")?;
    let base = base_name(alloc, device)?;
    let vlan = vlan_tree(alloc, base, (u32::from(device.id) + 1) % VLAN_IDS)?;
    pairs.put("vlan", vlan)?;
    Ok(pairs.into_tree())
}

fn push_vlans(alloc: Global, device: Device, trees: &mut Vec<Tree>) -> Result<(), OutOfMemory>
    ensures { OnOk result (map shape trees.new.items ≡ map shape trees.old.items ++ vlans device) }
{
    let routed = routed_tree(alloc, device)?;
    trees.push(routed)?;
    let bridged = bridged_tree(alloc, device)?;
    trees.push(bridged)?;
    Ok(())
}

// The two VLANs of each device.
fn all_vlans(alloc: Global, devices: &[Device]) -> Result<Vec<Tree>, OutOfMemory>
    ensures { IfOk result (λ trees. map shape trees.items ≡ flat_map vlans devices.now) }
{
    let mut trees = Vec::new(alloc);
    for device in devices {
        push_vlans(alloc, *device, &mut trees)?;
    }
    Ok(trees)
}

fn port_tree(alloc: Global, device: Device) -> Result<Tree, OutOfMemory>
    ensures { IfOk result (λ tree. shape tree ≡ port_tree device) }
{
    let mut pairs = Pairs::new(alloc);
    let name = bridged_name(alloc, device)?;
    pairs.put_text("name", name)?;
    Ok(pairs.into_tree())
}

/// The ports of the bridge.
struct Port;

impl Entry for Port {
    ghost use Rattle.scenario_model.specs.Trees.{port_tree};

    ghost tree = { port_tree };

    fn entry(&self, alloc: Global, device: Device) -> Result<Tree, OutOfMemory> {
        port_tree(alloc, device)
    }
}

fn bridge_tree(alloc: Global, devices: &[Device]) -> Result<Tree, OutOfMemory>
    ensures { IfOk result (λ tree. shape tree ≡ bridge_tree devices.now) }
{
    let mut section = Pairs::new(alloc);
    let ports = each(alloc, &Port, devices)?;
    section.put("port", ports)?;
    let mut pairs = Pairs::new(alloc);
    pairs.put_word("name", "br")?;
    pairs.put_word("type", "linux-bridge")?;
    pairs.put("bridge", section.into_tree())?;
    Ok(pairs.into_tree())
}

// The list of the interfaces.
fn interfaces(alloc: Global, devices: &[Device]) -> Result<Vec<Tree>, OutOfMemory>
    ensures { IfOk result (λ trees. map shape trees.items ≡ flat_map vlans devices.now ++ bridge_tree devices.now ∷ []) }
{
    let mut trees = all_vlans(alloc, devices)?;
    let bridge = bridge_tree(alloc, devices)?;
    trees.push(bridge)?;
    Ok(trees)
}

fn route_tree(alloc: Global, device: Device) -> Result<Tree, OutOfMemory>
    ensures { IfOk result (λ tree. shape tree ≡ route_tree device) }
{
    let mut pairs = Pairs::new(alloc);
    let destination = far_subnet(alloc, device)?;
    pairs.put_text("destination", destination)?;
    let name = routed_name(alloc, device)?;
    pairs.put_text("next-hop-interface", name)?;
    let next = gateway(alloc, device)?;
    pairs.put_text("next-hop-address", next)?;
    pairs.put_number("metric", device.metric)?;
    Ok(pairs.into_tree())
}

/// The routes.
struct ARoute;

impl Entry for ARoute {
    ghost use Rattle.scenario_model.specs.Trees.{route_tree};

    ghost tree = { route_tree };

    fn entry(&self, alloc: Global, device: Device) -> Result<Tree, OutOfMemory> {
        route_tree(alloc, device)
    }
}

fn rule_tree(alloc: Global, device: Device) -> Result<Tree, OutOfMemory>
    ensures { IfOk result (λ tree. shape tree ≡ rule_tree device) }
{
    let mut pairs = Pairs::new(alloc);
    pairs.put_number("priority", u32::from(device.number))?;
    let from = own_subnet(alloc, device)?;
    pairs.put_text("ip-from", from)?;
    pairs.put_number("route-table", RULE_TABLE)?;
    Ok(pairs.into_tree())
}

/// The rules.
struct ARule;

impl Entry for ARule {
    ghost use Rattle.scenario_model.specs.Trees.{rule_tree};

    ghost tree = { rule_tree };

    fn entry(&self, alloc: Global, device: Device) -> Result<Tree, OutOfMemory> {
        rule_tree(alloc, device)
    }
}

// A section that holds what is configured.
fn config(alloc: Global, tree: Tree) -> Result<Tree, OutOfMemory>
    ensures { IfOk result (λ section. shape section ≡ config (shape tree)) }
{
    let mut pairs = Pairs::new(alloc);
    pairs.put("config", tree)?;
    Ok(pairs.into_tree())
}

/// The document that builds two VLANs over each device, a bridge over the second of them, and a route and a rule for each
/// of the first.
pub fn first_tree(alloc: Global, devices: &[Device]) -> Result<Tree, OutOfMemory>
    ensures { IfOk result (λ tree. shape tree ≡ first_tree devices.now) }
{
    let mut pairs = Pairs::new(alloc);
    let trees = interfaces(alloc, devices)?;
    pairs.put("interfaces", Tree::List(trees))?;
    let list = each(alloc, &ARoute, devices)?;
    let routes = config(alloc, list)?;
    pairs.put("routes", routes)?;
    let list = each(alloc, &ARule, devices)?;
    let rules = config(alloc, list)?;
    pairs.put("route-rules", rules)?;
    Ok(pairs.into_tree())
}
