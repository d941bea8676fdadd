//! The names and addresses of a device.
ghost use Rattle.std.specs.Prelude.{◌≡◌, IfOk};
ghost use Rattle.doc_tree.specs.Shape.{shape, text};
ghost use Rattle.show_core.specs.Fields.{hardware};
ghost use Rattle.scenario_model.specs.Trees.{base_name, routed_name, bridged_name, own_address, gateway, own_subnet, far_subnet, mac_of};

use base_model::{OutOfMemory, Str};
use doc_tree::Tree;
use net_model::Mac;
use net_text::write_mac;
use scenario_model::Device;
use std::alloc::Global;

/// The name of the device.
pub fn base_name(alloc: Global, device: Device) -> Result<Str, OutOfMemory>
    ensures { IfOk result (λ name. name ≡ base_name device) }
{
    let number = device.number;
    Ok(Str::of(format!(in alloc; "e{number}")?))
}

/// The name of the VLAN over it that has an address.
pub fn routed_name(alloc: Global, device: Device) -> Result<Str, OutOfMemory>
    ensures { IfOk result (λ name. name ≡ routed_name device) }
{
    let number = device.number;
    Ok(Str::of(format!(in alloc; "e{number}.v")?))
}

/// The name of the VLAN over it that is a port of the bridge.
pub fn bridged_name(alloc: Global, device: Device) -> Result<Str, OutOfMemory>
    ensures { IfOk result (λ name. name ≡ bridged_name device) }
{
    let number = device.number;
    Ok(Str::of(format!(in alloc; "e{number}.b")?))
}

/// The address of the VLAN.
pub fn own_address(alloc: Global, device: Device) -> Result<Str, OutOfMemory>
    ensures { IfOk result (λ address. address ≡ own_address device) }
{
    let number = device.number;
    Ok(Str::of(format!(in alloc; "10.{number}.0.1")?))
}

/// The address of the gateway behind it.
pub fn gateway(alloc: Global, device: Device) -> Result<Str, OutOfMemory>
    ensures { IfOk result (λ address. address ≡ gateway device) }
{
    let number = device.number;
    Ok(Str::of(format!(in alloc; "10.{number}.0.2")?))
}

/// The subnet of both.
pub fn own_subnet(alloc: Global, device: Device) -> Result<Str, OutOfMemory>
    ensures { IfOk result (λ subnet. subnet ≡ own_subnet device) }
{
    let number = device.number;
    Ok(Str::of(format!(in alloc; "10.{number}.0.0/24")?))
}

/// The subnet that is reached through the gateway.
pub fn far_subnet(alloc: Global, device: Device) -> Result<Str, OutOfMemory>
    ensures { IfOk result (λ subnet. subnet ≡ far_subnet device) }
{
    let number = device.number;
    Ok(Str::of(format!(in alloc; "172.16.{number}.0/24")?))
}

// The string of these bytes, which are ASCII. A body that finds others has no better answer than out of memory.
fn text_tree(bytes: Vec<u8>) -> Result<Tree, OutOfMemory>
    ensures { IfOk result (λ tree. shape tree ≡ text bytes.items) }
{
    match String::from_utf8(bytes) {
        Ok(text) => Ok(Tree::Text(Str::of(text))),
        Err(_) => Err(OutOfMemory),
    }
}

/// The tree of the MAC address of the device.
pub fn mac_tree(alloc: Global, device: Device) -> Result<Tree, OutOfMemory>
    ensures { IfOk result (λ tree. shape tree ≡ hardware (mac_of device)) }
{
    let mac = Mac {
        bytes: [0x52, 0x54, 0, 0, 0, device.number],
    };
    let mut text = Vec::new(alloc);
    write_mac(&mac, &mut text)?;
    text_tree(text)
}
