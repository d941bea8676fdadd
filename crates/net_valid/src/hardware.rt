//! What was built into the machine.
ghost use Rattle.std.specs.Prelude.{◌≡◌, [], is_none, option_copied};
ghost use Rattle.std.specs.List.{list_all};
ghost use Rattle.net_model.specs.Hardware.{device_of, hardware, same_device, same_devices, Passes};

use net_model::{Kind, Link, Mac, Name};

type Device = (Name, Mac);

fn device_of(link: &Link) -> Option<Device>
    ensures { result ≡ device_of link.now.name link.now.kind }
{
    match &link.kind {
        Kind::Ethernet { permanent } => Some((link.name, *permanent)),
        _ => None,
    }
}

fn same_device(a: &Device, b: &Device) -> bool
    ensures { result ≡ same_device a.now b.now }
{
    a.0 == b.0 && a.1 == b.1
}

// What stands behind the first Ethernet link, if that is the device.
fn behind<'a>(links: &'a [Link], device: &Device) -> Option<&'a [Link]>
    ensures { Passes (option_copied result) device.now links.now }
{
    let mut left = links;
    while let Some((link, rest)) = left.split_first() {
        if let Some(found) = device_of(link) {
            return if same_device(device, &found) {
                Some(rest)
            } else {
                None
            };
        }
        left = rest;
    }
    None
}

fn all_virtual(links: &[Link]) -> bool
    ensures { result ≡ list_all (λ l. is_none (device_of l.name l.kind)) links.now }
{
    links.iter().all(|link| device_of(link).is_none())
}

#[tactic(auto, using(net_model::proofs::lemmas::Devices::none_left))]
fn has_none(links: &[Link]) -> bool
    ensures { result ≡ same_devices [] (hardware links.now) }
{
    all_virtual(links)
}

/// Whether both lists have the same Ethernet links, in the same order, with the same permanent MACs.
pub fn same_devices(a: &[Link], b: &[Link]) -> bool
    ensures { result ≡ same_devices (hardware a.now) (hardware b.now) }
{
    let mut left = a;
    let mut right = b;
    while let Some((link, rest)) = left.split_first() {
        if let Some(device) = device_of(link) {
            match behind(right, &device) {
                Some(further) => right = further,
                None => return false,
            }
        }
        left = rest;
    }
    has_none(right)
}
