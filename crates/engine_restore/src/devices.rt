//! The devices on which two networks differ.
ghost use Rattle.std.specs.Prelude.{◌≡◌, ◌++◌, not, filter, IfOk, OnOk};
ghost use Rattle.std.specs.List.{list_any};
ghost use Rattle.std.specs.Option.{option_to_list};
ghost use Rattle.net_model.specs.Hardware.{device_of, hardware, same_device};
ghost use Rattle.net_model.specs.Order.{name_cmp};
ghost use Rattle.net_model.specs.Words.{is_among, sorted};
ghost use Rattle.engine_model.specs.Differing.{lacking, either, differing};

use base_model::{Items, OutOfMemory};
use net_core::Net;
use net_model::{Kind, Link, Mac, Name};
use std::alloc::{AllocError, Global};

type Device = (Name, Mac);

fn device_of(link: &Link) -> Option<Device>
    ensures { result ≡ device_of link.now.name link.now.kind }
{
    match &link.kind {
        Kind::Ethernet { permanent } => Some((link.name, *permanent)),
        _ => None,
    }
}

fn same_device(a: &Device, b: &Device) -> bool
    ensures { result ≡ same_device a.now b.now }
{
    a.0 == b.0 && a.1 == b.1
}

fn push_device(devices: &mut Vec<Device>, link: &Link) -> Result<(), AllocError>
    ensures { OnOk result (devices.new.items ≡ devices.old.items ++ option_to_list (device_of link.now.name link.now.kind)) }
{
    if let Some(device) = device_of(link) {
        devices.push(device)?;
    }
    Ok(())
}

fn hardware(alloc: Global, links: &[Link]) -> Result<Vec<Device>, AllocError>
    ensures { IfOk result (λ devices. devices.items ≡ hardware links.now) }
{
    let mut devices = Vec::new(alloc);
    for link in links {
        push_device(&mut devices, link)?;
    }
    Ok(devices)
}

fn has_device(devices: &[Device], device: &Device) -> bool
    ensures { result ≡ list_any (same_device device.now) devices.now }
{
    devices.iter().any(|other| same_device(device, other))
}

// The names of the devices of one that the other has not.
fn lacking(alloc: Global, ours: &[Device], theirs: &[Device]) -> Result<Vec<Name>, AllocError>
    ensures { IfOk result (λ names. names.items ≡ lacking ours.now theirs.now) }
{
    let mut names = Vec::new(alloc);
    for device in ours {
        if !has_device(theirs, device) {
            names.push(device.0)?;
        }
    }
    Ok(names)
}

fn is_among(names: &[Name], name: &Name) -> bool
    ensures { result ≡ is_among names.now name.now }
{
    names.iter().any(|other| other == name)
}

// Of the second those that the first has not.
fn others(alloc: Global, names: &[Name], more: &[Name]) -> Result<Vec<Name>, AllocError>
    ensures { IfOk result (λ new. new.items ≡ filter (λ name. not (is_among names.now name)) more.now) }
{
    let mut new = Vec::new(alloc);
    for name in more {
        if !is_among(names, name) {
            new.push(*name)?;
        }
    }
    Ok(new)
}

fn sort_names(names: &mut Vec<Name>) -> Result<(), AllocError>
    ensures { OnOk result (names.new.items ≡ sorted name_cmp names.old.items) }
{
    names.sort()
}

// The names of the devices that only one of the two has, each once.
fn either(alloc: Global, ours: &[Device], theirs: &[Device]) -> Result<Vec<Name>, AllocError>
    ensures { IfOk result (λ names. names.items ≡ either (lacking ours.now theirs.now) (lacking theirs.now ours.now)) }
{
    let mut names = lacking(alloc, ours, theirs)?;
    let more = lacking(alloc, theirs, ours)?;
    let new = others(alloc, &names, &more)?;
    names.extend_from_slice(&new)?;
    Ok(names)
}

/// The names of the devices on which two networks differ, in order.
pub(crate) fn differing(alloc: Global, a: &Net, b: &Net) -> Result<Items<Name>, OutOfMemory>
    ensures { IfOk result (λ names. differing a.now b.now ≡ names) }
{
    let ours = hardware(alloc, a.links())?;
    let theirs = hardware(alloc, b.links())?;
    let mut names = either(alloc, &ours, &theirs)?;
    sort_names(&mut names)?;
    Ok(Items::of(names))
}
