//! The first network.
ghost use Rattle.std.specs.Prelude.{◌≡◌, ◌≤◌, true, IfOk, IfErr, OnOk};
ghost use Rattle.host_core.specs.HostView.{IsMade};
ghost use Rattle.scenario_model.specs.Asking.{is_hardware, first_net};
ghost use Rattle.scenario_model.specs.Saying.{IsPast, past_of};
ghost use Rattle.scenario.specs.Stages.{NotMade};

use base_model::{Items, OutOfMemory};
use host_core::Host;
use net_core::Net;
use net_model::{Dns, Link, NetFault};
use scenario_model::WorkFault;
use std::alloc::{AllocError, Global};

fn copy_links(links: &Vec<Link>) -> Result<Vec<Link>, AllocError>
    ensures { IfOk result (λ copy. copy.items ≡ links.now.items) }
{
    links.clone()
}

// The network of these devices and nothing else.
fn first_net(alloc: Global, devices: &Vec<Link>) -> Result<Net, OutOfMemory>
    requires { is_hardware devices.now.items ≡ true }
    ensures { IfOk result (λ net. net ≡ first_net devices.now.items) }
{
    let links = copy_links(devices)?;
    let dns = Dns {
        servers: Items::of(Vec::new(alloc)),
        search: Items::of(Vec::new(alloc)),
    };
    match Net::new(alloc, links, Vec::new(alloc), Vec::new(alloc), dns) {
        Ok(net) => Ok(net),
        Err(NetFault::OutOfMemory) => Err(OutOfMemory),
        // The links of a hardware list are a valid network.
        Err(NetFault::Broken(_)) => unreachable!(),
    }
}

/// Makes the network of these devices and nothing else.
pub fn make_first<H: Host>(
    host: &mut H,
    alloc: Global,
    devices: &Vec<Link>,
) -> Result<(), WorkFault>
    requires { is_hardware devices.now.items ≡ true }
    ensures made { H.tells → OnOk result (IsMade (first_net devices.now.items) (H.told host.old).state (H.told host.new)) }
    ensures says { IfErr result (λ fault. NotMade H.tells (H.told host.old) (H.told host.new) fault) }
    ensures follows { OnOk result (IsPast H.tells (past_of (H.told host.old)) (past_of (H.told host.new))) }
    ensures later { (H.told host.old).faults ≤ (H.told host.new).faults }
{
    let first = match first_net(alloc, devices) {
        Ok(first) => first,
        Err(OutOfMemory) => return Err(WorkFault::OutOfMemory),
    };
    match host.make(alloc, &first) {
        Ok(()) => Ok(()),
        Err(fault) => Err(WorkFault::Make(fault)),
    }
}
