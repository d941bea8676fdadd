//! The command that makes the first network.
ghost use Rattle.std.specs.Prelude.{◌≡◌, ℕ, true, IfOk};
ghost use Rattle.top_model.specs.Machine.{first_net};
ghost use Rattle.top_model.specs.Orders.{making};
ghost use Rattle.command_laws.specs.Carried.{Carried};
ghost use Rattle.command_laws.specs.First.{is_hardware, Makes};

use answer_text::{made_line, tell_done, tell_refused};
use base_model::{Items, OutOfMemory};
use engine_model::Left;
use host_core::{Host, MakeFault, Sink, Source};
use net_core::Net;
use net_model::{Dns, Link, NetFault};
use std::alloc::Global;
use top_model::{Cause, Report};

// The network of these devices and nothing else.
fn first_net(alloc: Global, links: Items<Link>) -> Result<Net, OutOfMemory>
    requires { is_hardware links ≡ true }
    ensures { IfOk result (λ net. net ≡ first_net links) }
{
    let dns = Dns {
        servers: Items::of(Vec::new(alloc)),
        search: Items::of(Vec::new(alloc)),
    };
    let links = links.into_vec();
    match Net::new(alloc, links, Vec::new(alloc), Vec::new(alloc), dns) {
        Ok(net) => Ok(net),
        Err(NetFault::OutOfMemory) => Err(OutOfMemory),
        // The links of a hardware list are a valid network.
        Err(NetFault::Broken(_)) => unreachable!(),
    }
}

// Makes the first network, and answers the number of its links.
fn make_first<H: Host>(alloc: Global, links: Items<Link>, host: &mut H) -> Result<u64, Cause>
    requires { is_hardware links ≡ true }
    ensures { Makes H.tells links (H.told host.old) (H.told host.new) result }
{
    let count = links.items().len() as u64;
    let first = match first_net(alloc, links) {
        Ok(first) => first,
        Err(OutOfMemory) => return Err(Cause::OutOfMemory),
    };
    match host.make(alloc, &first) {
        Ok(()) => Ok(count),
        Err(MakeFault::Exists) => Err(Cause::Exists),
        // What was there, no network, or the new one is there.
        Err(MakeFault::Failed) => Err(Cause::HostFault(Left::NotBegun)),
        Err(MakeFault::OutOfMemory) => Err(Cause::OutOfMemory),
    }
}

/// `init`: makes the first network, of the devices of a hardware list, all down, and answers the report.
///
/// It answers `Exists` where the host has a network, which stays as it is, `HostFault` where the making fails: then what
/// was there, no network or the new one is there. And it answers `OutOfMemory`, and `WriteFault` where a sink fails.
pub fn init_run<H: Host, S: Source, W: Sink>(
    alloc: Global,
    links: Items<Link>,
    host: &mut H,
    out: &mut W,
    err: &mut W,
) -> Report
    requires { is_hardware links ≡ true }
    ensures { (now : ℕ) → Carried H.Host S.Source W.Sink (making links) now host.old host.new out.old out.new err.old err.new result }
{
    match make_first(alloc, links, host) {
        Ok(count) => tell_done(b"", made_line(count).as_bytes(), out, err),
        Err(cause) => tell_refused(b"", cause, out, err),
    }
}
