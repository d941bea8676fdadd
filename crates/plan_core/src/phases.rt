//! The whole plan.
ghost use Rattle.std.specs.Prelude.{◌≡◌, ◌≢◌, IfOk};
ghost use Rattle.net_model.specs.Hardware.{hardware};
ghost use Rattle.plan_model.specs.Plans.{IsPlan};

use crate::put_on::put_on;
use crate::take_off::take_off;
use kernel_step::Kernel;
use link_planner::{Draft, link_phases};
use net_core::Net;
use net_equal::same_net;
use net_model::{Call, OutOfMemory};
use plan_model::plan_laws;
use std::alloc::Global;

// No calls, which lead from a network to itself.
fn no_calls(alloc: Global, now_net: &Net, to_net: &Net) -> Vec<Call>
    requires { now_net.now ≡ to_net.now }
    ensures { IsPlan now_net.now to_net.now result.items }
{
    let calls = Vec::new(alloc);
    plan_laws();
    calls
}

// The calls that lead from one network to another one.
fn phases(alloc: Global, now_net: &Net, to_net: &Net) -> Result<Vec<Call>, OutOfMemory>
    requires devices { hardware now_net.now.links ≡ hardware to_net.now.links }
    requires differ { now_net.now ≢ to_net.now }
    ensures { IfOk result (λ calls. IsPlan now_net.now to_net.now calls.items) }
{
    let mut draft = Draft::new(alloc, now_net, to_net)?;
    take_off(&mut draft)?;
    link_phases::<Kernel>(alloc, &mut draft)?;
    put_on(&mut draft)?;
    draft.laws();
    plan_laws();
    let (calls, _) = draft.finish();
    Ok(calls)
}

/// The calls that lead from one network to another of the same devices, each accepted: none acts on a link that needn't be
/// touched, each gives what the other network has, or takes away what it hasn't or what is in the way, links that needn't
/// be touched are as they were after each call, and there are at most twelve calls for each name of a link, one for each
/// address, route and rule of either network, and one more. From a network to itself there is no call.
pub fn plan(alloc: Global, now_net: &Net, to_net: &Net) -> Result<Vec<Call>, OutOfMemory>
    requires { hardware now_net.now.links ≡ hardware to_net.now.links }
    ensures { IfOk result (λ calls. IsPlan now_net.now to_net.now calls.items) }
{
    if same_net(now_net, to_net) {
        return Ok(no_calls(alloc, now_net, to_net));
    }
    phases(alloc, now_net, to_net)
}
