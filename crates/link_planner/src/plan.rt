//! A plan for links.
ghost use Rattle.std.specs.Prelude.{◌*◌, length, OnOk, IfOk};
ghost use Rattle.plan_model.specs.Plans.{name_count};
ghost use Rattle.link_planner.specs.Drafts.{Advances};
ghost use Rattle.link_planner.specs.Growing.{IsToward};
ghost use Rattle.link_planner.specs.LinkPlans.{MayPlanLinks, IsReady, ReachesLinks, IsLinkPlan};
ghost use Rattle.link_planner.specs.Shrinking.{KeepsRulesAndDns};

use crate::creations::create_links;
use crate::deletions::delete_links;
use crate::draft::Draft;
use crate::order::orders_of;
use crate::phase::{Phase, run};
use kernel_model::Steps;
use net_core::Net;
use net_model::{Call, OutOfMemory};
use plan_model::plan_laws;
use std::alloc::Global;

/// The calls of a plan for links, and the network to which they lead.
pub struct LinkPlan {
    pub calls: Vec<Call>,
    pub after: Net,
}

// By hand, so that a proof sees one call where one is dropped, and not a step for each part.
impl Drop for LinkPlan {
    fn drop(self) {
        let LinkPlan { calls: _, after: _ } = self;
    }
}

// What is in the way goes: ports leave, links fall, links are deleted.
fn take_away<S: Steps>(alloc: Global, draft: &mut Draft) -> Result<(), OutOfMemory>
    requires { IsReady draft.old.start draft.old.target draft.old.net }
    ensures toward { OnOk result (IsToward draft.new.target draft.new.net) }
    ensures rest { OnOk result (KeepsRulesAndDns draft.old.net draft.new.net) }
    ensures advances { OnOk result (Advances (3 * length draft.old.start.links) draft.old draft.new) }
{
    let orders = orders_of(alloc, draft.start())?;
    run::<S>(draft, Phase::DetachPorts, &orders.names)?;
    run::<S>(draft, Phase::TakeLinksDown, &orders.upward)?;
    delete_links::<S>(alloc, draft, &orders.downward)?;
    draft.laws();
    Ok(())
}

// What is missing comes: links with their settings, ports and states.
fn build_up<S: Steps>(alloc: Global, draft: &mut Draft) -> Result<(), OutOfMemory>
    requires { IsToward draft.old.target draft.old.net }
    ensures reached { OnOk result (ReachesLinks draft.old.net draft.new.target draft.new.net) }
    ensures advances { OnOk result (Advances (9 * length draft.old.target.links) draft.old draft.new) }
{
    let orders = orders_of(alloc, draft.target())?;
    create_links(alloc, draft, &orders.upward)?;
    run::<S>(draft, Phase::RaiseMtus, &orders.upward)?;
    run::<S>(draft, Phase::LowerMtus, &orders.downward)?;
    run::<S>(draft, Phase::SetMacs, &orders.names)?;
    run::<S>(draft, Phase::SetBonds, &orders.names)?;
    run::<S>(draft, Phase::SetBridges, &orders.names)?;
    run::<S>(draft, Phase::AttachPorts, &orders.names)?;
    run::<S>(draft, Phase::SetPorts, &orders.names)?;
    run::<S>(draft, Phase::SetPrimaries, &orders.names)?;
    run::<S>(draft, Phase::TakeLinksUp, &orders.upward)?;
    draft.laws();
    Ok(())
}

/// All phases for links, from a network on that is ready for them.
pub fn link_phases<S: Steps>(alloc: Global, draft: &mut Draft) -> Result<(), OutOfMemory>
    requires { IsReady draft.old.start draft.old.target draft.old.net }
    ensures reached { OnOk result (ReachesLinks draft.old.net draft.new.target draft.new.net) }
    ensures advances { OnOk result (Advances (12 * name_count draft.old.start draft.old.target) draft.old draft.new) }
{
    draft.laws();
    take_away::<S>(alloc, draft)?;
    build_up::<S>(alloc, draft)?;
    Ok(())
}

/// The calls that lead from one network to the links of another, but for addresses, and the network to which they lead.
pub fn plan_links<S: Steps>(
    alloc: Global,
    now_net: &Net,
    to_net: &Net,
) -> Result<LinkPlan, OutOfMemory>
    requires { MayPlanLinks now_net.now to_net.now }
    ensures { IfOk result (λ plan. IsLinkPlan now_net.now to_net.now plan.calls.items plan.after) }
{
    let mut draft = Draft::new(alloc, now_net, to_net)?;
    link_phases::<S>(alloc, &mut draft)?;
    draft.laws();
    plan_laws();
    let (calls, after) = draft.finish();
    Ok(LinkPlan { calls, after })
}
