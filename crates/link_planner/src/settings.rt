//! MACs, and the options of bonds and bridges.
ghost use Rattle.std.specs.Prelude.{◌≡◌, ◌≢◌};
ghost use Rattle.std.specs.Bool.{OnTrue, OnFalse};
ghost use Rattle.link_planner.specs.Growing.{Fits, HasPort, SameBridge, SameMac};
ghost use Rattle.link_planner.specs.Phases.{IsDue, Serves};

use crate::draft::Draft;
use crate::phase::Phase;
use net_core::Net;
use net_model::{BondOpts, Call, Link, Name};

fn has_other_mac(link: &Link, there: &Link) -> bool
    ensures yes { OnTrue result (link.now.mac ≢ there.now.mac) }
    ensures no { OnFalse result (SameMac link.now there.now) }
{
    link.mac != there.mac
}

/// The call that gives the link the target's MAC, or none where it has it.
pub fn set_mac(draft: &Draft, name: &Name) -> Option<Call>
    requires { IsDue Phase.SetMacs draft.now name.now }
    ensures { Serves Phase.SetMacs draft.now name.now result }
{
    draft.laws();
    let (link, there) = draft.pair(name)?;
    if has_other_mac(link, there) {
        Some(Call::SetMac {
            name: *name,
            mac: there.mac,
        })
    } else {
        None
    }
}

fn has_port(net: &Net, name: &Name, port: &Name) -> bool
    ensures yes { OnTrue result (HasPort net.now name.now port.now) }
    ensures no { OnFalse result (HasPort net.now name.now port.now → ⊥) }
{
    match net.link(port) {
        Some(link) => link.controller == Some(*name),
        None => false,
    }
}

// The target's options, without a primary that isn't yet the bond's port.
fn fitting(net: &Net, name: &Name, opts: &BondOpts) -> BondOpts
    ensures { Fits net.now name.now opts.now result }
{
    let Some(primary) = opts.primary else {
        return *opts;
    };
    if has_port(net, name, &primary) {
        *opts
    } else {
        BondOpts {
            primary: None,
            ..*opts
        }
    }
}

/// Whether the link has other options of a bond than these.
pub fn has_other_bond(link: &Link, opts: &BondOpts) -> bool
    ensures yes { OnTrue result (link.now.bond ≢ opts.now) }
    ensures no { OnFalse result (link.now.bond ≡ opts.now) }
{
    link.bond != *opts
}

/// The call that gives a bond the target's options, with the primary only where that is its port, or none where it has
/// these.
pub fn set_bond(draft: &Draft, name: &Name) -> Option<Call>
    requires { IsDue Phase.SetBonds draft.now name.now }
    ensures { Serves Phase.SetBonds draft.now name.now result }
{
    draft.laws();
    let (link, there) = draft.pair(name)?;
    let opts = fitting(draft.net(), name, &there.bond);
    if has_other_bond(link, &opts) {
        Some(Call::SetBond { name: *name, opts })
    } else {
        None
    }
}

fn has_other_bridge(link: &Link, there: &Link) -> bool
    ensures yes { OnTrue result (link.now.bridge ≢ there.now.bridge) }
    ensures no { OnFalse result (SameBridge link.now there.now) }
{
    link.bridge != there.bridge
}

/// The call that gives a bridge the target's options, or none where it has them.
pub fn set_bridge(draft: &Draft, name: &Name) -> Option<Call>
    requires { IsDue Phase.SetBridges draft.now name.now }
    ensures { Serves Phase.SetBridges draft.now name.now result }
{
    draft.laws();
    let (link, there) = draft.pair(name)?;
    if has_other_bridge(link, there) {
        Some(Call::SetBridge {
            name: *name,
            opts: there.bridge,
        })
    } else {
        None
    }
}
