//! The options of merged bonds, bridges and ports: each the stated one, else the current one, else the default.
#![tactic(auto)]

ghost use Rattle.std.specs.Prelude.{◌≡◌, option_copied};
ghost use Rattle.net_model.specs.Words.{is_among};
ghost use Rattle.merge_model.specs.Stated.{claimed};
ghost use Rattle.merge_model.specs.OptionRules.{if_among, primary_over, merge_bond, merge_bridge, merge_port};

use document_model::{BondEntry, BridgeEntry, Claim, PortEntry};
use net_model::{BondOpts, BridgeOpts, Name, PortOpts};

fn is_among(names: &[Name], name: &Name) -> bool
    ensures { result ≡ is_among names.now name.now }
{
    names.iter().any(|n| n == name)
}

fn if_among(names: &[Name], name: Option<Name>) -> Option<Name>
    ensures { result ≡ if_among names.now name }
{
    match name {
        Some(name) => {
            if is_among(names, &name) {
                Some(name)
            } else {
                None
            }
        }
        None => None,
    }
}

fn claimed(claim: Claim) -> Option<Name>
    ensures { result ≡ claimed claim }
{
    match claim {
        Claim::To(name) => Some(name),
        Claim::Nobody => None,
    }
}

// The stated primary, else the current one where it is still a port.
fn primary_over(now: Option<Name>, stated: Option<Claim>, ports: &[Name]) -> Option<Name>
    ensures { result ≡ primary_over now stated ports.now }
{
    match stated {
        Some(claim) => claimed(claim),
        None => if_among(ports, now),
    }
}

/// The options of a bond with these merged ports. An unstated primary that isn't a port is none. `current` are the options
/// of a bond of the same mode, if it was one. It allocates nothing.
pub fn merge_bond(current: Option<&BondOpts>, entry: &BondEntry, ports: &Vec<Name>) -> BondOpts
    ensures { result ≡ merge_bond (option_copied current.entry) entry.now ports.now.items }
{
    let now = current.copied().unwrap_or(BondOpts::defaults());
    BondOpts {
        primary: primary_over(now.primary, entry.primary, ports),
        lacp_rate: entry.lacp_rate.unwrap_or(now.lacp_rate),
        hash_policy: entry.hash_policy.unwrap_or(now.hash_policy),
        miimon: entry.miimon.unwrap_or(now.miimon),
        updelay: entry.updelay.unwrap_or(now.updelay),
        downdelay: entry.downdelay.unwrap_or(now.downdelay),
    }
}

/// The options of a bridge. `current` are its options, if it was a bridge. It allocates nothing.
pub fn merge_bridge(current: Option<&BridgeOpts>, entry: &BridgeEntry) -> BridgeOpts
    ensures { result ≡ merge_bridge (option_copied current.entry) entry.now }
{
    let now = current.copied().unwrap_or(BridgeOpts::defaults());
    BridgeOpts {
        stp: entry.stp.unwrap_or(now.stp),
        priority: entry.priority.unwrap_or(now.priority),
        forward_delay: entry.forward_delay.unwrap_or(now.forward_delay),
        hello_time: entry.hello_time.unwrap_or(now.hello_time),
        max_age: entry.max_age.unwrap_or(now.max_age),
        mac_ageing: entry.mac_ageing.unwrap_or(now.mac_ageing),
    }
}

/// The options of a port of a bridge. `current` are its options, if it was a port of the same bridge; `entry` is what the
/// bridge's entry states for it. It allocates nothing.
pub fn merge_port(current: Option<&PortOpts>, entry: Option<&PortEntry>) -> PortOpts
    ensures { result ≡ merge_port (option_copied current.entry) (option_copied entry.entry) }
{
    let now = current.copied().unwrap_or(PortOpts::defaults());
    match entry {
        Some(entry) => PortOpts {
            cost: entry.cost.unwrap_or(now.cost),
            priority: entry.priority.unwrap_or(now.priority),
            hairpin: entry.hairpin.unwrap_or(now.hairpin),
        },
        None => now,
    }
}
