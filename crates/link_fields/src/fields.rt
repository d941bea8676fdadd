//! The fields of merged links that follow from their bases: one rule for each.
ghost use Rattle.std.specs.Prelude.{◌≡◌};
ghost use Rattle.std.specs.Option.{option_map};
ghost use Rattle.merge_model.specs.Merged.{up_over, mtu_over, stated_mtu, unstated_mtu, mac_over, stated_mac};

use link_order::{Member, is_absent, is_stated_up, permanent_of};
use net_model::{DEFAULT_MTU, Mac};

/// Up where it is stated up or lifted, or unstated and up before and, if it is a VLAN, over a base that is up.
pub(crate) fn up_over(member: &Member, below: Option<bool>) -> bool
    ensures { result ≡ up_over member.now below }
{
    is_stated_up(member.wish())
        || member.is_lifted()
        || (member.is_unstated() && member.was_up() && below.unwrap_or(true))
}

fn stated_mtu(member: &Member) -> Option<u32>
    ensures { result ≡ stated_mtu member.now }
{
    if is_absent(member.wish()) {
        return Some(DEFAULT_MTU);
    }
    match member.entry() {
        Some(entry) => entry.mtu,
        None => None,
    }
}

fn current_mtu(member: &Member) -> Option<u32>
    ensures { result ≡ option_map (λ l. l.mtu) member.now.old }
{
    match member.old() {
        Some(link) => Some(link.mtu),
        None => None,
    }
}

// For a new VLAN its base's, for another VLAN the smaller of its own and its base's, else the current one or the default.
fn unstated_mtu(now: Option<u32>, below: Option<u32>) -> u32
    ensures { result ≡ unstated_mtu now below }
{
    match now {
        None => below.unwrap_or(DEFAULT_MTU),
        Some(now) => match below {
            None => now,
            Some(below) => now.min(below),
        },
    }
}

/// The stated MTU, else the one that follows from its base's.
pub(crate) fn mtu_over(member: &Member, below: Option<u32>) -> u32
    ensures { result ≡ mtu_over member.now below }
{
    match stated_mtu(member) {
        Some(mtu) => mtu,
        None => unstated_mtu(current_mtu(member), below),
    }
}

fn stated_mac(member: &Member) -> Option<Mac>
    ensures { result ≡ stated_mac member.now }
{
    if is_absent(member.wish()) {
        return permanent_of(&member.kind());
    }
    match member.entry() {
        Some(entry) => entry.mac,
        None => None,
    }
}

fn current_mac(member: &Member) -> Option<Mac>
    ensures { result ≡ option_map (λ l. l.mac) member.now.old }
{
    match member.old() {
        Some(link) => Some(link.mac),
        None => None,
    }
}

/// The MAC: the stated one, else the current one, else for a new VLAN its base's, else the one made from the name.
pub(crate) fn mac_over(member: &Member, below: Option<Mac>) -> Mac
    ensures { result ≡ mac_over member.now below }
{
    match stated_mac(member) {
        Some(mac) => mac,
        None => match current_mac(member) {
            Some(mac) => mac,
            None => match below {
                Some(mac) => mac,
                None => Mac::of_virtual(&member.name()),
            },
        },
    }
}
