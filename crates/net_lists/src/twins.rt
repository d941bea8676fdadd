//! VLANs over one base with one protocol and number, found by an ordered set of their keys.
ghost use Rattle.std.specs.Prelude.{◌≡◌, ◌++◌, ◌∷◌, [], false, not, List, IfOk, OnOk, OnErr};
ghost use Rattle.std.specs.Option.{option_map_or};
ghost use Rattle.std.specs.BTreeSet.{contains, IsUnchanged};
ghost use Rattle.net_model.specs.declared.link.Link.{Link};
ghost use Rattle.net_model.specs.Twins.{is_dot1ad, vlan_key, vlan_cmp, has_key, HasVlans, Loses};
ghost use Rattle.net_model.specs.Valid.{vlans_differ};

use net_model::{Kind, Link, Name, Proto, VlanId};
use std::alloc::{AllocError, Global};
use std::collections::BTreeSet;

fn is_dot1ad(proto: Proto) -> bool
    ensures { result ≡ is_dot1ad proto }
{
    matches!(proto, Proto::Dot1ad)
}

// Base, number, and whether the protocol is 802.1ad.
fn key_of(kind: &Kind) -> Option<(Name, VlanId, bool)>
    ensures { result ≡ vlan_key kind.now }
{
    match kind {
        Kind::Vlan { base, id, proto } => Some((*base, *id, is_dot1ad(*proto))),
        _ => None,
    }
}

/// Whether no VLAN that the set has the key of is a twin of the link. The set then has that one's key too. After out of
/// memory it is as it was.
pub fn is_first_vlan(
    seen: &mut BTreeSet<(Name, VlanId, bool)>,
    link: &Link,
) -> Result<bool, AllocError>
    ensures first { IfOk result (λ first. first ≡ not (option_map_or (contains vlan_cmp seen.old) (vlan_key link.now.kind) false)) }
    ensures seen { OnOk result ((links : List Link) → HasVlans seen.old links → HasVlans seen.new (links ++ link.now ∷ [])) }
    ensures err { OnErr result (IsUnchanged seen.old seen.new) }
{
    match key_of(&link.kind) {
        Some(key) => {
            let new = seen.insert(key)?;
            Ok(new)
        }
        None => Ok(true),
    }
}

/// Whether the set has the key of the kind, if that is a VLAN.
pub fn has_vlan(seen: &BTreeSet<(Name, VlanId, bool)>, kind: &Kind) -> bool
    ensures { result ≡ option_map_or (contains vlan_cmp seen.now) (vlan_key kind.now) false }
{
    match key_of(kind) {
        Some(key) => seen.contains(&key),
        None => false,
    }
}

/// Takes a link's key out of the set, if it is a VLAN.
pub fn leave_out_seen(seen: &mut BTreeSet<(Name, VlanId, bool)>, link: &Link)
    ensures { Loses (λ key. has_key key link.now.kind) seen.old seen.new }
{
    match key_of(&link.kind) {
        Some(key) => {
            seen.remove(&key);
        }
        None => {}
    }
}

/// Fills an empty set with the keys of the VLANs among the links.
pub fn add_vlan_keys(
    seen: &mut BTreeSet<(Name, VlanId, bool)>,
    links: &[Link],
) -> Result<(), AllocError>
    requires { HasVlans seen.old [] }
    ensures { OnOk result (HasVlans seen.new links.now) }
{
    for at in 0..links.len() {
        is_first_vlan(seen, &links[at])?;
    }
    Ok(())
}

/// Whether no two of the links are VLANs over one base with one protocol and number.
pub fn vlans_differ(alloc: Global, links: &[Link]) -> Result<bool, AllocError>
    ensures { IfOk result (λ differ. differ ≡ vlans_differ links.now) }
{
    let mut seen = BTreeSet::new(alloc);
    for i in 0..links.len() {
        let link = &links[i];
        let first = is_first_vlan(&mut seen, link)?;
        if !first {
            return Ok(false);
        }
    }
    Ok(true)
}
