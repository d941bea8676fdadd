//! What hangs on a link: the link, and the VLANs over it in any depth.
ghost use Rattle.std.specs.Prelude.{◌≡◌, ◌++◌, true, IfOk, OnOk, IsPermutation, IsSorted};
ghost use Rattle.net_model.specs.Words.{rises};
ghost use Rattle.net_model.specs.Order.{link_cmp, name_cmp};
ghost use Rattle.net_model.specs.Links.{named_passes};
ghost use Rattle.net_model.specs.NetData.{IsNet};
ghost use Rattle.link_step.specs.Hanging.{AreAffected, is_affected, affected_among, affected_over, affected_on, hanging};

use net_core::Parts;
use net_lists::find_link;
use net_model::{Link, Name};
use std::alloc::{AllocError, Global};

// Which links a call changes, of what hangs on one. A VLAN is one of these only where its base is, so nothing over a link
// that isn't needs to be looked up.
#[derive(Clone, Copy)]
pub(crate) enum Affected {
    Each,
    // Those that are up.
    Up,
    // Those whose MTU is above this one.
    Above(u32),
}

fn is_affected(which: Affected, link: &Link) -> bool
    ensures { result ≡ is_affected which link.now }
{
    match which {
        Affected::Each => true,
        Affected::Up => link.up,
        Affected::Above(mtu) => link.mtu > mtu,
    }
}

// Whether the named link is there and is one of them.
#[tactic(auto, using(net_model::proofs::lemmas::Found::named_passes_found))]
fn is_affected_at(links: &[Link], name: &Name, which: Affected) -> bool
    requires { rises link_cmp links.now ≡ true }
    ensures { result ≡ named_passes (is_affected which) links.now name.now }
{
    find_link(links, name).is_some_and(|link| is_affected(which, link))
}

// Appends those of the names whose links are affected.
fn append_affected(
    names: &mut Vec<Name>,
    links: &[Link],
    over: &[Name],
    which: Affected,
) -> Result<(), AllocError>
    requires { rises link_cmp links.now ≡ true }
    ensures { OnOk result (names.new.items ≡ names.old.items ++ affected_among which links.now over.now) }
{
    for name in over {
        if is_affected_at(links, name, which) {
            names.push(*name)?;
        }
    }
    Ok(())
}

// Appends the names of the VLANs directly over a base that are affected. Where each is, none is looked up.
fn append_over(
    names: &mut Vec<Name>,
    parts: &Parts,
    base: &Name,
    which: Affected,
) -> Result<(), AllocError>
    requires { rises link_cmp parts.now.links ≡ true }
    ensures { OnOk result (names.new.items ≡ names.old.items ++ affected_over which parts.now.links base.now) }
{
    match which {
        Affected::Each => names.extend_from_slice(parts.over(base)),
        _ => append_affected(names, &parts.links, parts.over(base), which),
    }
}

// The names of what is affected, where the root is: its own, and for each name those of the VLANs directly over it. Each
// comes once, since a VLAN has one base and no chain of bases leads round.
fn upwards(
    alloc: Global,
    parts: &Parts,
    root: &Name,
    which: Affected,
) -> Result<Vec<Name>, AllocError>
    requires net { IsNet parts.now }
    requires there { named_passes (is_affected which) parts.now.links root.now ≡ true }
    ensures { IfOk result (λ names. AreAffected which parts.now.links root.now names.items) }
{
    let mut names = Vec::new(alloc);
    names.push(*root)?;
    let mut at = 0;
    while at < names.len() {
        let base = names[at];
        append_over(&mut names, parts, &base, which)?;
        at += 1;
    }
    Ok(names)
}

fn sort(names: &mut Vec<Name>)
    ensures sorted { IsSorted name_cmp names.new.items }
    ensures moved { IsPermutation names.old.items names.new.items }
{
    names.sort_unstable();
}

// The names of what hangs on the root and is affected, in order. Only those are gone over, each with the VLANs directly
// over it.
pub(crate) fn affected_on(
    alloc: Global,
    parts: &Parts,
    root: &Name,
    which: Affected,
) -> Result<Vec<Name>, AllocError>
    requires { IsNet parts.now }
    ensures names { IfOk result (λ names. names.items ≡ affected_on which parts.now.links root.now) }
    ensures in_order { IfOk result (λ names. rises name_cmp names.items ≡ true) }
{
    if !is_affected_at(&parts.links, root, which) {
        return Ok(Vec::new(alloc));
    }
    let mut names = upwards(alloc, parts, root, which)?;
    sort(&mut names);
    Ok(names)
}

// The names of what hangs on the root, in order.
pub(crate) fn hanging(alloc: Global, parts: &Parts, root: &Name) -> Result<Vec<Name>, AllocError>
    requires { IsNet parts.now }
    ensures names { IfOk result (λ names. names.items ≡ hanging parts.now.links root.now) }
    ensures in_order { IfOk result (λ names. rises name_cmp names.items ≡ true) }
{
    affected_on(alloc, parts, root, Affected::Each)
}
