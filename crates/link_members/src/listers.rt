//! Which stated list of ports names a link.
ghost use Rattle.std.specs.Prelude.{◌≡◌, ◌&&◌, ◌||◌, ℕ, List, Some, None, find, if◌then◌else◌, option_copied, IfOk, OnOk};
ghost use Rattle.std.specs.Option.{option_or};
ghost use Rattle.std.specs.BTreeMap.{get};
ghost use Rattle.std.specs.BTreeSet.{contains};
ghost use Rattle.net_model.specs.Name.{same_bytes};
ghost use Rattle.net_model.specs.Words.{is_among};
ghost use Rattle.net_model.specs.Order.{name_cmp};
ghost use Rattle.merge_model.specs.Controllers.{lists};
ghost use Rattle.link_members.specs.Listers.{is_rival, HasFirsts, HasContested};

use crate::port_lists::stated_ports;
use link_order::{Member, first_place, note};
use net_model::Name;
use std::alloc::{AllocError, Global};
use std::collections::{BTreeMap, BTreeSet};

// Takes the place of each of the names that has none.
fn note_all(firsts: &mut BTreeMap<Name, usize>, names: &[Name], at: usize) -> Result<(), AllocError>
    ensures { OnOk result ((q : List ℕ) → get name_cmp firsts.new q ≡ option_or (get name_cmp firsts.old q) (if is_among names.now q then Some at else None)) }
{
    for name in names {
        note(firsts, *name, at)?;
    }
    Ok(())
}

/// For each name in a stated list of ports, the place of the first link whose list it is in.
pub(crate) fn first_listers(
    alloc: Global,
    members: &[Member],
) -> Result<BTreeMap<Name, usize>, AllocError>
    ensures { IfOk result (λ firsts. HasFirsts members.now firsts) }
{
    let mut firsts = BTreeMap::new(alloc);
    for at in 0..members.len() {
        let ports = stated_ports(alloc, &members[at])?;
        note_all(&mut firsts, &ports, at)?;
    }
    Ok(firsts)
}

/// The first link whose stated list names the link.
pub(crate) fn first_lister<'a, 'b>(
    members: &'b [Member<'a>],
    firsts: &BTreeMap<Name, usize>,
    name: &Name,
) -> Option<&'b Member<'a>>
    requires { HasFirsts members.now firsts.now }
    ensures { option_copied result ≡ find (λ m. lists m name.now) members.now }
{
    match first_place(firsts, name) {
        Some(at) => Some(&members[at]),
        None => None,
    }
}

// Whether the first link whose list names the link has another name than this one.
fn is_rival(members: &[Member], firsts: &BTreeMap<Name, usize>, name: &Name, lister: &Name) -> bool
    requires { HasFirsts members.now firsts.now }
    ensures { result ≡ is_rival members.now name.now lister.now }
{
    match first_lister(members, firsts, name) {
        Some(member) => member.name() != *lister,
        None => false,
    }
}

// Puts the name into the set where its lister is a rival.
fn contest(contested: &mut BTreeSet<Name>, name: Name, rival: bool) -> Result<(), AllocError>
    ensures { OnOk result ((q : List ℕ) → contains name_cmp contested.new q ≡ (contains name_cmp contested.old q || (same_bytes name q && rival))) }
{
    if rival {
        contested.insert(name)?;
    }
    Ok(())
}

// Puts those of the names into the set of which the lister is a rival.
fn contest_all(
    contested: &mut BTreeSet<Name>,
    members: &[Member],
    firsts: &BTreeMap<Name, usize>,
    names: &[Name],
    lister: &Name,
) -> Result<(), AllocError>
    requires { HasFirsts members.now firsts.now }
    ensures { OnOk result ((q : List ℕ) → contains name_cmp contested.new q
        ≡ (contains name_cmp contested.old q || (is_among names.now q && is_rival members.now q lister.now))) }
{
    for name in names {
        let rival = is_rival(members, firsts, name, lister);
        contest(contested, *name, rival)?;
    }
    Ok(())
}

/// The names that the lists of two links of different names have.
pub(crate) fn contested_names(
    alloc: Global,
    members: &[Member],
    firsts: &BTreeMap<Name, usize>,
) -> Result<BTreeSet<Name>, AllocError>
    requires { HasFirsts members.now firsts.now }
    ensures { IfOk result (λ contested. HasContested members.now contested) }
{
    let mut contested = BTreeSet::new(alloc);
    for at in 0..members.len() {
        let member = &members[at];
        let ports = stated_ports(alloc, member)?;
        contest_all(&mut contested, members, firsts, &ports, &member.name())?;
    }
    Ok(contested)
}
