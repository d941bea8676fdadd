//! The links that veths imply: the other end of each pair, where nothing is heard of its name.
ghost use Rattle.std.specs.Prelude.{◌≡◌, ◌++◌, [], IfOk, OnOk};
ghost use Rattle.std.specs.List.{filter_map};
ghost use Rattle.std.specs.Option.{option_map_or};
ghost use Rattle.merge_model.specs.Members.{entered_over, is_unheard, other_end, implied_by, implied};
ghost use Rattle.link_order.specs.Implied.{HasNames, further};

use crate::entries::Entries;
use crate::member::Member;
use document_model::Wish;
use net_core::Net;
use net_lists::peer_of;
use net_model::{Kind, Name};
use std::alloc::{AllocError, Global};
use std::collections::BTreeSet;

// Whether neither a link nor an entry has the name.
fn is_unheard(net: &Net, entries: &Entries, name: &Name) -> bool
    ensures { result ≡ is_unheard net.now.links entries.now name.now }
{
    net.link(name).is_none() && entries.find(name).is_none()
}

// The new link that an entry would make that states this name, the type and this peer, and nothing else.
fn other_end<'a>(name: Name, peer: Name) -> Member<'a>
    ensures { result ≡ other_end name peer }
{
    Member::of(name, Kind::Veth { peer }, None, None, Some(Wish::Up))
}

fn implied_by<'a>(net: &Net, entries: &Entries, member: &Member) -> Option<Member<'a>>
    ensures { result ≡ implied_by net.now.links entries.now member.now }
{
    let kind = member.kind();
    match peer_of(&kind) {
        Some(peer) => {
            if is_unheard(net, entries, &peer) {
                Some(other_end(peer, member.name()))
            } else {
                None
            }
        }
        None => None,
    }
}

// One more, unless one of its name is there.
fn push_new<'a>(
    members: &mut Vec<Member<'a>>,
    names: &mut BTreeSet<Name>,
    member: Member<'a>,
) -> Result<(), AllocError>
    requires { HasNames members.now.items names.now }
    ensures members { OnOk result (members.new.items ≡ members.old.items ++ further members.old.items member.entry) }
    ensures names { OnOk result (HasNames members.new.items names.new) }
{
    if names.contains(&member.name()) {
        return Ok(());
    }
    names.insert(member.name())?;
    members.push(member)?;
    Ok(())
}

fn push_implied<'a>(
    members: &mut Vec<Member<'a>>,
    names: &mut BTreeSet<Name>,
    found: Option<Member<'a>>,
) -> Result<(), AllocError>
    requires { HasNames members.now.items names.now }
    ensures members { OnOk result (members.new.items ≡ members.old.items ++ option_map_or (further members.old.items) found.entry []) }
    ensures names { OnOk result (HasNames members.new.items names.new) }
{
    if let Some(member) = found {
        push_new(members, names, member)?;
    }
    Ok(())
}

/// The links that those of the entries imply: in their order, of each name the first.
pub(crate) fn implied<'a>(
    alloc: Global,
    net: &Net,
    entries: &Entries,
    made: &[Member],
) -> Result<Vec<Member<'a>>, AllocError>
    requires { made.now ≡ filter_map (entered_over net.now.links) entries.now }
    ensures { IfOk result (λ members. members.items ≡ implied net.now.links entries.now) }
{
    let mut members = Vec::new(alloc);
    let mut names = BTreeSet::new(alloc);
    for member in made {
        push_implied(&mut members, &mut names, implied_by(net, entries, member))?;
    }
    Ok(members)
}
