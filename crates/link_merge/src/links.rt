//! The merged links.
ghost use Rattle.std.specs.Prelude.{◌≡◌, true, None, map, IfOk};
ghost use Rattle.net_model.specs.Name.{same_bytes};
ghost use Rattle.net_model.specs.Words.{apart};
ghost use Rattle.net_model.specs.Valid.{names_differ};
ghost use Rattle.merge_model.specs.Members.{Member, members_by_rank};
ghost use Rattle.merge_model.specs.Controllers.{with_controllers};
ghost use Rattle.merge_model.specs.Lifted.{members};
ghost use Rattle.merge_model.specs.Merged.{merged_links};
ghost use Rattle.merge_model.specs.BrokenEntries.{duplicate_name};
ghost use Rattle.merge_model.specs.Merge.{links_of};
ghost use Rattle.merge_model.specs.Places.{at_rule, first_of};
ghost use Rattle.merge_model.specs.Answers.{MergesLinks};
ghost use Rattle.link_rules.specs.Rules.{entry_rules, port_rules, shape_rules, merged_rules};

use document_model::Doc;
use link_fields::merged_links;
use link_members::{Members, with_controllers, with_lifted};
use link_order::{Entries, Member, members_by_rank};
use link_rules::{Merged, entries_broken, merged_broken, ports_broken, shape_broken};
use merge_laws::merge_laws;
use merge_model::MergeFault;
use net_core::Net;
use net_model::Link;
use std::alloc::{AllocError, Global};

// The names of the links with their controllers differ, where the entries break no rule.
fn members_differ_laws(net: &Net, entries: &Entries, list: &[Member])
    requires rules { first_of at_rule (entry_rules net.now.links entries.now) ≡ None }
    requires list { list.now ≡ with_controllers (members_by_rank net.now.links entries.now) }
    ensures { apart same_bytes (map (λ (m : Member). m.name) list.now) ≡ true }
{
    net.laws();
    merge_laws();
}

// The links of the merged state, with their controllers and with who is lifted.
fn members<'a>(
    alloc: Global,
    net: &'a Net,
    entries: &Entries<'a>,
) -> Result<Members<'a>, AllocError>
    requires { first_of at_rule (entry_rules net.now.links entries.now) ≡ None }
    ensures { IfOk result (λ ms. ms ≡ members net.now.links entries.now) }
{
    let ranked = Members::of(alloc, members_by_rank(alloc, net, entries)?)?;
    let controlled = with_controllers(alloc, &ranked)?;
    let list = controlled.as_slice();
    members_differ_laws(net, entries, list);
    let raised = with_lifted(alloc, list)?;
    Members::of(alloc, raised)
}

// The names of the merged links differ, where the entries break no rule.
fn names_differ_laws(net: &Net, entries: &Entries, state: &Members)
    requires rules { first_of at_rule (entry_rules net.now.links entries.now) ≡ None }
    requires state { state.now ≡ members net.now.links entries.now }
    ensures { names_differ (merged_links state.now) ≡ true }
{
    net.laws();
    merge_laws();
}

// The merged links, by their names.
fn merged(
    alloc: Global,
    net: &Net,
    entries: &Entries,
    state: &Members,
) -> Result<Merged, AllocError>
    requires rules { first_of at_rule (entry_rules net.now.links entries.now) ≡ None }
    requires state { state.now ≡ members net.now.links entries.now }
    ensures { IfOk result (λ merged. merged ≡ links_of net.now.links entries.now) }
{
    let links = merged_links(alloc, state)?;
    names_differ_laws(net, entries, state);
    Merged::of(alloc, links)
}

// The merge where the entries break no rule.
fn merge_entries<'a>(
    alloc: Global,
    net: &'a Net,
    doc: &Doc,
    entries: &Entries<'a>,
) -> Result<Vec<Link>, MergeFault>
    requires rules { first_of at_rule (entry_rules net.now.links entries.now) ≡ None }
    requires entries { entries.now ≡ doc.now.links }
    ensures { MergesLinks net.now doc.now result }
{
    let _ = doc;
    let members = members(alloc, net, entries)?;
    let wrong = ports_broken(alloc, &members)?;
    if let Some(refused) = wrong {
        return Err(MergeFault::Refused(refused));
    }
    names_differ_laws(net, entries, &members);
    let stuck = shape_broken(alloc, &members)?;
    if let Some(refused) = stuck {
        return Err(MergeFault::Refused(refused));
    }
    let merged = merged(alloc, net, entries, &members)?;
    let broken = merged_broken(alloc, &members, &merged)?;
    if let Some(refused) = broken {
        return Err(MergeFault::Refused(refused));
    }
    Ok(merged.into_links())
}

/// The merged links by rank, or the least of rules 1 to 17 that the document breaks, at its first place. It may run out of
/// memory at any time.
pub fn merge_links(alloc: Global, net: &Net, doc: &Doc) -> Result<Vec<Link>, MergeFault>
    ensures { MergesLinks net.now doc.now result }
{
    let entries = Entries::of(alloc, doc.links.items().as_slice())?;
    match entries_broken(net, &entries) {
        Some(refused) => Err(MergeFault::Refused(refused)),
        None => merge_entries(alloc, net, doc, &entries),
    }
}
