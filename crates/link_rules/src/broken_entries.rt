//! The rules 1 to 5 of the merge, which are asked of the entries of links.
ghost use Rattle.std.specs.Prelude.{◌≡◌, ◌&&◌, [], not, find, false, is_none, option_copied};
ghost use Rattle.std.specs.Option.{option_map_or, option_map};
ghost use Rattle.net_model.specs.Name.{same_bytes};
ghost use Rattle.net_model.specs.Links.{find_link};
ghost use Rattle.merge_model.specs.Stated.{is_absent};
ghost use Rattle.merge_model.specs.Kinds.{merged_kind};
ghost use Rattle.merge_model.specs.Places.{at_entry, first_second};
ghost use Rattle.merge_model.specs.BrokenEntries.{duplicate_name, is_new, no_type, is_ethernet_word, no_device, changes_device, physical_kind, missing_detail};

use document_model::{KindWord, LinkEntry, Place};
use link_order::{Entries, is_absent, kind_of, merged_kind};
use net_core::Net;
use net_lists::is_ethernet;
use net_model::Link;

fn at_entry(found: Option<&LinkEntry>) -> Option<Place>
    ensures { result ≡ at_entry (option_copied found.entry) }
{
    match found {
        Some(entry) => Some(Place::Link(entry.name)),
        None => None,
    }
}

fn first_again<'a>(entries: &Entries, list: &'a [LinkEntry]) -> Option<&'a LinkEntry>
    requires { list.now ≡ entries.now }
    ensures { option_copied result ≡ first_second (λ a b. same_bytes a.name b.name) [] list.now }
{
    for i in 0..list.len() {
        let entry = &list[i];
        if entries.is_named_before(&entry.name, i) {
            return Some(entry);
        }
    }
    None
}

/// The place of rule 1: two entries have one name.
pub(crate) fn duplicate_name(entries: &Entries) -> Option<Place>
    ensures { result ≡ duplicate_name entries.now }
{
    at_entry(first_again(entries, entries.list()))
}

fn is_new(net: &Net, entry: &LinkEntry) -> bool
    ensures { result ≡ is_new net.now.links entry.now }
{
    net.link(&entry.name).is_none() && !is_absent(entry.wish)
}

fn lacks_type(net: &Net, entry: &LinkEntry) -> bool
    ensures { result ≡ (is_new net.now.links entry.now && is_none entry.now.word) }
{
    is_new(net, entry) && entry.word.is_none()
}

fn first_without_type<'a>(net: &Net, entries: &'a [LinkEntry]) -> Option<&'a LinkEntry>
    ensures { option_copied result ≡ find (λ e. is_new net.now.links e && is_none e.word) entries.now }
{
    entries.iter().find(|entry| lacks_type(net, entry))
}

/// The place of rule 2: a new name has no type.
pub(crate) fn no_type(net: &Net, entries: &[LinkEntry]) -> Option<Place>
    ensures { result ≡ no_type net.now.links entries.now }
{
    at_entry(first_without_type(net, entries))
}

fn is_ethernet_word(word: KindWord) -> bool
    ensures { result ≡ is_ethernet_word word }
{
    matches!(word, KindWord::Ethernet)
}

fn states_ethernet(word: Option<KindWord>) -> bool
    ensures { result ≡ option_map_or is_ethernet_word word false }
{
    match word {
        Some(word) => is_ethernet_word(word),
        None => false,
    }
}

fn makes_device(net: &Net, entry: &LinkEntry) -> bool
    ensures { result ≡ (is_new net.now.links entry.now && option_map_or is_ethernet_word entry.now.word false) }
{
    is_new(net, entry) && states_ethernet(entry.word)
}

fn first_new_device<'a>(net: &Net, entries: &'a [LinkEntry]) -> Option<&'a LinkEntry>
    ensures { option_copied result ≡ find (λ e. is_new net.now.links e && option_map_or is_ethernet_word e.word false) entries.now }
{
    entries.iter().find(|entry| makes_device(net, entry))
}

/// The place of rule 3: a new name has the type of devices, which can't be made.
pub(crate) fn no_device(net: &Net, entries: &[LinkEntry]) -> Option<Place>
    ensures { result ≡ no_device net.now.links entries.now }
{
    at_entry(first_new_device(net, entries))
}

fn changes_device(entry: &LinkEntry, link: &Link) -> bool
    ensures { result ≡ changes_device entry.now link.now }
{
    match entry.word {
        Some(word) => is_ethernet_word(word) != is_ethernet(&link.kind),
        None => false,
    }
}

fn changes_named_device(net: &Net, entry: &LinkEntry) -> bool
    ensures { result ≡ option_map_or (changes_device entry.now) (find_link entry.now.name net.now.links) false }
{
    match net.link(&entry.name) {
        Some(link) => changes_device(entry, link),
        None => false,
    }
}

fn breaks_physical_kind(net: &Net, entry: &LinkEntry) -> bool
    ensures { result ≡ (not (is_absent entry.now.wish) && option_map_or (changes_device entry.now) (find_link entry.now.name net.now.links) false) }
{
    !is_absent(entry.wish) && changes_named_device(net, entry)
}

fn first_device_change<'a>(net: &Net, entries: &'a [LinkEntry]) -> Option<&'a LinkEntry>
    ensures { option_copied result ≡ find (λ e. not (is_absent e.wish) && option_map_or (changes_device e) (find_link e.name net.now.links) false) entries.now }
{
    entries
        .iter()
        .find(|entry| breaks_physical_kind(net, entry))
}

/// The place of rule 4: an entry would change a device's type or make a link a device.
pub(crate) fn physical_kind(net: &Net, entries: &[LinkEntry]) -> Option<Place>
    ensures { result ≡ physical_kind net.now.links entries.now }
{
    at_entry(first_device_change(net, entries))
}

fn lacks_detail(net: &Net, entry: &LinkEntry) -> bool
    ensures { result ≡ (not (is_absent entry.now.wish) && is_none (merged_kind entry.now (option_map (λ l. l.kind) (find_link entry.now.name net.now.links)))) }
{
    !is_absent(entry.wish) && merged_kind(entry, kind_of(net.link(&entry.name))).is_none()
}

fn first_without_detail<'a>(net: &Net, entries: &'a [LinkEntry]) -> Option<&'a LinkEntry>
    ensures { option_copied result ≡ find
        (λ e. not (is_absent e.wish) &&
        is_none (merged_kind e (option_map (λ l. l.kind) (find_link e.name net.now.links)))) entries.now }
{
    entries.iter().find(|entry| lacks_detail(net, entry))
}

/// The place of rule 5: a bond has no mode, a VLAN no base or number, a VRF no table, a veth no peer.
pub(crate) fn missing_detail(net: &Net, entries: &[LinkEntry]) -> Option<Place>
    ensures { result ≡ missing_detail net.now.links entries.now }
{
    at_entry(first_without_detail(net, entries))
}
