//! The type of a merged link and its details: stated, else current where the type is the current one, else default.
ghost use Rattle.std.specs.Prelude.{◌≡◌, Some, option_copied};
ghost use Rattle.std.specs.Option.{option_map, option_or, option_and_then};
ghost use Rattle.document_model.specs.declared.KindWord.TheVariants.{Bond as ABond, Vlan as AVlan, Vrf as AVrf, Veth as AVeth};
ghost use Rattle.net_model.specs.Links.{peer_of};
ghost use Rattle.merge_model.specs.Kinds.{word_of, same_type, same_mode, permanent_of, mode_of, base_of, id_of, proto_of, table_of, vlan_of, kind_by, merged_kind};

use document_model::{KindWord, LinkEntry};
use net_lists::peer_of;
use net_model::{BondMode, Kind, Link, Mac, Name, Proto, TableId, VlanId};

fn word_of(kind: &Kind) -> KindWord
    ensures { result ≡ word_of kind.now }
{
    match kind {
        Kind::Ethernet { .. } => KindWord::Ethernet,
        Kind::Bond { .. } => KindWord::Bond,
        Kind::Bridge => KindWord::Bridge,
        Kind::Vlan { .. } => KindWord::Vlan,
        Kind::Vrf { .. } => KindWord::Vrf,
        Kind::Dummy => KindWord::Dummy,
        Kind::Veth { .. } => KindWord::Veth,
    }
}

/// Whether both are of one type, whatever their details.
pub fn same_type(a: &Kind, b: &Kind) -> bool
    ensures { result ≡ same_type a.now b.now }
{
    match a {
        Kind::Ethernet { .. } => matches!(b, Kind::Ethernet { .. }),
        Kind::Bond { .. } => matches!(b, Kind::Bond { .. }),
        Kind::Bridge => matches!(b, Kind::Bridge),
        Kind::Vlan { .. } => matches!(b, Kind::Vlan { .. }),
        Kind::Vrf { .. } => matches!(b, Kind::Vrf { .. }),
        Kind::Dummy => matches!(b, Kind::Dummy),
        Kind::Veth { .. } => matches!(b, Kind::Veth { .. }),
    }
}

/// Whether both are bonds of one mode.
pub fn same_mode(a: &Kind, b: &Kind) -> bool
    ensures { result ≡ same_mode a.now b.now }
{
    match a {
        Kind::Bond { mode: one } => match b {
            Kind::Bond { mode: other } => one.number() == other.number(),
            _ => false,
        },
        _ => false,
    }
}

/// The MAC that the device was built with.
pub fn permanent_of(kind: &Kind) -> Option<Mac>
    ensures { result ≡ permanent_of kind.now }
{
    match kind {
        Kind::Ethernet { permanent } => Some(*permanent),
        _ => None,
    }
}

fn mode_of(kind: &Kind) -> Option<BondMode>
    ensures { result ≡ mode_of kind.now }
{
    match kind {
        Kind::Bond { mode } => Some(*mode),
        _ => None,
    }
}

/// The name of a VLAN's base.
pub fn base_of(kind: &Kind) -> Option<Name>
    ensures { result ≡ base_of kind.now }
{
    match kind {
        Kind::Vlan { base, .. } => Some(*base),
        _ => None,
    }
}

fn id_of(kind: &Kind) -> Option<VlanId>
    ensures { result ≡ id_of kind.now }
{
    match kind {
        Kind::Vlan { id, .. } => Some(*id),
        _ => None,
    }
}

fn proto_of(kind: &Kind) -> Option<Proto>
    ensures { result ≡ proto_of kind.now }
{
    match kind {
        Kind::Vlan { proto, .. } => Some(*proto),
        _ => None,
    }
}

fn table_of(kind: &Kind) -> Option<TableId>
    ensures { result ≡ table_of kind.now }
{
    match kind {
        Kind::Vrf { table } => Some(*table),
        _ => None,
    }
}

/// The kind of a link of the running network, if there is one.
pub fn kind_of<'a>(old: Option<&'a Link>) -> Option<&'a Kind>
    ensures { option_copied result ≡ option_map (λ l. l.kind) (option_copied old.entry) }
{
    match old {
        Some(link) => Some(&link.kind),
        None => None,
    }
}

fn permanent_now(now: Option<&Kind>) -> Option<Mac>
    ensures { result ≡ option_and_then permanent_of (option_copied now.entry) }
{
    match now {
        Some(kind) => permanent_of(kind),
        None => None,
    }
}

fn mode_now(now: Option<&Kind>) -> Option<BondMode>
    ensures { result ≡ option_and_then mode_of (option_copied now.entry) }
{
    match now {
        Some(kind) => mode_of(kind),
        None => None,
    }
}

fn base_now(now: Option<&Kind>) -> Option<Name>
    ensures { result ≡ option_and_then base_of (option_copied now.entry) }
{
    match now {
        Some(kind) => base_of(kind),
        None => None,
    }
}

fn id_now(now: Option<&Kind>) -> Option<VlanId>
    ensures { result ≡ option_and_then id_of (option_copied now.entry) }
{
    match now {
        Some(kind) => id_of(kind),
        None => None,
    }
}

fn proto_now(now: Option<&Kind>) -> Option<Proto>
    ensures { result ≡ option_and_then proto_of (option_copied now.entry) }
{
    match now {
        Some(kind) => proto_of(kind),
        None => None,
    }
}

fn table_now(now: Option<&Kind>) -> Option<TableId>
    ensures { result ≡ option_and_then table_of (option_copied now.entry) }
{
    match now {
        Some(kind) => table_of(kind),
        None => None,
    }
}

fn peer_now(now: Option<&Kind>) -> Option<Name>
    ensures { result ≡ option_and_then peer_of (option_copied now.entry) }
{
    match now {
        Some(kind) => peer_of(kind),
        None => None,
    }
}

fn ethernet_kind(now: Option<&Kind>) -> Option<Kind>
    ensures { result ≡ option_map (λ permanent. Kind.Ethernet permanent) (option_and_then permanent_of (option_copied now.entry)) }
{
    match permanent_now(now) {
        Some(permanent) => Some(Kind::Ethernet { permanent }),
        None => None,
    }
}

fn bond_kind(entry: &LinkEntry, now: Option<&Kind>) -> Option<Kind>
    ensures { result ≡ kind_by (Some ABond) entry.now (option_copied now.entry) }
{
    match entry.bond.mode.or(mode_now(now)) {
        Some(mode) => Some(Kind::Bond { mode }),
        None => None,
    }
}

fn vlan_of(base: Option<Name>, id: Option<VlanId>, proto: Proto) -> Option<Kind>
    ensures { result ≡ vlan_of base id proto }
{
    match (base, id) {
        (Some(base), Some(id)) => Some(Kind::Vlan { base, id, proto }),
        _ => None,
    }
}

fn vlan_kind(entry: &LinkEntry, now: Option<&Kind>) -> Option<Kind>
    ensures { result ≡ kind_by (Some AVlan) entry.now (option_copied now.entry) }
{
    let vlan = entry.vlan;
    let base = vlan.base.or(base_now(now));
    let id = vlan.id.or(id_now(now));
    let proto = vlan.proto.or(proto_now(now));
    vlan_of(base, id, proto.unwrap_or(Proto::Dot1q))
}

fn vrf_kind(entry: &LinkEntry, now: Option<&Kind>) -> Option<Kind>
    ensures { result ≡ kind_by (Some AVrf) entry.now (option_copied now.entry) }
{
    match entry.vrf.table.or(table_now(now)) {
        Some(table) => Some(Kind::Vrf { table }),
        None => None,
    }
}

fn veth_kind(entry: &LinkEntry, now: Option<&Kind>) -> Option<Kind>
    ensures { result ≡ kind_by (Some AVeth) entry.now (option_copied now.entry) }
{
    match entry.veth.peer.or(peer_now(now)) {
        Some(peer) => Some(Kind::Veth { peer }),
        None => None,
    }
}

fn kind_by(word: KindWord, entry: &LinkEntry, now: Option<&Kind>) -> Option<Kind>
    ensures { result ≡ kind_by (Some word) entry.now (option_copied now.entry) }
{
    match word {
        KindWord::Ethernet => ethernet_kind(now),
        KindWord::Bond => bond_kind(entry, now),
        KindWord::Bridge => Some(Kind::Bridge),
        KindWord::Vlan => vlan_kind(entry, now),
        KindWord::Vrf => vrf_kind(entry, now),
        KindWord::Dummy => Some(Kind::Dummy),
        KindWord::Veth => veth_kind(entry, now),
    }
}

// The stated type, else the current one.
fn word_by(stated: Option<KindWord>, now: Option<&Kind>) -> Option<KindWord>
    ensures { result ≡ option_or stated (option_map word_of (option_copied now.entry)) }
{
    match stated {
        Some(word) => Some(word),
        None => match now {
            Some(kind) => Some(word_of(kind)),
            None => None,
        },
    }
}

/// The kind of the merged link, where neither its type nor a detail is missing.
pub fn merged_kind(entry: &LinkEntry, now: Option<&Kind>) -> Option<Kind>
    ensures { result ≡ merged_kind entry.now (option_copied now.entry) }
{
    let stated = entry.word;
    match word_by(stated, now) {
        Some(word) => kind_by(word, entry, now),
        None => None,
    }
}
