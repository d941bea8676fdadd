//! `bridge` of an interface.
ghost use Rattle.std.specs.Prelude.{◌≡◌, ◌&&◌, true, IfOk};
ghost use Rattle.doc_tree.specs.Shape.{shape};
ghost use Rattle.base_model.specs.Lists.{is_short};
ghost use Rattle.document_model.specs.Entries.{is_port_entry, is_bridge_entry, passes};
ghost use Rattle.tree_schema.specs.Reached.{Answers};
ghost use Rattle.link_schema.specs.Bridge.{stp_table, bridge_option_table, port_table, is_port_draft, port, port_of, bridge_table, bridge, no_bridge};

use crate::draft::PortDraft;
use crate::words::{noted, number_u8, number_u16};
use doc_tree::Tree;
use document_model::{BridgeEntry, PortEntry};
use tree_schema::{
    Item, Reader, Reason, Section, Stop, boolean, name, needed, number, read_list, read_map,
};

struct Stp;

impl Section for Stp {
    type Entry = BridgeEntry;

    ghost table = { λ _. stp_table };

    ghost holds = { λ _ e. is_bridge_entry e && passes is_short e.ports };

    fn read_key(
        &self,
        reader: &mut Reader,
        key: &str,
        value: &Tree,
        entry: &mut BridgeEntry,
    ) -> Result<(), Stop> {
        match key {
            "enabled" => {
                entry.stp = Some(boolean(value)?);
                Ok(())
            }
            "priority" => {
                entry.priority = Some(number_u16(0, 65535, value)?);
                Ok(())
            }
            "forward-delay" => {
                entry.forward_delay = Some(number_u8(2, 30, value)?);
                Ok(())
            }
            "hello-time" => {
                entry.hello_time = Some(number_u8(1, 10, value)?);
                Ok(())
            }
            "max-age" => {
                entry.max_age = Some(number_u8(6, 40, value)?);
                Ok(())
            }
            _ => noted(reader, entry),
        }
    }
}

struct BridgeOptions;

impl Section for BridgeOptions {
    type Entry = BridgeEntry;

    ghost table = { λ _. bridge_option_table };

    ghost holds = { λ _ e. is_bridge_entry e && passes is_short e.ports };

    fn read_key(
        &self,
        reader: &mut Reader,
        key: &str,
        value: &Tree,
        entry: &mut BridgeEntry,
    ) -> Result<(), Stop> {
        match key {
            "mac-ageing-time" => {
                entry.mac_ageing = Some(number(0, u32::MAX, value)?);
                Ok(())
            }
            "stp" => read_map(&Stp, reader, value, entry),
            _ => noted(reader, entry),
        }
    }
}

struct PortKeys;

impl Section for PortKeys {
    type Entry = PortDraft;

    ghost table = { λ _. port_table };

    ghost holds = { λ _ e. is_port_draft e };

    fn read_key(
        &self,
        reader: &mut Reader,
        key: &str,
        value: &Tree,
        entry: &mut PortDraft,
    ) -> Result<(), Stop> {
        match key {
            "name" => {
                entry.name = Some(name(value)?);
                Ok(())
            }
            "stp-path-cost" => {
                entry.cost = Some(number_u16(1, 65535, value)?);
                Ok(())
            }
            "stp-priority" => {
                entry.priority = Some(number_u8(0, 63, value)?);
                Ok(())
            }
            "stp-hairpin-mode" => {
                entry.hairpin = Some(boolean(value)?);
                Ok(())
            }
            _ => noted(reader, entry),
        }
    }
}

fn port_of(reader: &mut Reader, draft: PortDraft) -> Result<PortEntry, Stop>
    requires { is_port_draft draft ≡ true }
    ensures read { Answers (port_of draft) reader.old reader.new result }
    ensures right { IfOk result (λ e. is_port_entry e ≡ true) }
{
    let name = needed(reader, "name", draft.name)?;
    Ok(PortEntry {
        name,
        cost: draft.cost,
        priority: draft.priority,
        hairpin: draft.hairpin,
    })
}

struct Ports;

impl Item for Ports {
    type Value = PortEntry;

    ghost reading = { λ _. port };

    ghost holds = { λ _ e. is_port_entry e };

    fn read(&self, reader: &mut Reader, tree: &Tree) -> Result<Option<PortEntry>, Stop> {
        let mut draft = PortDraft {
            name: None,
            cost: None,
            priority: None,
            hairpin: None,
        };
        read_map(&PortKeys, reader, tree, &mut draft)?;
        Ok(Some(port_of(reader, draft)?))
    }
}

struct BridgeKeys;

impl Section for BridgeKeys {
    type Entry = BridgeEntry;

    ghost table = { λ _. bridge_table };

    ghost holds = { λ _ e. is_bridge_entry e && passes is_short e.ports };

    fn read_key(
        &self,
        reader: &mut Reader,
        key: &str,
        value: &Tree,
        entry: &mut BridgeEntry,
    ) -> Result<(), Stop> {
        match key {
            "options" => read_map(&BridgeOptions, reader, value, entry),
            "port" => {
                entry.ports = Some(read_list(&Ports, reader, value)?);
                Ok(())
            }
            _ => Err(Stop::Refused(Reason::UnknownKey)),
        }
    }
}

/// Nothing is stated.
pub(crate) fn no_bridge() -> BridgeEntry
    ensures { result ≡ no_bridge }
{
    BridgeEntry {
        stp: None,
        priority: None,
        forward_delay: None,
        hello_time: None,
        max_age: None,
        mac_ageing: None,
        ports: None,
    }
}

pub(crate) fn bridge(reader: &mut Reader, tree: &Tree) -> Result<BridgeEntry, Stop>
    ensures read { Answers (bridge (shape tree.now)) reader.old reader.new result }
    ensures right { IfOk result (λ e. is_bridge_entry e && passes is_short e.ports ≡ true) }
{
    let mut entry = no_bridge();
    read_map(&BridgeKeys, reader, tree, &mut entry)?;
    Ok(entry)
}
