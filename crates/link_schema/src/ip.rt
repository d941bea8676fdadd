//! `ipv4` and `ipv6` of an interface.
ghost use Rattle.std.specs.Prelude.{◌≡◌, ◌&&◌, true, false, nat_le, IfOk};
ghost use Rattle.doc_tree.specs.Shape.{shape};
ghost use Rattle.document_model.specs.Entries.{is_own, is_ip_entry, has_short_addrs};
ghost use Rattle.std.specs.Option.{option_map_or};
ghost use Rattle.net_model.specs.OnLink.{is_link_local};
ghost use Rattle.net_model.specs.Address.{max_len};
ghost use Rattle.tree_schema.specs.Reached.{Answers};
ghost use Rattle.tree_schema.specs.Values.{number};
ghost use Rattle.link_schema.specs.Ip.{address_table, is_address_draft, address_of, is_link_local_text, has_link_local, address, ip_table, ip};

use crate::draft::AddressDraft;
use crate::words::{addr_in, noted, off, own_address};
use doc_tree::Tree;
use document_model::IpEntry;
use net_model::{Addr, Prefix, max_len};
use tree_schema::{
    Item, Reader, Reason, Section, Stop, boolean, needed, number, read_list, read_map, value_under,
};

fn address_len(v6: bool, tree: &Tree) -> Result<u8, Reason>
    ensures read { result ≡ number 0 (max_len v6) (shape tree.now) }
    ensures right { IfOk result (λ n. nat_le n (max_len v6) ≡ true) }
{
    Ok(number(0, max_len(v6) as u32, tree)? as u8)
}

#[derive(Clone, Copy)]
struct AddressKeys {
    v6: bool,
}

impl Section for AddressKeys {
    type Entry = AddressDraft;

    ghost table = { λ s. address_table s.v6 };

    ghost holds = { λ s e. is_address_draft s.v6 e };

    fn read_key(
        &self,
        reader: &mut Reader,
        key: &str,
        value: &Tree,
        entry: &mut AddressDraft,
    ) -> Result<(), Stop> {
        match key {
            "ip" => {
                entry.ip = Some(own_address(self.v6, value)?);
                Ok(())
            }
            "prefix-length" => {
                entry.len = Some(address_len(self.v6, value)?);
                Ok(())
            }
            "valid-life-time" | "preferred-life-time" => noted(reader, entry),
            _ => Err(Stop::Refused(Reason::UnknownKey)),
        }
    }
}

fn address_of(v6: bool, reader: &mut Reader, draft: AddressDraft) -> Result<Prefix, Stop>
    requires { is_address_draft v6 draft ≡ true }
    ensures read { Answers (address_of draft) reader.old reader.new result }
    ensures right { IfOk result (λ b. is_own v6 b.addr ≡ true) }
{
    let ip = needed(reader, "ip", draft.ip)?;
    let len = needed(reader, "prefix-length", draft.len)?;
    match Prefix::of(ip, len) {
        Some(prefix) => Ok(prefix),
        None => Err(Stop::OutOfMemory),
    }
}

fn is_link_local(addr: Option<Addr>) -> bool
    ensures { result ≡ option_map_or is_link_local addr false }
{
    match addr {
        Some(addr) => addr.is_link_local(),
        None => false,
    }
}

fn is_link_local_text(text: &str) -> bool
    ensures { result ≡ is_link_local_text text.now }
{
    is_link_local(addr_in(text))
}

fn has_link_local(tree: &Tree) -> bool
    ensures { result ≡ has_link_local (shape tree.now) }
{
    match value_under("ip", tree) {
        Some(Tree::Text(text)) => is_link_local_text(text.as_str()),
        _ => false,
    }
}

#[derive(Clone, Copy)]
struct Addresses {
    v6: bool,
}

impl Item for Addresses {
    type Value = Prefix;

    ghost reading = { λ s. address s.v6 };

    ghost holds = { λ s b. is_own s.v6 b.addr };

    fn read(&self, reader: &mut Reader, tree: &Tree) -> Result<Option<Prefix>, Stop> {
        if self.v6 && has_link_local(tree) {
            reader.note()?;
            return Ok(None);
        }
        let mut draft = AddressDraft {
            ip: None,
            len: None,
        };
        read_map(&AddressKeys { v6: self.v6 }, reader, tree, &mut draft)?;
        Ok(Some(address_of(self.v6, reader, draft)?))
    }
}

#[derive(Clone, Copy)]
struct IpKeys {
    v6: bool,
}

impl Section for IpKeys {
    type Entry = IpEntry;

    ghost table = { λ s. ip_table s.v6 };

    ghost holds = { λ s e. is_ip_entry s.v6 e && has_short_addrs e };

    fn read_key(
        &self,
        reader: &mut Reader,
        key: &str,
        value: &Tree,
        entry: &mut IpEntry,
    ) -> Result<(), Stop> {
        match key {
            "enabled" => {
                entry.enabled = Some(boolean(value)?);
                Ok(())
            }
            "dhcp" => {
                off(value)?;
                Ok(())
            }
            "autoconf" if self.v6 => {
                off(value)?;
                Ok(())
            }
            "address" => {
                entry.addrs = Some(read_list(&Addresses { v6: self.v6 }, reader, value)?);
                Ok(())
            }
            "auto-dns"
            | "auto-gateway"
            | "auto-routes"
            | "auto-route-table-id"
            | "addr-gen-mode"
            | "allow-extra-address"
            | "forwarding" => noted(reader, entry),
            _ => Err(Stop::Refused(Reason::UnknownKey)),
        }
    }
}

pub(crate) fn ip(v6: bool, reader: &mut Reader, tree: &Tree) -> Result<IpEntry, Stop>
    ensures read { Answers (ip v6 (shape tree.now)) reader.old reader.new result }
    ensures right { IfOk result (λ e. is_ip_entry v6 e && has_short_addrs e ≡ true) }
{
    let mut entry = IpEntry {
        enabled: None,
        addrs: None,
    };
    read_map(&IpKeys { v6 }, reader, tree, &mut entry)?;
    Ok(entry)
}
