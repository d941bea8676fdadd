//! What the values of interfaces are looked at as.
ghost use Rattle.std.specs.Prelude.{◌≡◌, ◌==◌, not, true, IfOk, IfSome};
ghost use Rattle.std.specs.Prelude.{option_and_then};
ghost use Rattle.std.specs.List.{list_any};
ghost use Rattle.base_model.specs.Lists.{is_short};
ghost use Rattle.document_model.specs.Entries.{is_own, is_station};
ghost use Rattle.net_model.specs.Options.{is_within};
ghost use Rattle.net_text.specs.AddrText.{addr_of, hardware_of};
ghost use Rattle.tree_schema.specs.Reached.{Answers, Changes};
ghost use Rattle.tree_schema.specs.Reading.{given_over, item};
ghost use Rattle.tree_schema.specs.Values.{passing, name, number};
ghost use Rattle.doc_tree.specs.Shape.{shape};
ghost use Rattle.link_schema.specs.Words.{claim_from, claim, station_from, station, own_address_from, own_address, off, names};

use doc_tree::Tree;
use document_model::Claim;
use net_model::{Addr, Items, Mac, Name};
use net_text::{read_addr, read_mac};
use tree_schema::{Form, Item, Reader, Reason, Stop, boolean, formed, name, number, read_list};

/// The address of a string.
pub(crate) fn addr_in(text: &str) -> Option<Addr>
    ensures { result ≡ addr_of text.now }
{
    read_addr(text.as_bytes())
}

fn own(v6: bool, addr: Option<Addr>) -> Option<Addr>
    ensures read { result ≡ option_and_then (passing (is_own v6)) addr }
    ensures right { IfSome result (λ a. is_own v6 a ≡ true) }
{
    let addr = addr?;
    if addr.is_v6() == v6 && !addr.is_link_local() {
        Some(addr)
    } else {
        None
    }
}

#[derive(Clone, Copy)]
struct OwnAddresses {
    v6: bool,
}

impl Form for OwnAddresses {
    type Value = Addr;

    ghost form = { λ s. own_address_from s.v6 };

    ghost holds = { λ s a. is_own s.v6 a };

    fn read(&self, text: &str) -> Option<Addr> {
        own(self.v6, addr_in(text))
    }
}

/// An address of the family that isn't link-local.
pub(crate) fn own_address(v6: bool, tree: &Tree) -> Result<Addr, Reason>
    ensures read { result ≡ own_address v6 (shape tree.now) }
    ensures right { IfOk result (λ a. is_own v6 a ≡ true) }
{
    formed(&OwnAddresses { v6 }, tree)
}

/// A boolean that isn't true.
pub(crate) fn off(tree: &Tree) -> Result<bool, Reason>
    ensures { result ≡ off (shape tree.now) }
{
    if boolean(tree)? {
        Err(Reason::Unsupported)
    } else {
        Ok(false)
    }
}

struct Claims;

impl Form for Claims {
    type Value = Claim;

    ghost form = { λ _. claim_from };

    ghost holds = { λ _ _. true };

    fn read(&self, text: &str) -> Option<Claim> {
        match text.as_bytes() {
            [] => Some(Claim::Nobody),
            bytes => Some(Claim::To(Name::of(bytes)?)),
        }
    }
}

/// A name, or the empty string for nobody.
pub(crate) fn claim(tree: &Tree) -> Result<Claim, Reason>
    ensures { result ≡ claim (shape tree.now) }
{
    formed(&Claims, tree)
}

fn mac_in(text: &str) -> Option<Mac>
    ensures { result ≡ hardware_of text.now }
{
    read_mac(text.as_bytes())
}

fn has_bits(bytes: &[u8]) -> bool
    ensures { result ≡ list_any (λ b. not (b == 0)) bytes.now }
{
    bytes.iter().any(|b| *b != 0)
}

fn is_station(mac: Mac) -> bool
    ensures { result ≡ is_station mac }
{
    mac.bytes[0] % 2 == 0 && has_bits(&mac.bytes)
}

fn station_of(mac: Option<Mac>) -> Option<Mac>
    ensures read { result ≡ option_and_then (passing is_station) mac }
    ensures right { IfSome result (λ m. is_station m ≡ true) }
{
    let mac = mac?;
    if is_station(mac) { Some(mac) } else { None }
}

struct Stations;

impl Form for Stations {
    type Value = Mac;

    ghost form = { λ _. station_from };

    ghost holds = { λ _ m. is_station m };

    fn read(&self, text: &str) -> Option<Mac> {
        station_of(mac_in(text))
    }
}

/// A MAC whose first byte is even and that isn't all zero.
pub(crate) fn station(tree: &Tree) -> Result<Mac, Reason>
    ensures read { result ≡ station (shape tree.now) }
    ensures right { IfOk result (λ m. is_station m ≡ true) }
{
    formed(&Stations, tree)
}

/// A number in a range of bytes.
pub(crate) fn number_u8(least: u8, most: u8, tree: &Tree) -> Result<u8, Reason>
    ensures value { result ≡ number least most (shape tree.now) }
    ensures within { IfOk result (λ n. is_within least most n ≡ true) }
{
    Ok(number(least as u32, most as u32, tree)? as u8)
}

/// A number in a range of 16 bits.
pub(crate) fn number_u16(least: u16, most: u16, tree: &Tree) -> Result<u16, Reason>
    ensures value { result ≡ number least most (shape tree.now) }
    ensures within { IfOk result (λ n. is_within least most n ≡ true) }
{
    Ok(number(least as u32, most as u32, tree)? as u16)
}

/// Notes that the value of a key is read over.
pub(crate) fn noted<E>(reader: &mut Reader, entry: &E) -> Result<(), Stop>
    ensures { Changes (given_over entry.now) reader.old reader.new entry.now result }
{
    reader.note()?;
    Ok(())
}

struct NameItems;

impl Item for NameItems {
    type Value = Name;

    ghost reading = { λ _. item name };

    ghost holds = { λ _ _. true };

    fn read(&self, _reader: &mut Reader, tree: &Tree) -> Result<Option<Name>, Stop> {
        Ok(Some(name(tree)?))
    }
}

/// A list of names.
pub(crate) fn names(reader: &mut Reader, tree: &Tree) -> Result<Items<Name>, Stop>
    ensures read { Answers (names (shape tree.now)) reader.old reader.new result }
    ensures short { IfOk result (λ names. is_short names ≡ true) }
{
    read_list(&NameItems, reader, tree)
}
