//! Texts of addresses, prefixes and MAC addresses, appended whole or not at all.
ghost use Rattle.std.specs.Prelude.{◌≡◌, ◌++◌, Some, OnOk, OnErr};
ghost use Rattle.addr_text.specs.Mac.{mac_text};
ghost use Rattle.net_text.specs.AddrText.{addr_text, prefix_text, addr_of, prefix_of, hardware_of};

use crate::pieces::{push_addr, push_mac, push_prefix};
use net_model::{Addr, Mac, OutOfMemory, Prefix};

/// Appends the text of an address: four decimal numbers, or the text of RFC 5952 section 4.
/// Where memory runs out, `out` is as it was.
pub fn write_addr(addr: &Addr, out: &mut Vec<u8>) -> Result<(), OutOfMemory>
    ensures appends { OnOk result (out.new.items ≡ out.old.items ++ addr_text addr.now) }
    ensures unchanged { OnErr result (out.new.items ≡ out.old.items) }
    ensures reads_back { addr_of (addr_text addr.now) ≡ Some addr.now }
{
    let mut text = Vec::new(*out.allocator());
    push_addr(*addr, &mut text)?;
    out.extend_from_slice(&text)?;
    Ok(())
}

/// Appends the text of a prefix: its address, a slash and its length in bits.
/// Where memory runs out, `out` is as it was.
pub fn write_prefix(prefix: &Prefix, out: &mut Vec<u8>) -> Result<(), OutOfMemory>
    ensures appends { OnOk result (out.new.items ≡ out.old.items ++ prefix_text prefix.now) }
    ensures unchanged { OnErr result (out.new.items ≡ out.old.items) }
    ensures reads_back { prefix_of (prefix_text prefix.now) ≡ Some prefix.now }
{
    let mut text = Vec::new(*out.allocator());
    push_prefix(*prefix, &mut text)?;
    out.extend_from_slice(&text)?;
    Ok(())
}

/// Appends the text of a MAC address, in upper case. Where memory runs out, `out` is as it was.
pub fn write_mac(mac: &Mac, out: &mut Vec<u8>) -> Result<(), OutOfMemory>
    ensures appends { OnOk result (out.new.items ≡ out.old.items ++ mac_text mac.now.bytes) }
    ensures unchanged { OnErr result (out.new.items ≡ out.old.items) }
    ensures reads_back { hardware_of (mac_text mac.now.bytes) ≡ Some mac.now }
{
    let mut text = Vec::new(*out.allocator());
    push_mac(mac, &mut text)?;
    out.extend_from_slice(&text)?;
    Ok(())
}
