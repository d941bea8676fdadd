//! Pieces of a line, appended one after another. After a fault the line is of no use.
ghost use Rattle.std.specs.Prelude.{◌≡◌, ◌++◌, OnOk};
ghost use Rattle.addr_text.specs.Mac.{IsMac, mac_text};
ghost use Rattle.net_model.specs.Address.{IsAddress, IsPrefix};
ghost use Rattle.net_text.specs.AddrText.{addr_text, prefix_text};
ghost use Rattle.net_text.specs.Line.{name_or_dash, prefix_or_dash};

use addr_text::{dotted_text, mac_text, v6_text};
use base_model::push_decimal;
use net_model::{Addr, Mac, Name, OutOfMemory, Prefix, Subnet};

pub(crate) fn push_name(name: &Name, line: &mut Vec<u8>) -> Result<(), OutOfMemory>
    ensures { OnOk result (line.new.items ≡ line.old.items ++ name.now) }
{
    line.extend_from_slice(name.as_bytes())?;
    Ok(())
}

pub(crate) fn push_name_or_dash(name: &Option<Name>, line: &mut Vec<u8>) -> Result<(), OutOfMemory>
    ensures { OnOk result (line.new.items ≡ line.old.items ++ name_or_dash name.now) }
{
    match name {
        None => {
            line.extend_from_slice(b"-")?;
            Ok(())
        }
        Some(name) => push_name(name, line),
    }
}

// The number of an address, which its family bounds.
fn bits_of(addr: Addr) -> u128
    ensures value { result ≡ addr.bits }
    ensures fits { IsAddress addr }
{
    addr.bits()
}

// The length of a prefix, which its family bounds.
fn len_of(prefix: Prefix) -> u8
    ensures value { result ≡ prefix.len }
    ensures fits { IsPrefix prefix }
{
    prefix.len()
}

pub(crate) fn push_addr(addr: Addr, line: &mut Vec<u8>) -> Result<(), OutOfMemory>
    ensures appends { OnOk result (line.new.items ≡ line.old.items ++ addr_text addr) }
    ensures fits { IsAddress addr }
{
    let bits = bits_of(addr);
    let text = if addr.is_v6() {
        v6_text(*line.allocator(), bits)?
    } else {
        dotted_text(*line.allocator(), bits as u32)?
    };
    line.extend_from_slice(&text)?;
    Ok(())
}

pub(crate) fn push_prefix(prefix: Prefix, line: &mut Vec<u8>) -> Result<(), OutOfMemory>
    ensures appends { OnOk result (line.new.items ≡ line.old.items ++ prefix_text prefix) }
    ensures addr_fits { IsAddress prefix.addr }
    ensures len_fits { IsPrefix prefix }
{
    let len = len_of(prefix);
    push_addr(prefix.addr(), line)?;
    line.push(b'/')?;
    push_decimal(len as u32, line)
}

pub(crate) fn push_prefix_or_dash(
    subnet: Option<Subnet>,
    line: &mut Vec<u8>,
) -> Result<(), OutOfMemory>
    ensures { OnOk result (line.new.items ≡ line.old.items ++ prefix_or_dash subnet) }
{
    match subnet {
        None => {
            line.extend_from_slice(b"-")?;
            Ok(())
        }
        Some(subnet) => push_prefix(subnet.prefix(), line),
    }
}

pub(crate) fn push_mac(mac: &Mac, line: &mut Vec<u8>) -> Result<(), OutOfMemory>
    ensures appends { OnOk result (line.new.items ≡ line.old.items ++ mac_text mac.now.bytes) }
    ensures reads_back { IsMac (mac_text mac.now.bytes) mac.now.bytes }
{
    let text = mac_text(*line.allocator(), &mac.bytes)?;
    line.extend_from_slice(&text)?;
    Ok(())
}
