//! Addresses as they are printed.

use case_table::Text;
use net_model::{Addr, Mac, Prefix};
use net_text::{write_addr, write_mac, write_prefix};

pub fn push_addr(addr: &Addr, out: &mut Text) {
    let written = write_addr(addr, &mut out.bytes);
    out.remember(written.is_ok());
}

pub fn push_prefix(prefix: &Prefix, out: &mut Text) {
    let written = write_prefix(prefix, &mut out.bytes);
    out.remember(written.is_ok());
}

pub fn push_mac(mac: &Mac, out: &mut Text) {
    let written = write_mac(mac, &mut out.bytes);
    out.remember(written.is_ok());
}
