//! The calls of the kernel.

use crate::address::Prefix;
use crate::dns::Dns;
use crate::link::Kind;
use crate::mac::Mac;
use crate::name::Name;
use crate::options::{BondOpts, BridgeOpts, PortOpts};
use crate::route::Route;
use crate::rule::Rule;

/// What the kernel is asked to change. An MTU is in bytes.
pub enum Call {
    AddLink { name: Name, kind: Kind },
    DelLink { name: Name },
    Up { name: Name },
    Down { name: Name },
    SetMtu { name: Name, mtu: u32 },
    SetMac { name: Name, mac: Mac },
    SetBond { name: Name, opts: BondOpts },
    SetBridge { name: Name, opts: BridgeOpts },
    Attach { port: Name, controller: Name },
    Detach { port: Name },
    SetPort { port: Name, opts: PortOpts },
    AddAddress { name: Name, addr: Prefix },
    DelAddress { name: Name, addr: Prefix },
    AddRoute { route: Route },
    DelRoute { route: Route },
    AddRule { rule: Rule },
    DelRule { rule: Rule },
    SetDns { dns: Dns },
}

// By hand, so that a proof sees one call where one is dropped, and not a step for each part.
impl Drop for Call {
    fn drop(self) {
        match self {
            Call::AddLink { name: _, kind: _ }
            | Call::DelLink { name: _ }
            | Call::Up { name: _ }
            | Call::Down { name: _ }
            | Call::SetMtu { name: _, mtu: _ }
            | Call::SetMac { name: _, mac: _ }
            | Call::SetBond { name: _, opts: _ }
            | Call::SetBridge { name: _, opts: _ }
            | Call::Attach {
                port: _,
                controller: _,
            }
            | Call::Detach { port: _ }
            | Call::SetPort { port: _, opts: _ }
            | Call::AddAddress { name: _, addr: _ }
            | Call::DelAddress { name: _, addr: _ }
            | Call::AddRoute { route: _ }
            | Call::DelRoute { route: _ }
            | Call::AddRule { rule: _ }
            | Call::DelRule { rule: _ }
            | Call::SetDns { dns: _ } => {}
        }
    }
}
