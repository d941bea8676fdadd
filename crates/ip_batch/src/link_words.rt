//! The calls on links that the words of a line lead to.
ghost use Rattle.std.specs.Prelude.{◌≡◌, Some};
ghost use Rattle.ip_batch.specs.Pieces.{given, word};
ghost use Rattle.ip_batch.specs.Reader.{set_by, set_like, kind_like, vlan_like, made, add_like, link_like};

use crate::pieces::word;
use crate::values::{mac_in, mode_in, name_in, number_32, table_in, tag_in, vlan_in};
use net_model::{Call, Kind, Name};

// What a setting makes of a link.
fn set_by(name: Name, key: &str, text: &str) -> Option<Call>
    ensures { result ≡ set_by name key.now text.now }
{
    match key {
        "up" => Some(Call::Up { name }),
        "down" => Some(Call::Down { name }),
        "nomaster" => Some(Call::Detach { port: name }),
        "mtu" => Some(Call::SetMtu {
            name,
            mtu: number_32(text)?,
        }),
        "address" => Some(Call::SetMac {
            name,
            mac: mac_in(text)?,
        }),
        "master" => Some(Call::Attach {
            port: name,
            controller: name_in(text)?,
        }),
        _ => None,
    }
}

fn set_like(line: &str) -> Option<Call>
    ensures { result ≡ set_like (word line.now) }
{
    let name = name_in(word(line, 3))?;
    set_by(name, word(line, 4), word(line, 5))
}

fn kind_like(key: &str, text: &str, peer: &str) -> Option<Kind>
    ensures { result ≡ kind_like key.now text.now peer.now }
{
    match key {
        "bond" => Some(Kind::Bond {
            mode: mode_in(text)?,
        }),
        "bridge" => Some(Kind::Bridge),
        "vrf" => Some(Kind::Vrf {
            table: table_in(text)?,
        }),
        "dummy" => Some(Kind::Dummy),
        "veth" => Some(Kind::Veth {
            peer: name_in(peer)?,
        }),
        "ethernet" => Some(Kind::Ethernet {
            permanent: mac_in(text)?,
        }),
        _ => None,
    }
}

fn vlan_like(line: &str) -> Option<Kind>
    ensures { result ≡ vlan_like (word line.now) }
{
    let base = name_in(word(line, 3))?;
    let proto = tag_in(word(line, 9))?;
    let id = vlan_in(word(line, 11))?;
    Some(Kind::Vlan { base, id, proto })
}

fn made(name: Option<Name>, kind: Option<Kind>) -> Option<Call>
    ensures { result ≡ made name kind }
{
    Some(Call::AddLink {
        name: name?,
        kind: kind?,
    })
}

fn add_like(line: &str) -> Option<Call>
    ensures { result ≡ add_like (word line.now) }
{
    match word(line, 2) {
        "link" => made(name_in(word(line, 5)), vlan_like(line)),
        _ => made(
            name_in(word(line, 3)),
            kind_like(word(line, 5), word(line, 7), word(line, 8)),
        ),
    }
}

fn deleted(name: Option<Name>) -> Option<Call>
    ensures { result ≡ given name (λ name. Some (Call.DelLink name)) }
{
    Some(Call::DelLink { name: name? })
}

/// The call on a link that a line looks like.
pub(crate) fn link_like(line: &str) -> Option<Call>
    ensures { result ≡ link_like (word line.now) }
{
    match word(line, 1) {
        "add" => add_like(line),
        "del" => deleted(name_in(word(line, 3))),
        "set" => set_like(line),
        _ => None,
    }
}
