//! Links that go down.
ghost use Rattle.std.specs.Prelude.{◌≡◌, true, map, OnOk, OnErr};
ghost use Rattle.net_model.specs.Words.{rises, is_among};
ghost use Rattle.net_model.specs.Order.{link_cmp, name_cmp};
ghost use Rattle.net_model.specs.NetData.{IsNet};
ghost use Rattle.kernel_model.specs.UpDown.{lowered, fallen, after_down};

use crate::hanging::{Affected, affected_on};
use net_core::Parts;
use net_model::{Name, OutOfMemory};
use std::alloc::Global;

// Takes down the links of these names, each found by binary search.
fn lower_each(parts: &mut Parts, falls: &[Name])
    requires { rises link_cmp parts.old.links ≡ true }
    ensures { parts.new ≡ record parts.old { links = map (lowered (is_among falls.now)) parts.old.links } }
{
    for name in falls {
        parts.lower(name);
    }
}

fn lower_all(parts: &mut Parts, falls: &[Name])
    requires in_order { rises link_cmp parts.old.links ≡ true }
    requires names { rises name_cmp falls.now ≡ true }
    ensures { parts.new ≡ fallen (is_among falls.now) parts.old }
{
    lower_each(parts, falls);
    parts.remove_routes_of(falls);
}

// Takes down the link and the VLANs over it. Only those that are up are gone over: what is down has no IPv6 address and no
// route, and nothing over it is up. The memory for their names is taken first.
pub(crate) fn down(alloc: Global, parts: &mut Parts, name: &Name) -> Result<(), OutOfMemory>
    requires { IsNet parts.old }
    ensures ok { OnOk result (parts.new ≡ after_down name.now parts.old) }
    ensures err { OnErr result (parts.new ≡ parts.old) }
{
    let falls = affected_on(alloc, parts, name, Affected::Up)?;
    lower_all(parts, &falls);
    Ok(())
}
