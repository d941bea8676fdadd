//! Calls that write on the link that they name.
ghost use Rattle.std.specs.Prelude.{◌≡◌, true};
ghost use Rattle.net_model.specs.Words.{rises};
ghost use Rattle.net_model.specs.Order.{link_cmp};
ghost use Rattle.net_model.specs.Edits.{edit_link};
ghost use Rattle.link_step.specs.OneLink.{written};

use net_core::Parts;
use net_lists::place_of;
use net_model::{Call, Link, Name};

fn write(link: &mut Link, call: &Call)
    ensures { link.new ≡ written call.now link.old }
{
    match call {
        Call::Up { .. } => link.up = true,
        Call::SetMac { mac, .. } => link.mac = *mac,
        Call::SetBond { opts, .. } => link.bond = *opts,
        Call::SetBridge { opts, .. } => link.bridge = *opts,
        Call::SetPort { opts, .. } => link.port = *opts,
        _ => {}
    }
}

fn write_named(links: &mut [Link], name: &Name, call: &Call)
    requires { rises link_cmp links.old ≡ true }
    ensures { links.new ≡ edit_link name.now (written call.now) links.old }
{
    match place_of(links, name) {
        Some(i) => write(&mut links[i], call),
        None => {}
    }
}

// The same on the vector.
fn write_each(links: &mut Vec<Link>, name: &Name, call: &Call)
    requires { rises link_cmp links.old.items ≡ true }
    ensures { links.new.items ≡ edit_link name.now (written call.now) links.old.items }
{
    write_named(links, name, call);
}

// Writes what the call says on the named link, which no index reads.
pub(crate) fn write_on(parts: &mut Parts, name: &Name, call: &Call)
    requires { rises link_cmp parts.old.links ≡ true }
    ensures { parts.new ≡ record parts.old { links = edit_link name.now (written call.now) parts.old.links } }
{
    write_each(&mut parts.links, name, call);
}
