//! Links that are released before they go: each of their ports is detached, and they from their controllers.
ghost use Rattle.std.specs.Prelude.{◌≡◌, ◌-◌, false, [], ◌∷◌, length, is_some, slice_get};
ghost use Rattle.std.specs.List.{list_any};
ghost use Rattle.net_model.specs.Links.{named_passes, ports_of};
ghost use Rattle.net_model.specs.NetData.{IsNet};
ghost use Rattle.net_model.specs.Edits.{may_be_named};
ghost use Rattle.link_step.specs.Releasing.{Releases};

use crate::lookup::controller_of;
use net_core::Parts;
use net_model::Name;

// The last port of a link, in the order of the links. Taken out of the index, it moves no other.
fn last_port(parts: &Parts, name: &Name) -> Option<Name>
    ensures { result ≡ slice_get (ports_of parts.now.links name.now) (length (ports_of parts.now.links name.now) - 1) }
{
    parts.ports_of(name).last().copied()
}

// Detaches each port of a link.
fn release_ports(parts: &mut Parts, name: &Name)
    requires { IsNet parts.old }
    ensures released { Releases (name.now ∷ []) parts.old parts.new }
    ensures free { ports_of parts.new.links name.now ≡ [] }
{
    while let Some(port) = last_port(parts, name) {
        parts.detach_from(&port, name);
    }
}

// Detaches a link from its controller, where it has one.
fn release_port(parts: &mut Parts, name: &Name)
    requires { IsNet parts.old }
    ensures released { Releases (name.now ∷ []) parts.old parts.new }
    ensures free { named_passes (λ l. is_some l.controller) parts.new.links name.now ≡ false }
{
    match controller_of(&parts.links, name) {
        Some(controller) => parts.detach_from(name, &controller),
        None => {}
    }
}

// Detaches the ports of a link, and the link from its controller, so that no other names it.
fn release(parts: &mut Parts, name: &Name)
    requires { IsNet parts.old }
    ensures released { Releases (name.now ∷ []) parts.old parts.new }
    ensures free { may_be_named parts.new.links name.now ≡ false }
{
    release_ports(parts, name);
    release_port(parts, name);
}

// Releases the links of these names. What is left when they go is the same as without it, but no other link has to be
// looked at then. It takes no memory.
pub(crate) fn release_all(parts: &mut Parts, names: &[Name])
    requires { IsNet parts.old }
    ensures released { Releases names.now parts.old parts.new }
    ensures free { list_any (may_be_named parts.new.links) names.now ≡ false }
{
    for name in names {
        release(parts, name);
    }
}
