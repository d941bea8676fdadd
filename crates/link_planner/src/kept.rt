//! Links that both networks have with the same kind.
ghost use Rattle.std.specs.Prelude.{◌≡◌};
ghost use Rattle.plan_model.specs.Kinds.{same_kind};
ghost use Rattle.link_planner.specs.Kept.{is_kept};

use net_core::Net;
use net_model::{Kind, Name};

fn is_same_kind(a: &Kind, b: &Kind) -> bool
    ensures { result ≡ same_kind a.now b.now }
{
    a == b
}

/// Whether the link of a name is in both networks, with the same kind.
pub(crate) fn is_kept(start: &Net, target: &Net, name: &Name) -> bool
    ensures { result ≡ is_kept start.now target.now name.now }
{
    start.laws();
    target.laws();
    match (start.link(name), target.link(name)) {
        (Some(old), Some(new)) => is_same_kind(&new.kind, &old.kind),
        _ => false,
    }
}
