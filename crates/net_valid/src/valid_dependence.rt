//! The part of validity that looks at which link depends on which.
ghost use Rattle.std.specs.Prelude.{◌≡◌, IfOk, true};
ghost use Rattle.net_model.specs.Words.{rises};
ghost use Rattle.net_model.specs.Order.{link_cmp};
ghost use Rattle.net_model.specs.Dependence.{no_cycle};

use crate::graph::arrows;
use base_model::OutOfMemory;
use net_model::Link;
use reach::has_cycle;
use std::alloc::Global;

/// Whether no link depends on itself, through any others: a VLAN depends on its base, and a controller on each of its
/// ports. The links are sorted by name. It costs two binary searches for each link.
pub fn no_cycle(alloc: Global, links: &[Link]) -> Result<bool, OutOfMemory>
    requires { rises link_cmp links.now ≡ true }
    ensures { IfOk result (λ none. none ≡ no_cycle links.now) }
{
    let arrows = arrows(alloc, links)?;
    Ok(!has_cycle(alloc, &arrows)?)
}
