//! Links by name, in lists strictly sorted by name.
ghost use Rattle.std.specs.Prelude.{◌≡◌, true, None};
ghost use Rattle.std.specs.Option.{option_map_or};
ghost use Rattle.net_model.specs.Words.{rises};
ghost use Rattle.net_model.specs.Order.{link_cmp};
ghost use Rattle.net_model.specs.Links.{find_link};
ghost use Rattle.kernel_model.specs.Words.{has_link};

use net_lists::find_link;
use net_model::{Link, Name};

/// Whether a link has this name.
pub fn has_link(links: &[Link], name: &Name) -> bool
    requires { rises link_cmp links.now ≡ true }
    ensures { result ≡ has_link name.now links.now }
{
    find_link(links, name).is_some()
}

// The controller of the named link, if it is there and has one.
pub(crate) fn controller_of(links: &[Link], port: &Name) -> Option<Name>
    requires { rises link_cmp links.now ≡ true }
    ensures { result ≡ option_map_or (λ l. l.controller) (find_link port.now links.now) None }
{
    match find_link(links, port) {
        Some(link) => link.controller,
        None => None,
    }
}
