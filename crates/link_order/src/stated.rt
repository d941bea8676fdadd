//! What an entry states of a link's state and of a family of addresses.
ghost use Rattle.std.specs.Prelude.{◌≡◌};
ghost use Rattle.merge_model.specs.Stated.{is_absent, is_stated_up, is_stated_down, is_off};

use document_model::{IpEntry, Wish};

/// Whether the link is stated absent.
pub fn is_absent(wish: Option<Wish>) -> bool
    ensures { result ≡ is_absent wish }
{
    matches!(wish, Some(Wish::Absent))
}

/// Whether the link is stated up.
pub fn is_stated_up(wish: Option<Wish>) -> bool
    ensures { result ≡ is_stated_up wish }
{
    matches!(wish, Some(Wish::Up))
}

/// Whether the link is stated down.
pub fn is_stated_down(wish: Option<Wish>) -> bool
    ensures { result ≡ is_stated_down wish }
{
    matches!(wish, Some(Wish::Down))
}

/// Whether the section states that its family is off.
pub fn is_off(ip: &IpEntry) -> bool
    ensures { result ≡ is_off ip.now }
{
    match ip.enabled {
        Some(enabled) => !enabled,
        None => false,
    }
}
