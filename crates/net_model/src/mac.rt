//! Hardware addresses.
ghost use Rattle.std.specs.Prelude.{◌≡◌, slice_index};
ghost use Rattle.net_model.specs.Hardware.{virtual_mac};

use crate::name::Name;

/// A hardware address of six bytes, in the order in which it is written.
#[derive(Clone, Copy, PartialEq, Eq)]
pub struct Mac {
    pub bytes: [u8; 6],
}

impl Mac {
    /// The MAC of a new virtual link of this name: 02 and the first five bytes of the name, filled with zeros.
    pub fn of_virtual(name: &Name) -> Mac
        ensures { result ≡ virtual_mac name.now }
    {
        let from = name.as_bytes();
        Mac {
            bytes: [
                2,
                byte_at(from, 0),
                byte_at(from, 1),
                byte_at(from, 2),
                byte_at(from, 3),
                byte_at(from, 4),
            ],
        }
    }
}

// The byte at this place, or 0 behind the end.
fn byte_at(bytes: &[u8], at: usize) -> u8
    ensures { result ≡ slice_index bytes.now at }
{
    bytes.get(at).copied().unwrap_or(0)
}
