//! What a host keeps of the network on its disk.
ghost use Rattle.std.specs.Prelude.{◌≡◌, ◌⊎◌, None, Some};

use base_model::OutOfMemory;
use net_core::Net;

/// The network on a disk, and where the next record goes, so that a kernel call needs no reading.
pub struct Kept {
    pub net: Net,
    /// Whether the second slot is selected.
    pub second: bool,
    /// Whether the slot's image is of version 1.
    pub first_image: bool,
    /// The place in the slot of the closed gate that ends its journal, in bytes, if it has one.
    pub gate: Option<u64>,
    /// How much more the journal may weigh: where it is 0, the next call folds.
    pub spare: u64,
}

// By hand, so that a proof sees one call where one is dropped, and not a step for each part.
impl Drop for Kept {
    fn drop(self) {
        let Kept {
            net: _,
            second: _,
            first_image: _,
            gate: _,
            spare: _,
        } = self;
    }
}

impl Kept {
    /// The network, and what is kept, where there is memory for a second network.
    pub fn copied(self) -> (Net, Option<Kept>)
        ensures net { result.0 ≡ self.net }
        ensures kept { (result.1 ≡ Some self) ⊎ (result.1 ≡ None) }
    {
        match self.net.copy() {
            Ok(net) => (net, Some(self)),
            Err(OutOfMemory) => {
                let Kept {
                    net,
                    second: _,
                    first_image: _,
                    gate: _,
                    spare: _,
                } = self;
                (net, None)
            }
        }
    }
}
