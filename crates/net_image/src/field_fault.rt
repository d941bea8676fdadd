//! Why no field was read.

use crate::fault::ImageFault;

/// Why no field was read.
#[derive(Clone, Copy)]
pub enum FieldFault {
    /// No such field begins there.
    Bad,
    OutOfMemory,
}

impl From<ImageFault> for FieldFault {
    ghost use Rattle.std.specs.Prelude.{◌≡◌};
    ghost use Rattle.net_image.specs.FaultOf.{fault_of};

    ghost from_gives = { λ fault field. field ≡ fault_of fault };

    fn from(fault: ImageFault) -> Self {
        match fault {
            ImageFault::Damaged => FieldFault::Bad,
            ImageFault::OutOfMemory => FieldFault::OutOfMemory,
        }
    }
}
