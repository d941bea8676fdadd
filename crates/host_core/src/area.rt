//! The two areas of a disk.
ghost use Rattle.std.specs.Prelude.{◌≡◌};
ghost use Rattle.host_core.specs.AreaNumbers.{area_number};

/// One of the two areas of a disk.
#[derive(Clone, Copy)]
pub enum Area {
    /// The kernel's, which holds the network.
    Kernel,
    /// The checkpoint's.
    Checkpoint,
}

impl Area {
    /// The number of the area, as a disk takes it and an answer gives it: 0 the kernel's, 1 the checkpoint's.
    pub fn number(self) -> u8
        ensures { result ≡ area_number self }
    {
        match self {
            Area::Kernel => 0,
            Area::Checkpoint => 1,
        }
    }
}
