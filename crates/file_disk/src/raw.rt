//! Disks by the single calls of a system.
ghost use Rattle.std.specs.Prelude.{◌≡◌, ◌≤◌, ◌<◌, ◌+◌, ◌^◌, length, IfOk, OnOk, OnErr};
ghost use Rattle.host_core.specs.DiskView.{AreaTorn, area_of};
ghost use Rattle.host_core.specs.Stops.{Steps, Stays, Keeps};
ghost use Rattle.file_disk.specs.Raw.{RawView, ReadsPart, WritesPart, Has, IsLawfulRaw};

use crate::fault::FileFault;

/// Two areas of bytes, 0 and 1, by single calls of a system, each of which may do a part of what it was asked. What stops
/// leave of them is as with a disk.
pub trait RawDisk {
    /// Whether it tells what it holds.
    ghost tells: { Type 0 };

    ghost told: { Self → RawView };

    /// How many bytes the area has.
    fn size(&mut self, area: u8) -> Result<u64, FileFault>
        requires { area < 2 }
        ensures size { tells → IfOk result (λ n. n ≡ length (area_of area (told self.old).areas)) }
        ensures areas { tells → (told self.new).areas ≡ (told self.old).areas }
        ensures stops { Steps Stays (told self.old).stops (told self.new).stops };

    /// Reads some bytes from a place on, and answers how many: none only at the area's end, or where there is no room.
    fn read_some(&mut self, area: u8, at: u64, buf: &mut [u8]) -> Result<usize, FileFault>
        requires area { area < 2 }
        requires end { at + length buf.old < 2 ^ 63 }
        ensures bound { IfOk result (λ n. n ≤ length buf.old) }
        ensures part { tells → IfOk result (λ n. ReadsPart at (area_of area (told self.old).areas) buf.old buf.new n) }
        ensures areas { tells → (told self.new).areas ≡ (told self.old).areas }
        ensures stops { Steps Stays (told self.old).stops (told self.new).stops };

    /// Writes some bytes, the first ones, and answers how many. After a fault the whole range may hold any bytes.
    fn write_some(&mut self, area: u8, at: u64, bytes: &[u8]) -> Result<usize, FileFault>
        requires area { area < 2 }
        requires end { at + length bytes.now < 2 ^ 63 }
        ensures bound { IfOk result (λ n. n ≤ length bytes.now) }
        ensures part { tells → IfOk result (λ n. WritesPart area at n bytes.now (told self.old).areas (told self.new).areas) }
        ensures torn { tells → AreaTorn area at (length bytes.now) (told self.old).areas (told self.new).areas }
        ensures stops { Steps (AreaTorn area at (length bytes.now)) (told self.old).stops (told self.new).stops };

    /// After it a stop leaves in this area what a read gives. One that fails changes no byte that a read gives, and what a
    /// stop may leave stays as it was before.
    fn sync(&mut self, area: u8) -> Result<(), FileFault>
        requires { area < 2 }
        ensures durable { OnOk result (tells → Has area (area_of area (told self.old).areas) (told self.new)) }
        ensures areas { tells → (told self.new).areas ≡ (told self.old).areas }
        ensures stops { Steps Stays (told self.old).stops (told self.new).stops }
        ensures kept { tells → OnErr result (Keeps (told self.old).stops (told self.new).stops) };

    /// Lets go of what keeps others off the areas, until the next call. It changes nothing and can't fail.
    fn release(&mut self)
        ensures areas { tells → (told self.new).areas ≡ (told self.old).areas }
        ensures stops { Steps Stays (told self.old).stops (told self.new).stops };

    ghost lawful: { (disk : Self) → IsLawfulRaw tells (told disk) };
}
