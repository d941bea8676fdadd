//! Reads that go on until they are whole.
ghost use Rattle.std.specs.Prelude.{◌≡◌, ◌<◌, ◌+◌, ◌^◌, length, IfOk};
ghost use Rattle.host_core.specs.Bytes.{Filled};
ghost use Rattle.host_core.specs.DiskView.{area_of};
ghost use Rattle.host_core.specs.Stops.{Steps, Stays};

use crate::fault::FileFault;
use crate::raw::RawDisk;

/// Fills the buffer up to the area's end, and answers how many bytes it filled.
pub fn read_whole<R: RawDisk>(
    raw: &mut R,
    area: u8,
    at: u64,
    buf: &mut [u8],
) -> Result<u64, FileFault>
    requires area { area < 2 }
    requires end { at + length buf.old < 2 ^ 63 }
    ensures filled { R.tells → IfOk result (λ n. Filled at (area_of area (R.told raw.old).areas) buf.old buf.new n) }
    ensures areas { R.tells → (R.told raw.new).areas ≡ (R.told raw.old).areas }
    ensures stops { Steps Stays (R.told raw.old).stops (R.told raw.new).stops }
{
    let mut done = 0;
    while done < buf.len() {
        let count = raw.read_some(area, at + done as u64, &mut buf[done..])?;
        if count == 0 {
            break;
        }
        done += count;
    }
    Ok(done as u64)
}
