//! Writes that go on until they are whole.
ghost use Rattle.std.specs.Prelude.{◌≡◌, ◌<◌, ◌+◌, ◌^◌, length, OnOk};
ghost use Rattle.host_core.specs.Bytes.{Written};
ghost use Rattle.host_core.specs.DiskView.{AreaTorn, area_of};
ghost use Rattle.host_core.specs.Stops.{Steps};

use crate::fault::FileFault;
use crate::raw::RawDisk;

/// Writes all bytes. After a fault the range may hold any bytes.
pub fn write_whole<R: RawDisk>(
    raw: &mut R,
    area: u8,
    at: u64,
    bytes: &[u8],
) -> Result<(), FileFault>
    requires area { area < 2 }
    requires end { at + length bytes.now < 2 ^ 63 }
    ensures written { OnOk result (R.tells → Written at bytes.now (area_of area (R.told raw.old).areas) (area_of area (R.told raw.new).areas)) }
    ensures torn { R.tells → AreaTorn area at (length bytes.now) (R.told raw.old).areas (R.told raw.new).areas }
    ensures stops { Steps (AreaTorn area at (length bytes.now)) (R.told raw.old).stops (R.told raw.new).stops }
{
    let mut done = 0;
    while done < bytes.len() {
        let count = raw.write_some(area, at + done as u64, &bytes[done..])?;
        if count == 0 {
            return Err(FileFault::NothingWritten);
        }
        done += count;
    }
    Ok(())
}
