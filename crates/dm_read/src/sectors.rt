//! Writes consecutive sectors of a device to an output, block by block.

ghost use Rattle.dm_read.specs.Prelude.{length, with_looked, device_len, Contents, disk_contents, fault_of, written_since, HasWritten, IsWritten, bytes_of, device_bytes};
ghost use Rattle.std.specs.Prelude.{◌≡◌, ◌+◌, ◌<◌, ◌≤◌, ◌^◌};

#[cfg(test)]
mod tests;

use crate::block::{BLOCK_SECTORS, fill_block};
use crate::fault::Stop;
use dm_map::{Mapper, Taken};
use dm_stack::DeviceId;
use dm_store::{DiskImages, Images, MOST_BYTES, SECTOR};
use dm_table::{OutFault, Output, write_all};

/// Writes the bytes of the `len` sectors of a device from `start` on, which are read from the images of its stack's
/// disks, in the state of the mapper. If a sector has no bytes, writes only those before it, and returns that sector
/// and the reason. Doesn't flush the output.
///
/// The images are read in blocks of at most 64 KiB, and sector by sector where a block can't be read. Allocates
/// nothing. Cost: for each run of sectors that map alike, one look-up in each device on the way and one read for each
/// block; for each block, one write, or as many as the output needs.
///
/// # Errors
///
/// The output failed; only a proper prefix of the bytes was written.
pub fn write_sectors<I: Images, T: Taken, W: Output>(
    images: &mut I,
    places: &DiskImages,
    mapper: &mut Mapper<'_, T>,
    device: DeviceId,
    start: u64,
    len: u64,
    output: &mut W,
) -> Result<Option<Stop>, OutFault>
    requires device { device < length mapper.old.stack.devices }
    requires inside { start + len ≤ device_len mapper.old.stack device }
    requires near { start + len ≤ 2 ^ 50 }
    // `held` may be any contents of the images that agree with all reads; the bytes that they determine were written.
    ensures wrote { (held : Contents) → I.IsSeen images.new held → IsWritten
        (bytes_of (device_bytes mapper.old.stack mapper.old.state (disk_contents places.now held) device) start len)
        (written_since (W.past output.old) (W.past output.new)) result }
    // The output only grew, and a write failed only if the result is an error.
    ensures moved { HasWritten (W.past output.old) (W.past output.new) (fault_of result) }
    ensures still { (held : Contents) → I.IsSeen images.new held → I.IsSeen images.old held }
    ensures same { mapper.new ≡ with_looked mapper.old mapper.new.looked }
{
    let mut block = [0; MOST_BYTES];
    let mut sector = start;
    let mut left = len;
    while left > 0 {
        let count = left.min(BLOCK_SECTORS);
        let filled = fill_block(images, places, mapper, device, sector, &mut block, count);
        write_all(output, &block[..SECTOR * filled.count as usize])?;
        if let Some(fault) = filled.fault {
            return Ok(Some(Stop {
                sector: sector + filled.count,
                fault,
            }));
        }
        sector += count;
        left -= count;
    }
    Ok(None)
}
