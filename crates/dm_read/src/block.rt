//! Blocks: the bytes of up to 128 consecutive sectors of a device.

ghost use Rattle.dm_read.specs.Prelude.{length, with_looked, device_len, Contents, disk_contents, device_bytes, AreCounted, AreFilled};
ghost use Rattle.std.specs.Prelude.{◌≡◌, ◌+◌, ◌*◌, ◌<◌, ◌≤◌, ◌^◌};

use crate::filled::Filled;
use crate::part::read_ground;
use dm_map::{Mapper, Taken};
use dm_stack::DeviceId;
use dm_store::{DiskImages, Images};

/// The maximum number of sectors in a block.
pub(crate) const BLOCK_SECTORS: u64 = 128;

/// Reads `count` sectors of a device, from `sector` on, into the front of a block, up to the first that has no bytes.
pub(crate) fn fill_block<I: Images, T: Taken>(
    images: &mut I,
    places: &DiskImages,
    mapper: &mut Mapper<'_, T>,
    device: DeviceId,
    sector: u64,
    block: &mut [u8],
    count: u64,
) -> Filled
    requires device { device < length mapper.old.stack.devices }
    requires inside { sector + count ≤ device_len mapper.old.stack device }
    requires near { sector + count ≤ 2 ^ 50 }
    requires few { count ≤ 128 }
    requires room { 512 * count ≤ length block.old }
    ensures same { mapper.new ≡ with_looked mapper.old mapper.new.looked }
    ensures still { (held : Contents) → I.IsSeen images.new held → I.IsSeen images.old held }
    ensures filled { (held : Contents) → I.IsSeen images.new held
        → AreFilled (λ i. device_bytes mapper.old.stack mapper.old.state (disk_contents places.now held) device
        (sector + i)) result 0 block.new }
    ensures counted { AreCounted count result }
{
    let mut done = 0;
    while done < count {
        let stretch = mapper.first_read(device, sector + done, count - done);
        let filled = read_ground(images, places, stretch.ground, block, done, stretch.len);
        done += filled.count;
        if let Some(fault) = filled.fault {
            return Filled {
                count: done,
                fault: Some(fault),
            };
        }
    }
    Filled { count, fault: None }
}
