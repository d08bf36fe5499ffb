//! Images of disks: files, or parts of files, that are read in sectors of 512 bytes.
//!
//! It isn't known in advance what images contain. So contracts are about all contents that agree with every read so
//! far. If a read returns other bytes for a sector than an earlier read did, no contents agree.

ghost use Rattle.dm_store.specs.Base.{AreRead, length};
ghost use Rattle.dm_store.specs.Images.{Contents, in_extent};
ghost use Rattle.dm_table.specs.declared.io.sectors.TheConstants.{MOST_BYTES, SECTOR};
ghost use Rattle.std.specs.Prelude.{◌≡◌, ◌<◌, ◌≤◌, ◌%◌, ◌^◌};

use dm_table::FileExtent;
pub use dm_table::{MOST_BYTES, ReadFault, SECTOR};

/// Reads images, each of which is identified by its line in a list and its path.
pub trait Images {
    /// The contents of all images agree with the reads so far. Before the first read, all contents do, or only the
    /// actual ones if these are known; whoever makes the value ensures that.
    ghost IsSeen: { Self → Contents → Type 0 };

    /// Reads whole sectors of the image with this path, from `sector` on. The line in the list identifies the image, so
    /// each image can be opened only once. After a fault, `into` may hold anything.
    fn read(&mut self, line: u64, path: &str, sector: u64, into: &mut [u8]) -> Result<(), ReadFault>
        requires whole { length into.old % SECTOR ≡ 0 }
        requires some { SECTOR ≤ length into.old }
        requires few { length into.old ≤ MOST_BYTES }
        requires near { sector < 2 ^ 53 }
        ensures still { (held : Contents) → IsSeen self.new held → IsSeen self.old held }
        ensures is { (held : Contents) → IsSeen self.new held
            → AreRead (held line path.now) sector result into.new }
        ensures seen { (held : Contents) → IsSeen self.old held
            → AreRead (held line path.now) sector result into.new → IsSeen self.new held };
}

/// Reads whole sectors of an extent of an image, where `sector` counts from the start of the extent. Fails if the read
/// passes the end of the extent. After a fault, `into` may hold anything.
pub fn read_extent<I: Images>(
    images: &mut I,
    line: u64,
    path: &str,
    extent: FileExtent,
    sector: u64,
    into: &mut [u8],
) -> Result<(), ReadFault>
    requires whole { length into.old % SECTOR ≡ 0 }
    requires some { SECTOR ≤ length into.old }
    requires few { length into.old ≤ MOST_BYTES }
    requires near { sector ≤ 2 ^ 50 }
    ensures still { (held : Contents) → I.IsSeen images.new held → I.IsSeen images.old held }
    ensures is { (held : Contents) → I.IsSeen images.new held
        → AreRead (in_extent extent (held line path.now)) sector result into.new }
    ensures seen { (held : Contents) → I.IsSeen images.old held
        → AreRead (in_extent extent (held line path.now)) sector result into.new → I.IsSeen images.new held }
{
    match extent.sector(sector, (into.len() / SECTOR) as u64) {
        Some(at) => images.read(line, path, at, into),
        None => Err(ReadFault),
    }
}
