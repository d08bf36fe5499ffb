//! The trait `Disks`, for disks that are read in sectors of 512 bytes.
//!
//! What a disk contains can't be known in advance. So contracts speak of what has been seen: of all contents that the
//! disks could have, those that agree with every read so far. If a disk returns different bytes for the same sector,
//! no contents agree.

ghost use Rattle.lvm_head.specs.Base.{AreRead, List, length};
ghost use Rattle.dm_table.specs.declared.tables.disk_path.DiskPath.{DiskPath};
ghost use Rattle.dm_table.specs.declared.io.sectors.TheConstants.{MOST_BYTES, SECTOR};
ghost use Rattle.lvm_head.specs.Disks.{Contents, answer};
ghost use Rattle.std.specs.Prelude.{◌≡◌, ◌≤◌, ◌%◌, ◌^◌};

pub use dm_table::{MOST_BYTES, ReadFault, SECTOR};

/// Disks that can be read, each identified by a number.
pub trait Disks {
    /// The path list's entries for the disks, by number; none if there is no path list. Reads don't change the entries.
    ghost listed: { Self → List DiskPath };

    /// Holds for contents of all disks that agree with every read so far. An implementation must make sure that, before
    /// the first read, all possible contents agree.
    ghost IsSeen: { Self → Contents → Type 0 };

    /// Reads whole sectors of a disk, from sector `sector` on. After a fault the slice may contain anything.
    fn read(&mut self, disk: usize, sector: u64, into: &mut [u8]) -> Result<(), ReadFault>
        requires whole { length into.old % SECTOR ≡ 0 }
        requires some { SECTOR ≤ length into.old }
        requires few { length into.old ≤ MOST_BYTES }
        requires near { sector ≤ 2 ^ 50 }
        ensures listed { listed self.new ≡ listed self.old }
        ensures still { (held : Contents) → IsSeen self.new held → IsSeen self.old held }
        ensures is { (held : Contents) → IsSeen self.new held
            → AreRead (held disk) sector result into.new }
        ensures seen { (held : Contents) → IsSeen self.old held
            → AreRead (held disk) sector result into.new → IsSeen self.new held };
}

/// Reads one sector of a disk. After a fault the slice may contain anything.
pub fn read_sector<D: Disks>(
    disks: &mut D,
    disk: usize,
    sector: u64,
    into: &mut [u8],
) -> Result<(), ReadFault>
    requires len { length into.old ≡ SECTOR }
    requires near { sector ≤ 2 ^ 50 }
    ensures listed { D.listed disks.new ≡ D.listed disks.old }
    ensures still { (held : Contents) → D.IsSeen disks.new held → D.IsSeen disks.old held }
    ensures is { (held : Contents) → D.IsSeen disks.new held
        → held disk sector ≡ answer result into.new }
{
    disks.read(disk, sector, into)
}
