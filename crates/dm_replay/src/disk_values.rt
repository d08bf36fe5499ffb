//! The values of all sectors of disks.
//!
//! There is a list of ranges for each disk, up to the last disk on which something was stored. Memory grows with what
//! was stored, however long the disks are.

ghost use Rattle.dm_replay.specs.Prelude.{ℕ, [], length, OnOk, AreFirst, ranged, values_of};
ghost use Rattle.std.specs.Prelude.{◌≡◌, ◌+◌, ◌<◌, ◌≤◌, ◌^◌};

use crate::disk_ranges::DiskRanges;
use crate::range_values::RangeValues;
use crate::value::Value;
use dm_stack::DiskId;
use std::alloc::{AllocError, Global};

/// The value of each sector of each disk: what was stored in it or, if nothing was, what it held at the start.
#[derive(Drop)]
pub(crate) struct DiskValues {
    alloc: Global,
    pub disks: Vec<DiskRanges>,
}

impl DiskValues {
    /// The values at the start, when nothing is stored yet. Allocates nothing.
    pub(crate) fn new(alloc: Global) -> DiskValues
        ensures { result.disks.items ≡ [] }
    {
        DiskValues {
            alloc,
            disks: Vec::new(alloc),
        }
    }

    /// The longest front of the `len` sectors whose values count up from the first one's; it has at least one sector.
    ///
    /// Cost: logarithmic in the number of the disk's stored ranges. Allocates nothing.
    pub(crate) fn first_values(&self, disk: DiskId, start: u64, len: u64) -> RangeValues
        requires some { 1 ≤ len }
        requires small { start + len < 2 ^ 64 }
        ensures { AreFirst (values_of self.now.disks.items) disk start len result }
    {
        let index = disk.index();
        if index < self.disks.len() {
            return self.disks[index].first_values(disk, start, len);
        }
        let first = Value::Old {
            disk,
            sector: start,
        };
        RangeValues { first, len }
    }

    /// Stores a range of values in the sectors of a disk from `start` on.
    ///
    /// Cost: for each stored range that is overwritten or joined, logarithmic in the number of the disk's ranges.
    ///
    /// # Errors
    ///
    /// `AllocError` when out of memory.
    pub(crate) fn store(
        &mut self,
        disk: DiskId,
        start: u64,
        range: RangeValues,
    ) -> Result<(), AllocError>
        requires { start + range.len < 2 ^ 64 }
        ensures { OnOk result
            ((on sector : ℕ) → values_of self.new.disks.items on sector
            ≡ ranged (values_of self.old.disks.items) disk start range.len range.first on sector) }
    {
        let index = disk.index();
        reach(self.alloc, &mut self.disks, index)?;
        self.disks[index].store(start, range)?;
        Ok(())
    }
}

/// Adds disks with nothing stored until there is one with this index.
fn reach(alloc: Global, disks: &mut Vec<DiskRanges>, index: usize) -> Result<(), AllocError>
    ensures there { OnOk result (index < length disks.new.items) }
    ensures same { (disk sector : ℕ) → values_of disks.new.items disk sector
        ≡ values_of disks.old.items disk sector }
{
    while disks.len() <= index {
        disks.push(DiskRanges::new(alloc))?;
    }
    Ok(())
}
