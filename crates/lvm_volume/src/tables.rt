//! The tables of a group: the devices of its logical volumes, and the disks of its physical volumes.
//!
//! The checks of the group have passed, so each product fits 64 bits and each position is in range; only a device name
//! can still be refused.

ghost use Rattle.lvm_volume.specs.Prelude.{None, Source, Answers, unless, first_of, tables_of, unnamed};
ghost use Rattle.std.specs.Prelude.{◌≡◌};

pub(crate) mod device_names;
pub(crate) mod devices;
pub(crate) mod disks;
pub(crate) mod lines;

use crate::fields::source_line::memory_fault;
use crate::group::roles::roles_of;
use crate::tables::device_names::check_names;
use crate::tables::devices::{GroupRef, devices_of};
use crate::tables::disks::disks_of;
use crate::volume_group::VolumeGroup;
use dm_table::{DeviceSpec, Disk, LoadFault};
use std::alloc::Global;

impl VolumeGroup {
    /// The devices of the group's volumes, in the order of the text, and the disks of its physical volumes.
    ///
    /// A volume becomes a device with a line for each segment, named by `build_name` from group and volume. The origin
    /// of a snapshot becomes two devices: first its layer `real`, with those lines, and then the volume itself, whose
    /// only line is a snapshot-origin target over `real`. The store of a snapshot becomes two as well: first its layer
    /// `cow`, and then the volume, whose only line is a snapshot target over the origin's `real`, with `cow` as store.
    /// A snapshot's record becomes no device. Layers are never read-only.
    ///
    /// The place of a device, and of an origin's line, is the line of its volume's key; that of a snapshot's line is
    /// the segment of its record; that of any other line is its segment; that of a disk is its physical volume's key.
    /// The fault is `Name`, on the line of the volume's key, if no name can be built, and `Memory` if an allocation was
    /// refused.
    ///
    /// Cost: near-linear; allocates for each name of a device, and for each name in a line.
    pub fn tables(&self, alloc: Global) -> Result<(Vec<DeviceSpec>, Vec<Disk>), LoadFault>
        // Returns the tables exactly if names can be built for all devices, unless memory runs out.
        ensures { Answers Source (λ tables. (tables.0.items, tables.1.items)) result
            (unless (first_of (unnamed self.now)) (tables_of self.now)) }
    {
        let Ok(roles) = roles_of(alloc, &self.volumes) else {
            return Err(memory_fault());
        };
        check_names(self.name.as_str(), &roles, &self.volumes)?;
        let group = GroupRef {
            name: self.name.as_str(),
            extent_size: self.extent_size,
            physicals: &self.physicals,
            volumes: &self.volumes,
        };
        let Ok(devices) = devices_of(alloc, &group, &roles) else {
            return Err(memory_fault());
        };
        let Ok(disks) = disks_of(alloc, &self.physicals) else {
            return Err(memory_fault());
        };
        Ok((devices, disks))
    }
}
