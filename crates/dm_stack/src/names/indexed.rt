//! A stack's description and indexes of its names.
//!
//! Names are looked up only when lines get ids, and never in a check. Contracts see only the description; the
//! invariant states that the indexes contain the description's names.

ghost use Rattle.dm_stack.specs.Prelude.{map, All, described, lower_of, HaveSmallEnds};
ghost use Rattle.std.specs.Prelude.{◌≡◌};

use crate::id::{DeviceId, DiskId, Lower};
use crate::names::name_index::NameIndex;
use dm_table::{DevRef, DeviceSpec, Disk};
use std::marker::Model;

/// The devices and disks of a description, with indexes of their names. The ends of all lines are within the
/// limit.
#[derive(Drop)]
pub(crate) struct Indexed<'a> {
    devices: &'a [DeviceSpec],
    disks: &'a [Disk],
    device_names: &'a NameIndex,
    disk_names: &'a NameIndex,
}

impl<'a> Model for Indexed<'a> {
    ghost use Rattle.dm_stack.specs.Description.{Description, described};
    ghost use Rattle.dm_stack.specs.names.NameIndex.{AreIndexed};

    ghost Value = { Description };

    ghost view = { λ stack. record { devices = stack.devices.now; disks = stack.disks.now } };

    ghost invariant = { λ stack. AreIndexed (described stack.devices.now stack.disks.now)
        stack.device_names.now stack.disk_names.now };
}

impl<'a> Indexed<'a> {
    /// Joins the devices and disks of a description with the indexes of their names.
    pub(crate) fn new(
        devices: &'a [DeviceSpec],
        disks: &'a [Disk],
        device_names: &'a NameIndex,
        disk_names: &'a NameIndex,
    ) -> Indexed<'a>
        requires devices { device_names.now ≡ map (λ device. device.name) devices.now }
        requires disks { disk_names.now ≡ map (λ disk. disk.name) disks.now }
        requires small { All (λ device. HaveSmallEnds device.lines) devices.now }
        ensures { result ≡ described devices.now disks.now }
    {
        Indexed {
            devices,
            disks,
            device_names,
            disk_names,
        }
    }

    /// The devices, in order.
    pub(crate) fn devices(&self) -> &'a [DeviceSpec]
        ensures devices { result.now ≡ self.now.devices }
        ensures small { All (λ device. HaveSmallEnds device.lines) result.now }
    {
        self.devices
    }

    /// The id of the device or disk that a line names, or an id past the last one if the name is unknown.
    pub(crate) fn lower_of(&self, to: &DevRef) -> Lower
        ensures { result ≡ lower_of self.now to.now }
    {
        match to {
            DevRef::Device(name) => {
                let index = self.device_names.find(name.as_str());
                Lower::Device(DeviceId::new(index.unwrap_or(self.devices.len())))
            }
            DevRef::Disk(name) => {
                let index = self.disk_names.find(name.as_str());
                Lower::Disk(DiskId::new(index.unwrap_or(self.disks.len())))
            }
        }
    }
}
