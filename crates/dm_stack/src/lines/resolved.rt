//! A stack's description and its lines with ids, so that the checks of references, depths and claims look up no
//! names.
//!
//! Contracts see only the description; the invariant states that the lines with ids are the description's lines.

ghost use Rattle.dm_stack.specs.Prelude.{map, described, lower_len, resolved_device, is_missing};
ghost use Rattle.std.specs.Prelude.{◌≡◌};

use crate::id::Lower;
use crate::lines::resolved_table::ResolvedDevice;
use dm_table::{DeviceSpec, Disk};
use std::marker::Model;

/// The devices and disks of a description, and the devices with ids.
#[derive(Drop)]
pub(crate) struct Resolved<'a> {
    devices: &'a [DeviceSpec],
    disks: &'a [Disk],
    by_ids: &'a [ResolvedDevice],
}

impl<'a> Model for Resolved<'a> {
    ghost use Rattle.dm_stack.specs.Base.{map};
    ghost use Rattle.dm_stack.specs.Description.{Description, described};
    ghost use Rattle.dm_stack.specs.Stack.{resolved_device};
    ghost use Rattle.std.specs.Prelude.{◌≡◌};

    ghost Value = { Description };

    ghost view = { λ stack. record { devices = stack.devices.now; disks = stack.disks.now } };

    ghost invariant = { λ stack. stack.by_ids.now
        ≡ map (resolved_device (described stack.devices.now stack.disks.now)) stack.devices.now };
}

impl<'a> Resolved<'a> {
    /// Joins the devices and disks of a description with the devices with ids.
    pub(crate) fn new(
        devices: &'a [DeviceSpec],
        disks: &'a [Disk],
        by_ids: &'a [ResolvedDevice],
    ) -> Resolved<'a>
        requires { by_ids.now ≡ map (resolved_device (described devices.now disks.now)) devices.now }
        ensures { result ≡ described devices.now disks.now }
    {
        Resolved {
            devices,
            disks,
            by_ids,
        }
    }

    /// The devices in order, with names.
    pub(crate) fn devices(&self) -> &'a [DeviceSpec]
        ensures { result.now ≡ self.now.devices }
    {
        self.devices
    }

    /// The devices in order, with ids in place of names.
    pub(crate) fn by_ids(&self) -> &'a [ResolvedDevice]
        ensures { result.now ≡ map (resolved_device self.now) self.now.devices }
    {
        self.by_ids
    }

    /// The disks in order.
    pub(crate) fn disks(&self) -> &'a [Disk]
        ensures { result.now ≡ self.now.disks }
    {
        self.disks
    }

    /// Whether the stack has no device or disk with this id.
    pub(crate) fn is_missing(&self, to: Lower) -> bool
        ensures { result ≡ is_missing self.now to }
    {
        match to {
            Lower::Device(id) => self.by_ids.len() <= id.index(),
            Lower::Disk(id) => self.disks.len() <= id.index(),
        }
    }

    /// The length of a device or a disk in sectors, or 0 if the stack doesn't have it.
    pub(crate) fn len_of(&self, to: Lower) -> u64
        ensures { result ≡ lower_len self.now to }
    {
        match to {
            Lower::Device(id) => match self.by_ids.get(id.index()) {
                Some(device) => device.end,
                None => 0,
            },
            Lower::Disk(id) => match self.disks.get(id.index()) {
                Some(disk) => disk.len,
                None => 0,
            },
        }
    }
}
