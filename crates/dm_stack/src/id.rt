//! Ids: indexes of devices and disks in the lists that a stack was loaded from.
//!
//! Contracts see an id as a number. An id is valid only for the stack that returned it; another stack may have no
//! device or disk with that id.

ghost use Rattle.std.specs.Prelude.{◌≡◌};

use std::marker::Model;

/// The id of a device of a stack. The default is the id of the first device.
#[derive(Clone, Copy, Debug, Default, PartialEq, Eq, Drop)]
pub struct DeviceId {
    index: usize,
}

impl Model for DeviceId {
    ghost use Rattle.dm_stack.specs.Base.{ℕ};

    ghost Value = { ℕ };

    ghost view = { λ id. id.index };

    ghost inverse = { λ index. record { index = index } };
}

impl DeviceId {
    /// The id of the device with this index in the list, from 0.
    pub(crate) fn new(index: usize) -> DeviceId
        ensures { result ≡ index }
    {
        DeviceId { index }
    }

    /// The index of the device in the list that was loaded, from 0.
    pub fn index(self) -> usize
        ensures { result ≡ self }
    {
        self.index
    }
}

/// The id of a disk of a stack.
#[derive(Clone, Copy, Debug, PartialEq, Eq, Drop)]
pub struct DiskId {
    index: usize,
}

impl Model for DiskId {
    ghost use Rattle.dm_stack.specs.Base.{ℕ};

    ghost Value = { ℕ };

    ghost view = { λ id. id.index };

    ghost inverse = { λ index. record { index = index } };
}

impl DiskId {
    /// The id of the disk with this index in the list, from 0.
    pub(crate) fn new(index: usize) -> DiskId
        ensures { result ≡ index }
    {
        DiskId { index }
    }

    /// The index of the disk in the list that was loaded, from 0.
    pub fn index(self) -> usize
        ensures { result ≡ self }
    {
        self.index
    }
}

/// The device or the disk of a stack that a line refers to.
#[derive(Clone, Copy, Debug, PartialEq, Eq, Drop)]
pub enum Lower {
    Device(DeviceId),
    Disk(DiskId),
}
