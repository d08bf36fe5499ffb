//! The check for names that are used twice, and the indexes of the names of devices and of disks.
//!
//! A name that occurs twice is noticed when it is added to an index, without another walk over the names. A
//! name's number in its index is the id of its device or disk.

ghost use Rattle.dm_stack.specs.Prelude.{ℕ, IfErr, IfOk, List, None, OnOk, Some, map, Memory, Source, Answers, IsMemoryFault, first_or, unless, described, twice, twice_in};
ghost use Rattle.std.specs.Prelude.{◌≡◌, ◌≢◌};

use crate::checks::faults::{Placed, out_of_memory};
use crate::names::name_index::NameIndex;
use dm_table::{DeviceSpec, Disk, DiskPath, LoadFault, LoadKind};
use std::alloc::Global;

/// An element of the input that has a name: a device, a disk, or a path for a disk.
pub(crate) trait Named {
    ghost name_of: { Self → List ℕ };

    /// The name as written in the input.
    fn name(&self) -> &str
        ensures { result.now ≡ name_of self.now };
}

impl Named for DeviceSpec {
    ghost name_of = { λ device. device.name };

    fn name(&self) -> &str {
        self.name.as_str()
    }
}

impl Named for Disk {
    ghost name_of = { λ disk. disk.name };

    fn name(&self) -> &str {
        self.name.as_str()
    }
}

impl Named for DiskPath {
    ghost name_of = { λ path. path.disk };

    fn name(&self) -> &str {
        self.disk.as_str()
    }
}

/// The indexes of the names of a stack.
#[derive(Drop)]
pub(crate) struct Names {
    pub devices: NameIndex,
    pub disks: NameIndex,
}

/// Indexes the names of devices and disks. Fails at the first device, or else the first disk, with the name of an
/// earlier one.
///
/// Cost: near-linear, with memory for a copy of each name. Fails with `Memory` if memory runs out.
pub(crate) fn check_names(
    alloc: Global,
    devices: &[DeviceSpec],
    disks: &[Disk],
) -> Result<Names, LoadFault>
    ensures devices { IfOk result (λ names. names.devices ≡ map (λ device. device.name) devices.now) }
    ensures disks { IfOk result (λ names. names.disks ≡ map (λ disk. disk.name) disks.now) }
    ensures apart { OnOk result (first_or (twice (described devices.now disks.now)) None ≡ None) }
    ensures fault { IfErr result (λ fault. fault.kind ≢ Memory
        → first_or (twice (described devices.now disks.now)) None ≡ Some fault) }
    ensures memory { IfErr result (λ fault. fault.kind ≡ Memory → IsMemoryFault Source fault) }
{
    let devices = index_of(alloc, devices)?;
    let disks = index_of(alloc, disks)?;
    Ok(Names { devices, disks })
}

/// Indexes the names of a list. Fails at the first element with the name of an earlier element.
pub(crate) fn index_of<T: Named + Placed>(alloc: Global, list: &[T]) -> Result<NameIndex, LoadFault>
    ensures { Answers Source (λ index. index) result
        (unless (first_or (twice_in T.name_of T.place_of list.now) None) (map T.name_of list.now)) }
{
    let Ok(mut names) = NameIndex::new(alloc, list.len()) else {
        return Err(out_of_memory());
    };
    for item in list {
        match names.add(alloc, item.name()) {
            Ok(true) => {}
            Ok(false) => {
                let at = item.place();
                return Err(LoadFault {
                    kind: LoadKind::Twice,
                    at,
                });
            }
            Err(_) => return Err(out_of_memory()),
        }
    }
    Ok(names)
}
