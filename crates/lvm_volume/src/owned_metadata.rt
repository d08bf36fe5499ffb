//! Reads a metadata text if there are images of some of the group's physical volumes; these physical volumes get the
//! names of the disks in the images.
//!
//! A disk that belongs to another group, or can't be used, is refused once the text has been read and before the group
//! is checked; otherwise a fault of the group would hide the reason.

ghost use Rattle.lvm_volume.specs.Prelude.{owners_view, Gives, GivesOneThing, OwnedAnswers, owned_tables};
ghost use Rattle.std.specs.Prelude.{◌≡◌};

use crate::fields::source_line::memory_fault;
use crate::group::owners::{DiskFault, Owners, first_untaken, ids_of, owned_group, physicals_of};
use crate::metadata::utf8_text;
use crate::refused_text::text_fault;
use crate::volume_group::VolumeGroup;
use dm_table::{DeviceSpec, Disk, LoadFault};
use lvm_text::{Section, parse};
use std::alloc::Global;

/// Why a metadata text describes no devices and disks if there are images of some of its physical volumes.
#[derive(Clone, Copy, Debug, PartialEq, Eq, Drop)]
pub enum OwnedFault {
    /// The disk with this number, counted from 0, can't be used for the physical volume whose id it carries.
    Disk(usize, DiskFault),
    /// The text is refused for this fault, just as if there were no images.
    Load(LoadFault),
}

/// The devices and disks that an LVM2 metadata text describes if there are images of some of its physical volumes. The
/// disk of such a physical volume gets the name of the disk in the image; other disks get the names that
/// `parse_metadata` gives them, and the checks use only the names that `parse_metadata` gives.
///
/// The fault is `Disk` for the first disk that can't be used, after the text has been read and before its group is
/// checked. All other faults are those of `parse_metadata`.
///
/// Cost: that of `parse_metadata`, and one comparison for each pair of an image's id and an id in the text.
pub fn parse_owned(
    alloc: Global,
    source: &[u8],
    owners: &Owners<'_>,
) -> Result<(Vec<DeviceSpec>, Vec<Disk>), OwnedFault>
    ensures given { OwnedAnswers (λ tables. (tables.0.items, tables.1.items)) (Gives (owners_view owners.now) source.now) result }
    // Every text has exactly one result: devices and disks, or one fault.
    ensures one { GivesOneThing (owners_view owners.now) source.now }
{
    let text = match utf8_text(source) {
        Ok(text) => text,
        Err(fault) => return Err(OwnedFault::Load(fault)),
    };
    match parse(alloc, text) {
        Ok(top) => owned_tables(alloc, &top, owners),
        Err(fault) => Err(OwnedFault::Load(text_fault(fault))),
    }
}

/// The devices and disks of the group in a tree, or the fault for which it is refused.
fn owned_tables(
    alloc: Global,
    top: &Section<'_>,
    owners: &Owners<'_>,
) -> Result<(Vec<DeviceSpec>, Vec<Disk>), OwnedFault>
    ensures { OwnedAnswers (λ tables. (tables.0.items, tables.1.items))
        (λ said. said ≡ owned_tables (owners_view owners.now) top.now) result }
{
    let Ok(physicals) = physicals_of(alloc, top) else {
        return Err(OwnedFault::Load(memory_fault()));
    };
    let Ok(ids) = ids_of(alloc, &physicals) else {
        return Err(OwnedFault::Load(memory_fault()));
    };
    if let Some((disk, fault)) = first_untaken(owners, &physicals) {
        return Err(OwnedFault::Disk(disk, fault));
    }
    let group = match VolumeGroup::read(alloc, top) {
        Ok(group) => group,
        Err(fault) => return Err(OwnedFault::Load(fault)),
    };
    let Ok(owned) = owned_group(alloc, owners, &ids, group) else {
        return Err(OwnedFault::Load(memory_fault()));
    };
    match owned.tables(alloc) {
        Ok(tables) => Ok(tables),
        Err(fault) => Err(OwnedFault::Load(fault)),
    }
}
