//! Volume groups: what the metadata of a group describes, once all checks have passed.
//!
//! The type `VolumeGroup` guarantees what is needed to make tables: numbers fit 64 bits when counted in sectors,
//! stripes are on physical volumes that exist, and the origins of snapshots have the role of origins. A new check is
//! added here and in `group_checks` of `specs/tables/Tables.antt`.

ghost use Rattle.lvm_volume.specs.Prelude.{ℕ, List, Source, Answers, first_fault, unless, IsChecked, group_of, group_with, checks_of_parts, group_checks};

use crate::checks::extents::{check_extents, check_sizes};
use crate::checks::segment_check::{check_snapshots, check_targets};
use crate::fields::source_line::memory_fault;
use crate::group::group_fields::read_fields;
use crate::group::key::Key;
use crate::group::physical::{Physical, named_physicals};
use crate::group::volume::Volume;
use dm_table::LoadFault;
use lvm_text::Section;
use std::alloc::{AllocError, Global};
use std::marker::Model;

/// A volume group that has passed all checks, with its physical volumes and its logical volumes.
#[derive(Debug, Drop)]
pub struct VolumeGroup {
    pub(crate) name: Key,
    pub(crate) extent_size: u64,
    pub(crate) physicals: Vec<Physical>,
    pub(crate) volumes: Vec<Volume>,
}

impl Model for VolumeGroup {
    ghost use Rattle.lvm_volume.specs.group.Group.{Group, group_with};
    ghost use Rattle.lvm_volume.specs.tables.Tables.{IsSoundGroup};

    ghost Value = { Group };

    ghost view = { λ g. group_with g.name g.extent_size g.physicals.items g.volumes.items };

    ghost invariant = { λ g. IsSoundGroup
        (group_with g.name g.extent_size g.physicals.items g.volumes.items) };
}

/// The physical and logical volumes of a group, before they are checked together.
#[derive(Drop)]
pub(crate) struct Parts {
    physicals: Vec<Physical>,
    volumes: Vec<Volume>,
}

impl VolumeGroup {
    /// Reads the volume group that a metadata text describes, from the top of its tree.
    ///
    /// The checks run over the whole text one after the other. The first check that finds a fault reports its first
    /// one, in the order of the text; all kinds but `Unknown` and `Snapshot` take a volume's segments by their numbers:
    /// `Field` for a field that is missing or invalid; `Limit` for an integer above 2^50, or a number of extents above
    /// it in sectors; `Name` for a physical volume whose disk gets no name; `Unknown` for a stripe on an unknown
    /// physical volume, or a snapshot with an unknown origin or store; `Extents` for a physical volume longer than its
    /// device, or a segment that is misplaced or uses an extent twice; `Snapshot` for a snapshot beside other segments
    /// in its volume, one whose origin or store is itself a record, one whose store is an origin or another snapshot's
    /// store, and one that doesn't have as many extents as its origin. `Memory` is returned only if an allocation was
    /// refused.
    ///
    /// Cost: near-linear in the text. Source: vgcfgbackup(8), lvm.conf(5); the limits are this project's own.
    pub fn read(alloc: Global, top: &Section<'_>) -> Result<VolumeGroup, LoadFault>
        // Returns the group of the text exactly if no check finds a fault, and else the first fault, unless memory runs
        // out.
        ensures { Answers Source (λ group. group) result
            (unless (first_fault (group_checks top.now)) (group_of top.now)) }
    {
        let fields = match read_fields(alloc, top) {
            Ok(fields) => fields,
            Err(fault) => return Err(fault),
        };
        let parts = Parts {
            physicals: named_physicals(alloc, &fields.physicals)?,
            volumes: fields.volumes,
        };
        check_parts(alloc, fields.extent_size, &parts)?;
        let Ok(name) = Key::new(alloc, fields.name) else {
            return Err(memory_fault());
        };
        Ok(VolumeGroup {
            name,
            extent_size: fields.extent_size,
            physicals: parts.physicals,
            volumes: parts.volumes,
        })
    }
}

/// Checks what segments refer to, how extents are used, and snapshots, in this order.
fn check_parts(alloc: Global, extent_size: u64, parts: &Parts) -> Result<(), LoadFault>
    ensures { (name : List ℕ) → IsChecked result (first_fault (checks_of_parts
        (group_with name extent_size parts.now.physicals.items parts.now.volumes.items))) }
{
    let physicals = parts.physicals.as_slice();
    let volumes = parts.volumes.as_slice();
    check_targets(physicals, volumes)?;
    check_sizes(extent_size, physicals)?;
    check_extents(alloc, physicals, volumes)?;
    check_snapshots(alloc, volumes)
}
