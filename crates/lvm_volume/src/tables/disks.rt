//! Makes the disks of physical volumes.

ghost use Rattle.lvm_volume.specs.Prelude.{IfOk, map, physical_disk};
ghost use Rattle.std.specs.Prelude.{◌≡◌};

use crate::fields::source_line::source_line;
use crate::group::physical::Physical;
use dm_table::Disk;
use std::alloc::{AllocError, Global};

/// The disks of the physical volumes, in order.
pub(crate) fn disks_of(alloc: Global, physicals: &[Physical]) -> Result<Vec<Disk>, AllocError>
    ensures { IfOk result (λ v. v.items ≡ map physical_disk physicals.now) }
{
    let mut disks = Vec::new(alloc);
    for physical in physicals {
        disks.push(physical_disk(alloc, physical)?)?;
    }
    Ok(disks)
}

/// The disk of a physical volume.
#[tactic(auto, unfolding(crate::specs::tables::Tables::physical_disk))]
fn physical_disk(alloc: Global, physical: &Physical) -> Result<Disk, AllocError>
    ensures { IfOk result (λ disk. disk ≡ physical_disk physical.now) }
{
    Ok(Disk {
        name: physical.disk.copy(alloc)?,
        len: physical.size,
        at: source_line(physical.line),
    })
}
