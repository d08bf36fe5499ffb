//! Reads disks in images: the index of a disk in a list of paths says which image holds it.

ghost use Rattle.dmremap.specs.Prelude.{AreSeen};
ghost use Rattle.std.specs.Prelude.{◌≡◌};

use dm_store::{Images, read_extent};
use dm_table::{DiskPath, ReadFault};
use lvm_head::Disks;
use std::alloc::Global;

/// Images, and a list of which image holds which disk.
#[derive(Drop)]
pub struct ListedImages<I> {
    pub(crate) images: I,
    pub(crate) paths: Vec<DiskPath>,
}

impl<I> ListedImages<I> {
    /// Images with an empty list. Allocates nothing.
    pub fn new(alloc: Global, images: I) -> ListedImages<I>
        ensures { result.images ≡ images }
    {
        ListedImages {
            images,
            paths: Vec::new(alloc),
        }
    }
}

impl<I: Images> Disks for ListedImages<I> {
    ghost listed = { λ disks. disks.paths.items };

    ghost IsSeen = { λ disks held. AreSeen (I.IsSeen disks.images) disks.paths.items held };

    fn read(&mut self, disk: usize, sector: u64, into: &mut [u8]) -> Result<(), ReadFault> {
        let Some(path) = self.paths.get(disk) else {
            return Err(ReadFault);
        };
        read_extent(
            &mut self.images,
            path.at.number,
            path.file.as_str(),
            path.extent,
            sector,
            into,
        )
    }
}
