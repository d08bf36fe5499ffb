//! The image files in which the disks of a stack are.

ghost use Rattle.dm_store.specs.Prelude.{None, Some, IfNone, IfSome, length, AreRead, Contents, disk_contents, place_of};
ghost use Rattle.dm_table.specs.declared.io.sectors.TheConstants.{MOST_BYTES, SECTOR};
ghost use Rattle.std.specs.Prelude.{◌≡◌, ◌+◌, ◌<◌, ◌≤◌, ◌%◌, ◌^◌};

use crate::fault::SectorFault;
use crate::image_place::ImagePlace;
use crate::images::{Images, ReadFault, read_extent};
use dm_stack::DiskId;
use std::marker::Model;

/// For each disk of a stack, by its id, the image in which it is, if there is one.
#[derive(Debug, Drop)]
pub struct DiskImages {
    places: Vec<Option<ImagePlace>>,
}

impl Model for DiskImages {
    ghost use Rattle.dm_store.specs.Base.{List, Option};
    ghost use Rattle.dm_store.specs.Places.{Place};

    ghost Value = { List (Option Place) };

    ghost view = { λ images. images.places.items };
}

impl DiskImages {
    /// The images of all disks, in the order of the disks' ids. Allocates nothing.
    pub(crate) fn of_places(places: Vec<Option<ImagePlace>>) -> DiskImages
        ensures { result ≡ places.items }
    {
        DiskImages { places }
    }

    /// The image in which a disk is, if there is one.
    fn place(&self, disk: DiskId) -> Option<&ImagePlace>
        ensures some { IfSome result (λ place. place_of self.now disk ≡ Some place.now) }
        ensures none { IfNone result (place_of self.now disk ≡ None) }
    {
        match self.places.get(disk.index()) {
            Some(Some(place)) => Some(place),
            _ => None,
        }
    }

    /// Reads whole sectors of a disk, from `sector` on, until `into` is full. After a fault, `into` may hold anything.
    pub fn read<I: Images>(
        &self,
        images: &mut I,
        disk: DiskId,
        sector: u64,
        into: &mut [u8],
    ) -> Result<(), SectorFault>
        requires whole { length into.old % SECTOR ≡ 0 }
        requires some { SECTOR ≤ length into.old }
        requires few { length into.old ≤ MOST_BYTES }
        requires near { sector ≤ 2 ^ 50 }
        ensures still { (held : Contents) → I.IsSeen images.new held → I.IsSeen images.old held }
        ensures is { (held : Contents) → I.IsSeen images.new held
            → AreRead (disk_contents self.now held disk) sector result into.new }
    {
        let Some(place) = self.place(disk) else {
            return Err(SectorFault::Missing);
        };
        match read_extent(
            images,
            place.line(),
            place.path(),
            place.extent(),
            sector,
            into,
        ) {
            Ok(()) => Ok(()),
            Err(ReadFault) => Err(SectorFault::Read),
        }
    }
}
