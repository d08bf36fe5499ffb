//! Opens a command with PATHS, a list of the images of a volume group's disks. The heads of the disks describe the
//! devices, and the images also hold the exception stores of the group's snapshots.

ghost use Rattle.dmremap.specs.Prelude.{Some, delivery, AreImagesOpened, AreImagesRead, ImagesOpen, places_in, range_answer, stored_start};

use crate::exit::{Exit, Refusal};
use crate::images_load::{load_images, read_list};
use crate::job::SectorRange;
use crate::listed_images::ListedImages;
use crate::opening::Opens;
use crate::prepared::{Prepared, begin_in};
use crate::read_run::read_range;
use dm_stack::Stack;
use dm_store::{Images, listed_images};
use dm_table::{Input, Output};
use std::alloc::Global;

/// A list of paths, and the images of the disks that the list names.
#[derive(Drop)]
pub struct GroupImages<P, I> {
    pub(crate) list: P,
    pub(crate) disks: ListedImages<I>,
}

impl<P: Input, I: Images> Opens for GroupImages<P, I> {
    ghost IsSeen = { λ group held. I.IsSeen group.disks.images held };

    ghost opens = { λ old new held. ImagesOpen (delivery (P.past old.list) (P.past new.list)) held };

    ghost starts = { λ old new held. stored_start (Some (delivery (P.past old.list) (P.past new.list))) held };

    ghost reads = { λ old new held range stack. range_answer held stack range
        (places_in (Some (delivery (P.past old.list) (P.past new.list))) stack) };

    ghost HasOpened = { λ old new stack. AreImagesOpened P.past I.IsSeen stack old new };

    ghost IsRead = { λ old new. AreImagesRead P.past old new };

    ghost IsLeft = { λ old new. Unit {0} };

    fn open(&mut self, alloc: Global) -> Result<Stack, Refusal> {
        match read_list(alloc, &mut self.list) {
            Ok(listed) => {
                self.disks.paths = listed;
                load_images(alloc, &mut self.disks)
            }
            Err(fault) => Err(Refusal::Load(fault)),
        }
    }

    fn begin<'s>(&mut self, alloc: Global, stack: &'s Stack) -> Result<Prepared<'s>, Refusal> {
        begin_in(alloc, stack, &mut self.disks)
    }

    fn read_sectors<W: Output>(
        &mut self,
        alloc: Global,
        stack: &Stack,
        range: SectorRange<'_>,
        output: &mut W,
    ) -> Exit {
        let places = listed_images(alloc, stack, &self.disks.paths);
        read_range(alloc, stack, range, places, &mut self.disks.images, output)
    }
}
