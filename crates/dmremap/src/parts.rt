//! Opens a command with FILE, DISKS and PATHS. FILE and DISKS describe the devices; PATHS, if given, says which images
//! hold the disks, and with them the exception stores of snapshots.

ghost use Rattle.dmremap.specs.Prelude.{delivery, delivered_if, delivery_if, PartsOpen, ArePartsOpened, ArePartsRead, places_in, range_answer, stored_start};
ghost use Rattle.std.specs.Prelude.{◌≡◌};

use crate::disk_paths::load_images_if;
use crate::exit::{Exit, Refusal};
use crate::job::{Format, SectorRange};
use crate::load::load;
use crate::opening::Opens;
use crate::prepared::{Prepared, begin_by};
use crate::read_run::read_range;
use dm_stack::Stack;
use dm_store::Images;
use dm_table::{Input, Output};
use std::alloc::Global;

/// The parts of a load, and the images of disks. The disk list and the list of paths may be missing.
#[derive(Drop)]
pub struct Parts<S, D, P, I> {
    pub(crate) format: Format,
    pub(crate) source: S,
    pub(crate) disks: Option<D>,
    pub(crate) paths: Option<P>,
    pub(crate) images: I,
}

impl<S: Input, D: Input, P: Input, I: Images> Opens for Parts<S, D, P, I> {
    ghost IsSeen = { λ parts held. I.IsSeen parts.images held };

    ghost opens = { λ old new held. PartsOpen old.format (delivery (S.past old.source) (S.past new.source))
        (delivery_if D.past old.disks new.disks) };

    ghost starts = { λ old new held. stored_start (delivered_if P.past old.paths new.paths) held };

    ghost reads = { λ old new held range stack. range_answer held stack range
        (places_in (delivered_if P.past old.paths new.paths) stack) };

    ghost HasOpened = { λ old new stack. ArePartsOpened S.past D.past stack old new };

    ghost IsRead = { λ old new. ArePartsRead S.past D.past P.past I.IsSeen old new };

    ghost IsLeft = { λ old new. new.images ≡ old.images };

    fn open(&mut self, alloc: Global) -> Result<Stack, Refusal> {
        match load(alloc, self.format, &mut self.source, &mut self.disks) {
            Ok(stack) => Ok(stack),
            Err(fault) => Err(Refusal::Load(fault)),
        }
    }

    fn begin<'s>(&mut self, alloc: Global, stack: &'s Stack) -> Result<Prepared<'s>, Refusal> {
        begin_by(alloc, stack, &mut self.paths, &mut self.images)
    }

    fn read_sectors<W: Output>(
        &mut self,
        alloc: Global,
        stack: &Stack,
        range: SectorRange<'_>,
        output: &mut W,
    ) -> Exit {
        let places = load_images_if(alloc, stack, &mut self.paths);
        read_range(alloc, stack, range, places, &mut self.images, output)
    }
}
