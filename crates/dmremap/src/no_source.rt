//! The source of a command that loads nothing. If such a source is opened all the same, it can't be read.

ghost use Rattle.dmremap.specs.Prelude.{None, Read, fault_at, RefusedBy, Loaded, fresh_start};
ghost use Rattle.std.specs.Prelude.{◌≡◌};
ghost use Rattle.dm_table.specs.declared.load.place.Part.TheVariants as parts;

use crate::exit::{Exit, Refusal};
use crate::job::SectorRange;
use crate::load::unread;
use crate::opening::Opens;
use crate::prepared::{Prepared, begin};
use dm_stack::Stack;
use dm_table::{Output, Part};
use std::alloc::Global;

/// The source of a command that loads nothing.
#[derive(Drop)]
pub struct NoSource;

impl Opens for NoSource {
    ghost IsSeen = { λ source held. Unit {0} };

    ghost opens = { λ old new held opening. opening ≡ Loaded (RefusedBy (fault_at parts.Source Read 0)) };

    ghost starts = { λ old new held. fresh_start };

    ghost reads = { λ old new held range stack. None };

    ghost HasOpened = { λ old new stack. ⊥ };

    ghost IsRead = { λ old new. Unit {0} };

    ghost IsLeft = { λ old new. Unit {0} };

    fn open(&mut self, _alloc: Global) -> Result<Stack, Refusal> {
        Err(Refusal::Load(unread(Part::Source)))
    }

    fn begin<'s>(&mut self, alloc: Global, stack: &'s Stack) -> Result<Prepared<'s>, Refusal> {
        begin(alloc, stack)
    }

    fn read_sectors<W: Output>(
        &mut self,
        _alloc: Global,
        _stack: &Stack,
        _range: SectorRange<'_>,
        _output: &mut W,
    ) -> Exit {
        Exit::unloaded(unread(Part::Source))
    }
}
