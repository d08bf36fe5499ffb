//! The names of a stack's disks, as lines write them.
//!
//! There are few disks and hundreds of millions of lines, so the texts are made once, before a run. They aren't part of
//! the stack, because only a run writes lines; nor are they made by the run, because a run allocates nothing.

ghost use Rattle.dm_stream.specs.Prelude.{IfOk, length, map, disk_name_at, IsSound, disk_text};
ghost use Rattle.std.specs.Prelude.{◌≡◌, ◌<◌};

use crate::pieces::disk_text::DiskText;
use dm_stack::{DiskId, Stack};
use dm_table::{Disk, Reserved};
use std::alloc::{AllocError, Global};
use std::marker::Model;

/// A stack, with the texts of its disks' names. In contracts, the value is the stack.
#[derive(Drop)]
pub struct DiskTexts<'s> {
    stack: &'s Stack,
    texts: Reserved<DiskText>,
}

impl<'s> Model for DiskTexts<'s> {
    ghost use Rattle.dm_stream.specs.Base.{map, Description};
    ghost use Rattle.dm_stream.specs.pieces.DiskText.{disk_text};
    ghost use Rattle.std.specs.Prelude.{◌≡◌};

    ghost Value = { Description };

    ghost view = { λ texts. texts.stack.now };

    ghost invariant = { λ texts. texts.texts.items
        ≡ map (λ disk. disk_text disk.name) texts.stack.now.disks };
}

impl<'s> DiskTexts<'s> {
    /// The texts of the names of a stack's disks.
    ///
    /// Fails only when out of memory. Cost: linear in the number of disks; 328 bytes for each disk.
    pub fn new(alloc: Global, stack: &'s Stack) -> Result<DiskTexts<'s>, AllocError>
        ensures { IfOk result (λ texts. texts ≡ stack.now) }
    {
        let texts = texts_of(alloc, stack.disks())?;
        Ok(DiskTexts {
            stack,
            texts: Reserved::from_vec(texts),
        })
    }

    /// Makes the fact that the stack is sound available to a proof. Does nothing at run time.
    #[inline(always)]
    pub(crate) fn recall_soundness(&self)
        ensures { IsSound self.now }
    {
        self.stack.depth();
    }

    /// The text for the name of one of the stack's disks.
    #[inline(always)]
    pub(crate) fn of(&self, disk: DiskId) -> &DiskText
        requires { disk < length self.now.disks }
        ensures { result.now ≡ disk_text (disk_name_at self.now disk) }
    {
        &self.texts[disk.index()]
    }
}

/// The texts for the names of all disks, in the order of the disks.
fn texts_of(alloc: Global, disks: &[Disk]) -> Result<Vec<DiskText>, AllocError>
    ensures { IfOk result (λ texts. texts.items ≡ map (λ disk. disk_text disk.name) disks.now) }
{
    let mut texts = Vec::new(alloc);
    for disk in disks {
        texts.push(DiskText::new(&disk.name))?;
    }
    Ok(texts)
}
