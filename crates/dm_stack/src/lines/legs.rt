//! An iterator over the legs of a part of a striped line.
//!
//! A leg is the remainder of a chunk, or ends with the part if that ends earlier. Its position is computed from
//! the previous leg's, without a division. The target is read once, so a loop over legs keeps it in registers.
//!
//! This is here for speed alone, since `ResolvedTarget::leg` finds each leg, too: RESULTS.md lists the gain as
//! *rows of legs* and *legs on disks in one go*. It relies on `next_stripe_chunk` returning the position that
//! `position_at` would find. If you change it, measure large requests over 16 columns before and after.

ghost use Rattle.dm_stack.specs.Prelude.{true, IfNone, IfSome, is_striped, after_leg, has_disk_columns, HasSectors, IsLeg};
ghost use Rattle.std.specs.Prelude.{◌≡◌};

use crate::lines::leg::{Beneath, Leg};
use crate::lines::resolved_columns::ResolvedColumn;
use crate::lines::resolved_line::ResolvedTarget;
use crate::lines::stripe_position::{StripePosition, next_stripe_chunk, position_at};
use std::marker::Model;

/// Returns the legs of a part of a striped line, in order. Contracts see the line's target, the distance of the
/// next sector into the line, and how many sectors are left.
#[derive(Drop)]
pub struct Legs<'l> {
    chunk_size: u64,
    columns: &'l [ResolvedColumn],
    position: StripePosition,
    distance: u64,
    left: u64,
}

impl<'l> Model for Legs<'l> {
    ghost use Rattle.dm_stack.specs.declared.lines.resolved_line.ResolvedTarget.TheVariants.{Striped};
    ghost use Rattle.dm_stack.specs.lines.Leg.{AreLeft, LegsView};

    ghost Value = { LegsView };

    ghost view = { λ legs. record {
      target = Striped legs.chunk_size legs.columns.now;
      distance = legs.distance;
      left = legs.left;
    } };

    ghost invariant = { λ legs.
        AreLeft legs.chunk_size legs.columns.now legs.position legs.distance legs.left };
}

impl ResolvedTarget {
    /// The legs of `len` sectors of a striped line with this target, from a distance into the line on. No memory
    /// is allocated.
    #[inline(always)]
    pub fn legs(&self, distance: u64, len: u64) -> Legs<'_>
        requires striped { is_striped self.now ≡ true }
        requires there { HasSectors self.now distance len }
        ensures { result ≡ record { target = self.now; distance = distance; left = len } }
    {
        let ResolvedTarget::Striped { chunk, columns } = self else {
            unreachable!()
        };
        Legs {
            chunk_size: chunk.value(),
            columns: columns.as_slice(),
            position: position_at(chunk, columns.count(), distance),
            distance,
            left: len,
        }
    }

    /// Whether the target is striped, with all its columns on disks.
    #[inline(always)]
    pub fn has_disk_columns(&self) -> bool
        ensures { result ≡ has_disk_columns self.now }
    {
        match self {
            ResolvedTarget::Striped { columns, .. } => columns.are_on_disks(),
            _ => false,
        }
    }
}

impl<'l> Legs<'l> {
    /// The next leg, or None if no sector is left.
    #[inline(always)]
    pub fn next_leg(&mut self) -> Option<Leg<'l>>
        ensures none { IfNone result (self.old.left ≡ 0) }
        ensures leg { IfSome result (λ leg. IsLeg self.old.target self.old.distance self.old.left leg) }
        ensures after { IfSome result (λ leg. self.new ≡ after_leg self.old leg.len) }
    {
        if self.left == 0 {
            return None;
        }
        let column = self.columns[self.position.column];
        let sector = column.offset + self.position.in_column();
        let len = self.left.min(self.chunk_size - self.position.past);
        self.position = next_stripe_chunk(self.chunk_size, self.columns.len(), self.position);
        self.distance += len;
        self.left -= len;
        Some(Leg {
            below: Beneath::Lies {
                to: column.to,
                sector,
            },
            len,
        })
    }
}
