//! Joins: sinks that join pieces and write them as lines.
//!
//! A join holds one piece as long as others continue it, so a longer request needs no more memory. The contracts
//! describe what a join took in whole pieces, whatever units follow. Keep it so when you change them.

ghost use Rattle.dm_stream.specs.Prelude.{ℕ, List, None, Some, Description, LiesOnDisk, BlockUnit, IsOnDisk, disk_unit, units_in, units_of, HasWrittenTo, IsSameReference, Wrote, IsHeld, held_diskless, held_units, piece_of, join_past, AreFewest, fewest, pieces_text, join_lawful};
ghost use Rattle.dm_stack.specs.declared.id.Lower.TheVariants.{Disk};
ghost use Rattle.dm_stack.specs.declared.lines.leg.Beneath.TheVariants.{Lies};
ghost use Rattle.std.specs.Prelude.{◌≡◌, ◌-◌, ◌^◌, ◌≤◌};

use crate::pieces::disk_range::DiskRange;
use crate::pieces::disk_texts::DiskTexts;
use crate::pieces::held_piece::HeldPiece;
use dm_map::{Home, Piece, Sink};
use dm_stack::{Leg, Legs};
use dm_table::{Op, OutFault, Output};

/// A sink that joins the units of a request into the fewest pieces, and writes one line for each.
///
/// A join borrows its caller's writer until the join ends. If a piece doesn't continue the held one, the held one is
/// written first; if that write fails, neither is held, and only a prefix of the line was written. The sink's room is
/// how many 512-byte sectors a held piece without a disk can grow before its length exceeds 64 bits.
#[derive(Drop)]
pub struct Join<'s, W> {
    pub(crate) held: HeldPiece<'s>,
    pub(crate) writer: &'s mut W,
}

impl<'s, W: Output> Join<'s, W> {
    /// A join for requests to the devices of a stack; `texts` are those of the stack's disks. The join holds nothing,
    /// and the request number is 0.
    pub fn new(texts: &'s DiskTexts<'s>, writer: &'s mut W) -> Join<'s, W>
        ensures nothing { result.held ≡ record { stack = texts.now; number = 0; piece = None } }
        ensures writer { result.writer.now ≡ writer.old }
        ensures same_reference { IsSameReference writer.entry result.writer }
    {
        Join {
            held: HeldPiece::new(texts),
            writer,
        }
    }

    /// Sets the number of the next request. The previous request is finished, so no piece is held.
    #[inline(always)]
    pub fn begin(&mut self, number: u64)
        requires { self.old.held.piece ≡ None }
        ensures number { self.new.held
            ≡ record { stack = self.old.held.stack; number = number; piece = None } }
        ensures writer { self.new.writer.now ≡ self.old.writer.now }
        ensures same_reference { IsSameReference self.old.writer self.new.writer }
    {
        self.held.set_number(number);
    }

    /// Writes the held piece at the end of a request. No piece is held afterwards.
    ///
    /// `OutFault` if a write failed; then only a proper prefix of the line was written. Cost: the writes that one
    /// line needs, or none if nothing is held. Allocates nothing.
    #[inline(always)]
    pub fn finish(&mut self) -> Result<(), OutFault>
        ensures wrote { Wrote (W.past self.old.writer.now) (W.past self.new.writer.now) result
            (pieces_text self.old.held.stack self.old.held.number (fewest (held_units self.old.held.piece))) }
        ensures nothing { self.new.held
            ≡ record { stack = self.old.held.stack; number = self.old.held.number; piece = None } }
        ensures same_reference { IsSameReference self.old.writer self.new.writer }
        // No piece of `fewest units` continues the one before. No other pieces have that property, and none are fewer.
        ensures fewest { (units : List BlockUnit) → AreFewest units (fewest units) }
    {
        self.held.write(&mut *self.writer)
    }

    /// Writes a range that is the whole answer to a request. No piece is held, before or afterwards.
    ///
    /// `OutFault` if a write failed; then only a proper prefix of the line was written. Allocates nothing.
    #[inline(always)]
    pub(crate) fn write_range(&mut self, range: &DiskRange) -> Result<(), OutFault>
        requires { IsHeld self.old.held.stack (Some (piece_of range.now)) }
        ensures wrote { Wrote (W.past self.old.writer.now) (W.past self.new.writer.now) result
            (pieces_text self.old.held.stack self.old.held.number (fewest (units_of (piece_of range.now)))) }
        ensures held { self.new.held ≡ self.old.held }
        ensures same_reference { IsSameReference self.old.writer self.new.writer }
    {
        self.held.write_range(range, &mut *self.writer)
    }

    /// Makes the writer pass on its buffered bytes, before requests are read. Writes nothing more, and flushes nothing.
    pub(crate) fn drain(&mut self)
        ensures held { self.new.held ≡ self.old.held }
        ensures moved { HasWrittenTo W.past self.old.writer self.new.writer 0 }
        ensures written { (W.past self.new.writer.now).written ≡ (W.past self.old.writer.now).written }
        ensures out { W.is_out self.new.writer.now }
    {
        self.writer.drain();
    }

    /// Ends the join once its last request is finished, and returns its writer unchanged. Writes and flushes nothing.
    pub(crate) fn end(self) -> &'s mut W
        requires { self.held.piece ≡ None }
        ensures writer { result.now ≡ self.entry.writer.now }
        ensures same_reference { IsSameReference self.entry.writer result }
    {
        let Join {
            held: _held,
            writer,
        } = self;
        writer
    }
}

impl<W: Output> Sink for Join<'_, W> {
    type Fault = OutFault;

    ghost past = { join_past W.past };

    ghost lawful = { join_lawful W.past };

    #[inline(always)]
    fn piece(&mut self, piece: Piece) -> Result<(), OutFault> {
        if self.held.lengthen(&piece) {
            return Ok(());
        }
        self.held.replace(piece, &mut *self.writer)?;
        Ok(())
    }

    /// Keeps the held range in a local variable from one leg to the next.
    #[inline(always)]
    fn disk_legs(&mut self, op: Op, mut legs: Legs<'_>) -> Result<(), OutFault> {
        let Some(leg) = legs.next_leg() else {
            return Ok(());
        };
        let mut range = self
            .held
            .first_of_row(range_of(op, &leg), &mut *self.writer)?;
        'legs: while let Some(leg) = legs.next_leg() {
            range = self
                .held
                .next_of_row(&range, range_of(op, &leg), &mut *self.writer)?;
        }
        self.held.hold(range);
        Ok(())
    }
}

/// The range of a leg that lies directly on a disk.
#[inline(always)]
fn range_of(op: Op, leg: &Leg<'_>) -> DiskRange
    requires { LiesOnDisk leg.now.below }
    ensures units { (disk sector : ℕ) → leg.now.below ≡ Lies (Disk disk) sector
        → units_of (piece_of result) ≡ units_in (disk_unit op disk sector) leg.now.len }
    ensures held { (stack : Description) (disk sector : ℕ)
        → leg.now.below ≡ Lies (Disk disk) sector → 1 ≤ leg.now.len
        → IsOnDisk stack disk sector leg.now.len → IsHeld stack (Some (piece_of result)) }
{
    let (disk, start) = leg.on_disk();
    DiskRange::at(op, Home { disk, start }, leg.len)
}
