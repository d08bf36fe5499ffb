//! The piece that a join holds back, because the next piece may continue it.
//!
//! The held piece always lies on the disks of the stack, so its line can always be written. If you add a kind of
//! piece, define here when one such piece continues another.
//!
//! Ranges are held apart from other pieces, and consecutive legs and whole answers have methods of their own. That
//! only saves time: RESULTS.md has the gain as *legs on disks in one go* and *a range that lies on one disk is
//! returned and written at once*. It relies on `AreApart`: a range and another piece are never held together. Change
//! it only if you measure small requests, and requests over stripes, before and after.

ghost use Rattle.dm_stream.specs.Prelude.{OnTrue, OnFalse, IfOk, List, OnErr, OnOk, Some, None, fault_of, BlockUnit, IsOnDisks, diskless_len, first_unit, piece_len, units_of, HasWritten, Wrote, HasLeft, HasTaken, Fits, HoldsNoRange, IsHeld, IsNoRange, goes_on, held_diskless, held_units, holding, piece_of, pieces_text, fewest, is_after};
ghost use Rattle.std.specs.Prelude.{◌≡◌, ◌+◌, ◌-◌, ◌≤◌, ◌++◌, ◌^◌};

use crate::pieces::disk_range::{DiskRange, follows};
use crate::pieces::disk_texts::DiskTexts;
use crate::pieces::line_ends::LineEnds;
use crate::pieces::number_prefix::NumberPrefix;
use crate::pieces::piece_text::{put_other, put_range};
use crate::pieces::range_text::RangeText;
use dm_map::Piece;
use dm_table::{OutFault, Output};
use std::marker::Model;

/// At most one piece of a request to a stack's devices, and the request's number.
#[derive(Drop)]
pub(crate) struct HeldPiece<'s> {
    disks: &'s DiskTexts<'s>,
    /// The held read or write, if there is one.
    range: Option<DiskRange>,
    /// The held piece that is neither a read nor a write, if there is one.
    other: Option<Piece>,
    /// The request's number as text; each line of the request begins with it.
    prefix: NumberPrefix,
    /// The start and length of the last written range, as text.
    text: RangeText,
    ends: LineEnds,
}

impl<'s> Model for HeldPiece<'s> {
    ghost use Rattle.dm_stream.specs.pieces.Pending.{AreApart, IsHeld, Pending, held_of};

    ghost Value = { Pending };

    ghost view = { λ held. record {
      stack = held.disks.now;
      number = held.prefix;
      piece = held_of held.range held.other;
    } };

    ghost invariant = { λ held. IsHeld held.disks.now (held_of held.range held.other)
        × AreApart held.range held.other };
}

impl<'s> HeldPiece<'s> {
    /// A `HeldPiece` that holds no piece, with request number 0.
    pub(crate) fn new(disks: &'s DiskTexts<'s>) -> HeldPiece<'s>
        ensures { result ≡ record { stack = disks.now; number = 0; piece = None } }
    {
        HeldPiece {
            disks,
            range: None,
            other: None,
            prefix: NumberPrefix::new(),
            text: RangeText::new(),
            ends: LineEnds::new(),
        }
    }

    /// Sets the number of the request that the next pieces belong to.
    #[inline(always)]
    pub(crate) fn set_number(&mut self, number: u64)
        ensures { self.new ≡ record { stack = self.old.stack; number = number; piece = self.old.piece } }
    {
        self.prefix.set(number);
    }

    /// Lengthens the held piece if `piece` continues it. Otherwise, or if no piece is held, returns false and changes
    /// nothing.
    #[inline(always)]
    pub(crate) fn lengthen(&mut self, piece: &Piece) -> bool
        requires some { 1 ≤ piece_len piece.now }
        requires lies { IsOnDisks self.old.stack piece.now }
        requires room { diskless_len piece.now ≤ 2 ^ 64 - 1 - held_diskless self.old.piece }
        ensures joined { OnTrue result
            (held_units self.new.piece ≡ held_units self.old.piece ++ units_of piece.now) }
        ensures diskless { OnTrue result
            (held_diskless self.new.piece ≡ held_diskless self.old.piece + diskless_len piece.now) }
        ensures others { OnTrue result ((self.new.stack ≡ self.old.stack)
            × (self.new.number ≡ self.old.number)) }
        ensures same { OnFalse result (self.new ≡ self.old) }
        // If the new piece doesn't continue the held one, the held one is complete, whatever units follow.
        ensures apart { OnFalse result ((rest : List BlockUnit)
            → fewest (held_units self.old.piece ++ units_of piece.now ++ rest)
            ≡ fewest (held_units self.old.piece) ++ fewest (units_of piece.now ++ rest)) }
    {
        if !self.goes_on(piece) {
            return false;
        }
        let more = piece.len();
        if let Some(range) = &self.range {
            self.range = Some(range.longer(self.disks, more));
        } else if let Some(other) = &self.other {
            self.other = Some(longer(self.disks, other, more));
        }
        true
    }

    /// Whether `piece` continues the held one.
    #[inline(always)]
    fn goes_on(&self, piece: &Piece) -> bool
        ensures { result ≡ goes_on self.now.piece piece.now }
    {
        match DiskRange::of(piece) {
            Some(next) => match &self.range {
                Some(range) => range.goes_on(&next),
                None => false,
            },
            None => match &self.other {
                Some(other) => goes_on(other, piece),
                None => false,
            },
        }
    }

    /// Holds a piece in the place of the held one, whose line is written. If that fails, none is held.
    #[inline(always)]
    pub(crate) fn replace<W: Output>(
        &mut self,
        piece: Piece,
        writer: &mut W,
    ) -> Result<(), OutFault>
        requires fits { IsHeld self.old.stack (Some piece) }
        ensures wrote { Wrote (W.past writer.old) (W.past writer.new) result
            (pieces_text self.old.stack self.old.number (fewest (held_units self.old.piece))) }
        ensures held { OnOk result (self.new
            ≡ record { stack = self.old.stack; number = self.old.number; piece = Some piece }) }
        ensures nothing { OnErr result (self.new
            ≡ record { stack = self.old.stack; number = self.old.number; piece = None }) }
    {
        if let Some(range) = &self.range {
            // The old range stays in its field until the next piece replaces it, so the field isn't cleared in between.
            self.text.note(range.start, range.len);
            if let Err(fault) = put_range(
                writer,
                &self.prefix,
                &self.ends,
                &self.text,
                self.disks,
                range,
            ) {
                self.range = None;
                return Err(fault);
            }
        } else {
            self.write_other(writer)?;
        }
        match DiskRange::of(&piece) {
            Some(next) => self.range = Some(next),
            None => {
                self.range = None;
                self.other = Some(piece);
            }
        }
        Ok(())
    }

    /// Returns the range to hold after the held piece and `next`, and holds nothing itself. Writes the held piece
    /// first, unless `next` continues it. If that write fails, neither is held.
    #[inline(always)]
    pub(crate) fn first_of_row<W: Output>(
        &mut self,
        next: DiskRange,
        writer: &mut W,
    ) -> Result<DiskRange, OutFault>
        requires { IsHeld self.old.stack (Some (piece_of next)) }
        ensures nothing { self.new
            ≡ record { stack = self.old.stack; number = self.old.number; piece = None } }
        ensures moved { HasWritten (W.past writer.old) (W.past writer.new) (fault_of result) }
        ensures took { IfOk result (λ range. HasTaken self.old (holding self.old range)
            (units_of (piece_of next)) (W.past writer.old).written (W.past writer.new).written) }
        ensures fits { IfOk result (λ range. IsHeld self.old.stack (Some (piece_of range))) }
        ensures left { OnErr result (HasLeft self.old self.new (units_of (piece_of next))
            (W.past writer.old).written (W.past writer.new).written) }
    {
        match self.range {
            Some(range) => {
                self.range = None;
                self.next_of_row(&range, next, writer)
            }
            None => {
                self.write_other(writer)?;
                Ok(next)
            }
        }
    }

    /// Returns the range to hold after `range` and `next`: both as one if `next` continues `range`. Otherwise writes
    /// `range` and returns `next`; if that write fails, neither is held.
    #[inline(always)]
    pub(crate) fn next_of_row<W: Output>(
        &mut self,
        range: &DiskRange,
        next: DiskRange,
        writer: &mut W,
    ) -> Result<DiskRange, OutFault>
        requires nothing { self.old.piece ≡ None }
        requires held { IsHeld self.old.stack (Some (piece_of range.now)) }
        requires next { IsHeld self.old.stack (Some (piece_of next)) }
        ensures same { self.new ≡ self.old }
        ensures moved { HasWritten (W.past writer.old) (W.past writer.new) (fault_of result) }
        ensures took { IfOk result (λ after. HasTaken (holding self.old range.now)
            (holding self.old after) (units_of (piece_of next)) (W.past writer.old).written
            (W.past writer.new).written) }
        ensures fits { IfOk result (λ after. IsHeld self.old.stack (Some (piece_of after))) }
        ensures left { OnErr result (HasLeft (holding self.old range.now) self.new
            (units_of (piece_of next)) (W.past writer.old).written (W.past writer.new).written) }
    {
        if range.goes_on(&next) {
            return Ok(range.longer(self.disks, next.len));
        }
        self.text.note(range.start, range.len);
        put_range(
            writer,
            &self.prefix,
            &self.ends,
            &self.text,
            self.disks,
            range,
        )?;
        Ok(next)
    }

    /// Holds a range that `first_of_row` or `next_of_row` returned.
    #[inline(always)]
    pub(crate) fn hold(&mut self, range: DiskRange)
        requires nothing { self.old.piece ≡ None }
        requires held { IsHeld self.old.stack (Some (piece_of range)) }
        ensures { self.new ≡ holding self.old range }
    {
        self.range = Some(range);
    }

    /// Writes the line of the held piece, which is then no longer held. Writes nothing if none is held.
    #[inline(always)]
    pub(crate) fn write<W: Output>(&mut self, writer: &mut W) -> Result<(), OutFault>
        ensures wrote { Wrote (W.past writer.old) (W.past writer.new) result
            (pieces_text self.old.stack self.old.number (fewest (held_units self.old.piece))) }
        ensures nothing { self.new
            ≡ record { stack = self.old.stack; number = self.old.number; piece = None } }
    {
        if let Some(range) = &self.range {
            self.text.note(range.start, range.len);
            let wrote = put_range(
                writer,
                &self.prefix,
                &self.ends,
                &self.text,
                self.disks,
                range,
            );
            self.range = None;
            return wrote;
        }
        self.write_other(writer)
    }

    /// Writes the line of the held piece, which isn't a read or a write. Writes nothing if none is held.
    #[inline(always)]
    fn write_other<W: Output>(&mut self, writer: &mut W) -> Result<(), OutFault>
        requires { HoldsNoRange self.old.piece }
        ensures wrote { Wrote (W.past writer.old) (W.past writer.new) result
            (pieces_text self.old.stack self.old.number (fewest (held_units self.old.piece))) }
        ensures nothing { self.new
            ≡ record { stack = self.old.stack; number = self.old.number; piece = None } }
    {
        let Some(other) = &self.other else {
            return Ok(());
        };
        let wrote = put_other(writer, &self.prefix, &self.ends, self.disks, other);
        self.other = None;
        wrote
    }

    /// Writes the line of a range that is the whole answer to a request. Nothing is held.
    #[inline(always)]
    pub(crate) fn write_range<W: Output>(
        &self,
        range: &DiskRange,
        writer: &mut W,
    ) -> Result<(), OutFault>
        requires { IsHeld self.now.stack (Some (piece_of range.now)) }
        ensures { Wrote (W.past writer.old) (W.past writer.new) result
            (pieces_text self.now.stack self.now.number (fewest (units_of (piece_of range.now)))) }
    {
        // The next request is unlikely to have the same range, so the text of this one isn't kept.
        let none = RangeText::new();
        put_range(writer, &self.prefix, &self.ends, &none, self.disks, range)
    }
}

/// Whether `piece` continues `held`. Neither is a read or a write.
#[inline(always)]
fn goes_on(held: &Piece, piece: &Piece) -> bool
    requires held { IsNoRange held.now }
    requires piece { IsNoRange piece.now }
    ensures { result ≡ is_after (first_unit held.now) (piece_len held.now) (first_unit piece.now) }
{
    match *piece {
        Piece::Read { .. } | Piece::Write { .. } => unreachable!(),
        Piece::Zero { .. } => matches!(*held, Piece::Zero { .. }),
        Piece::Drop { .. } => matches!(*held, Piece::Drop { .. }),
        Piece::Error { .. } => matches!(*held, Piece::Error { .. }),
        Piece::Copy {
            disk,
            start: next,
            to,
            to_start: next_to,
            ..
        } => {
            matches!(*held, Piece::Copy { disk: other, start, len, to: other_to, to_start } if other == disk && follows(start, len, next) && other_to == to && follows(to_start, len, next_to))
        }
        Piece::Fill {
            disk,
            start: next,
            ..
        } => {
            matches!(*held, Piece::Fill { len, disk: other, start } if other == disk && follows(start, len, next))
        }
    }
}

/// The piece `held`, lengthened by `more` sectors.
#[inline(always)]
fn longer(disks: &DiskTexts<'_>, held: &Piece, more: u64) -> Piece
    requires { Fits disks.now (first_unit held.now) (piece_len held.now + more) }
    ensures first { first_unit result ≡ first_unit held.now }
    ensures len { piece_len result ≡ piece_len held.now + more }
    ensures lies { IsOnDisks disks.now result }
{
    // A `Stack` is sound, so its disks are short enough that the new length can't overflow.
    disks.recall_soundness();
    held.with_len(held.len() + more)
}
