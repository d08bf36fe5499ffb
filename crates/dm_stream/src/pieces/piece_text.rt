//! The lines of pieces, as texts that are put into a block.
//!
//! There are hundreds of millions of reads and writes, so the code for their lines is inlined; other kinds of pieces
//! are put by a function that isn't. A new kind of piece needs an arm in `put_other` or `put_copy_or_fill` here, and
//! one in `unit_text` in `specs/pieces/PieceText`.
//!
//! Both that and the arrays that lines are copied from only save time: RESULTS.md has the gain as *texts kept ready*.
//! No line may be longer than `TEXT_ROOM`. Change the code only if you measure small requests, and large ones over 16
//! columns, before and after.

ghost use Rattle.dm_stream.specs.Prelude.{[], length, decimal, IsPut, disk_name_at, CopyOf, FillOf, IsOnDisks, first_unit, piece_len, Wrote, code, disk_text, IsNoRange, piece_of, piece_view, IsOther, piece_text, sector_text, unit_text, IsKept};
ghost use Rattle.std.specs.Prelude.{◌≡◌, ◌++◌, ◌+◌, ◌<◌, ◌≤◌, ◌∷◌};

use crate::pieces::disk_range::DiskRange;
use crate::pieces::disk_texts::DiskTexts;
use crate::pieces::diskless_word::DisklessWord;
use crate::pieces::line_ends::LineEnds;
use crate::pieces::number_prefix::NumberPrefix;
use crate::pieces::range_text::RangeText;
use dm_map::Piece;
use dm_stack::DiskId;
use dm_table::{OutFault, Output, Text, put_bytes, put_digits};
use std::marker::Model;

/// The line of a read or write of a range on a stack's disk, with the request's number.
#[derive(Drop)]
struct RangeLine<'a> {
    prefix: &'a NumberPrefix,
    ends: &'a LineEnds,
    text: &'a RangeText,
    disks: &'a DiskTexts<'a>,
    range: &'a DiskRange,
}

impl<'a> Model for RangeLine<'a> {
    ghost use Rattle.dm_stream.specs.Base.{ℕ, List, length};
    ghost use Rattle.dm_stream.specs.pieces.DiskText.{letter_for};
    ghost use Rattle.dm_stream.specs.pieces.RangeText.{IsKept};
    ghost use Rattle.dm_stream.specs.pieces.PieceText.{range_line};
    ghost use Rattle.std.specs.Prelude.{◌<◌};

    ghost Value = { List ℕ };

    ghost view = { λ line. range_line line.disks.now line.prefix.now
        (letter_for line.range.now.letter) line.range.now.disk line.range.now.start
        line.range.now.len };

    ghost invariant = { λ line. (line.range.now.disk < length line.disks.now.disks)
        × IsKept line.text.now line.range.now.start line.range.now.len };
}

impl<'a> Text for RangeLine<'a> {
    ghost text = { λ line. line };

    #[inline(always)]
    fn put_into(&self, block: &mut [u8], at: usize) -> usize {
        let range = self.range;
        let at = self.prefix.put_into(block, at);
        let name = self.disks.of(range.disk);
        let at = name.put_head(block, at, range.letter);
        self.text
            .put_into(self.ends, block, at, range.start, range.len)
    }
}

/// The line of a piece without a disk, with the request's number.
#[derive(Drop)]
struct DisklessLine<'a> {
    prefix: &'a NumberPrefix,
    ends: &'a LineEnds,
    word: DisklessWord,
    len: u64,
}

impl<'a> Model for DisklessLine<'a> {
    ghost use Rattle.dm_stream.specs.Base.{ℕ, List};
    ghost use Rattle.dm_stream.specs.pieces.PieceText.{plain_line};

    ghost Value = { List ℕ };

    ghost view = { λ line. plain_line line.prefix.now line.word line.len };
}

impl<'a> Text for DisklessLine<'a> {
    ghost text = { λ line. line };

    #[inline(always)]
    fn put_into(&self, block: &mut [u8], at: usize) -> usize {
        let at = self.prefix.put_into(block, at);
        let at = self.word.put_into(block, at);
        self.ends.put_into(block, at, self.len)
    }
}

/// The line of a copy or a fill on disks of a stack, with the request's number.
#[derive(Drop)]
struct CopyLine<'a> {
    prefix: &'a NumberPrefix,
    ends: &'a LineEnds,
    disks: &'a DiskTexts<'a>,
    piece: &'a Piece,
}

impl<'a> Model for CopyLine<'a> {
    ghost use Rattle.dm_stream.specs.Base.{ℕ, List, IsOnDisks};
    ghost use Rattle.dm_stream.specs.pieces.Pending.{piece_view};
    ghost use Rattle.dm_stream.specs.pieces.PieceText.{IsOther, piece_text};

    ghost Value = { List ℕ };

    ghost view = { λ line. piece_text line.disks.now line.prefix.now (piece_view line.piece.now) };

    ghost invariant = { λ line. IsOnDisks line.disks.now line.piece.now × IsOther line.piece.now };
}

impl<'a> Text for CopyLine<'a> {
    ghost text = { λ line. line };

    #[inline(always)]
    fn put_into(&self, block: &mut [u8], at: usize) -> usize {
        let at = self.prefix.put_into(block, at);
        put_copy_or_fill(block, at, self.ends, self.disks, self.piece)
    }
}

/// Makes a writer put the line of a read or write of a range. The text kept in `text`, if any, must be that of the same
/// range. Fails if the writer fails.
#[inline(always)]
pub(crate) fn put_range<W: Output>(
    writer: &mut W,
    prefix: &NumberPrefix,
    ends: &LineEnds,
    text: &RangeText,
    disks: &DiskTexts<'_>,
    range: &DiskRange,
) -> Result<(), OutFault>
    requires lies { IsOnDisks disks.now (piece_of range.now) }
    requires kept { IsKept text.now range.now.start range.now.len }
    ensures { Wrote (W.past writer.old) (W.past writer.new) result
        (piece_text disks.now prefix.now (piece_view (piece_of range.now))) }
{
    writer.put(&RangeLine {
        prefix,
        ends,
        text,
        disks,
        range,
    })
}

/// Makes a writer put the line of a piece that isn't a read or a write. Never inlined, so that the code for ranges
/// has all registers to itself.
#[inline(never)]
pub(crate) fn put_other<W: Output>(
    writer: &mut W,
    prefix: &NumberPrefix,
    ends: &LineEnds,
    disks: &DiskTexts<'_>,
    piece: &Piece,
) -> Result<(), OutFault>
    requires lies { IsOnDisks disks.now piece.now }
    requires other { IsNoRange piece.now }
    ensures { Wrote (W.past writer.old) (W.past writer.new) result
        (piece_text disks.now prefix.now (piece_view piece.now)) }
{
    match *piece {
        Piece::Zero { len } | Piece::Drop { len } | Piece::Error { len } => {
            writer.put(&DisklessLine {
                prefix,
                ends,
                word: DisklessWord::of(piece),
                len,
            })
        }
        _ => writer.put(&CopyLine {
            prefix,
            ends,
            disks,
            piece,
        }),
    }
}

/// Puts the line of a copy or fill, without the request's number, into a block at `at`; returns the offset after it.
#[inline(always)]
fn put_copy_or_fill(
    block: &mut [u8],
    at: usize,
    ends: &LineEnds,
    disks: &DiskTexts<'_>,
    piece: &Piece,
) -> usize
    requires room { at + 800 ≤ length block.old }
    requires lies { IsOnDisks disks.now piece.now }
    requires other { IsOther piece.now }
    ensures put { IsPut (unit_text disks.now (first_unit piece.now) (piece_len piece.now) ++ code "\n" ∷ []) at
        block.old block.new result }
    ensures few { result ≤ at + 800 }
{
    match *piece {
        Piece::Copy {
            disk,
            start,
            len,
            to,
            to_start,
        } => put_copy(block, at, ends, disks, disk, start, len, to, to_start),
        Piece::Fill { len, disk, start } => put_fill(block, at, ends, disks, disk, start, len),
        _ => unreachable!(),
    }
}

/// Puts the line of a copy, without the request's number, at offset `at` of a block, and returns the offset after it.
fn put_copy(
    block: &mut [u8],
    at: usize,
    ends: &LineEnds,
    disks: &DiskTexts<'_>,
    disk: DiskId,
    start: u64,
    len: u64,
    to: DiskId,
    to_start: u64,
) -> usize
    requires room { at + 800 ≤ length block.old }
    requires there { disk < length disks.now.disks }
    requires target { to < length disks.now.disks }
    ensures put { IsPut (unit_text disks.now (CopyOf disk start to to_start) len ++ code "\n" ∷ []) at block.old
        block.new result }
    ensures few { result ≤ at + 800 }
{
    let at = put_bytes(block, at, b"copy ");
    let at = put_sector(block, at, disks, disk, start);
    let at = put_bytes(block, at, b" ");
    let at = ends.put_inside(block, at, len);
    let at = put_sector(block, at, disks, to, to_start);
    put_bytes(block, at, b"\n")
}

/// Puts the line of a fill, without the request's number, at offset `at` of a block, and returns the offset after it.
fn put_fill(
    block: &mut [u8],
    at: usize,
    ends: &LineEnds,
    disks: &DiskTexts<'_>,
    disk: DiskId,
    start: u64,
    len: u64,
) -> usize
    requires room { at + 800 ≤ length block.old }
    requires there { disk < length disks.now.disks }
    ensures put { IsPut (unit_text disks.now (FillOf disk start) len ++ code "\n" ∷ []) at block.old block.new
        result }
    ensures few { result ≤ at + 400 }
{
    let at = put_bytes(block, at, b"fill ");
    let at = ends.put_inside(block, at, len);
    let at = put_sector(block, at, disks, disk, start);
    put_bytes(block, at, b"\n")
}

/// Puts a disk's name and a sector at offset `at` of a block, and returns the offset after them.
#[inline(always)]
fn put_sector(
    block: &mut [u8],
    at: usize,
    disks: &DiskTexts<'_>,
    disk: DiskId,
    sector: u64,
) -> usize
    requires room { at + 300 ≤ length block.old }
    requires there { disk < length disks.now.disks }
    ensures put { IsPut (sector_text disks.now disk sector) at block.old block.new result }
    ensures few { result ≤ at + 276 }
{
    let at = disks.of(disk).put_into(block, at);
    put_digits(block, at, sector)
}
