//! Ranges of a disk that are read or written. Most pieces are such reads and writes.
//!
//! Reads and writes share one code path, because the processor can't predict which of the two comes next.

ghost use Rattle.dm_stream.specs.Prelude.{Some, MatchOption, Description, IsOnDisk, disk_unit, first_unit, units_in, units_of, Fits, IsHeld, IsNoRange, piece_of, is_after};
ghost use Rattle.std.specs.Prelude.{◌≡◌, ◌+◌, ◌≤◌, ◌==◌};

use crate::pieces::disk_texts::DiskTexts;
use crate::pieces::letter::Letter;
use dm_map::{Home, Piece};
use dm_stack::DiskId;
use dm_table::Op;

/// Consecutive sectors of a disk, and the letter that says whether they are read or written.
#[derive(Clone, Copy, Drop)]
pub(crate) struct DiskRange {
    pub(crate) letter: Letter,
    pub(crate) disk: DiskId,
    pub(crate) start: u64,
    pub(crate) len: u64,
}

impl DiskRange {
    /// The range of a read or a write; None for any other piece.
    #[inline(always)]
    pub(crate) fn of(piece: &Piece) -> Option<DiskRange>
        ensures { MatchOption result (IsNoRange piece.now) (λ range. piece.now ≡ piece_of range) }
    {
        match *piece {
            Piece::Read { disk, start, len } | Piece::Write { disk, start, len } => {
                Some(DiskRange {
                    letter: Letter::new(matches!(*piece, Piece::Write { .. })),
                    disk,
                    start,
                    len,
                })
            }
            _ => None,
        }
    }

    /// The range of a request whose sectors are consecutive on one disk.
    #[inline(always)]
    pub(crate) fn at(op: Op, home: Home, len: u64) -> DiskRange
        ensures units { units_of (piece_of result) ≡ units_in (disk_unit op home.disk home.start) len }
        ensures held { (stack : Description) → 1 ≤ len → IsOnDisk stack home.disk home.start len
            → IsHeld stack (Some (piece_of result)) }
    {
        DiskRange {
            letter: Letter::new(matches!(op, Op::Write)),
            disk: home.disk,
            start: home.start,
            len,
        }
    }

    /// Whether `next` continues this range, so that both can be written as one.
    #[inline(always)]
    pub(crate) fn goes_on(&self, next: &DiskRange) -> bool
        ensures { result ≡ is_after (first_unit (piece_of self.now)) self.now.len
            (first_unit (piece_of next.now)) }
    {
        self.letter.is(next.letter)
            && self.disk == next.disk
            && follows(self.start, self.len, next.start)
    }

    /// This range, longer by `more` sectors.
    #[inline(always)]
    pub(crate) fn longer(&self, disks: &DiskTexts<'_>, more: u64) -> DiskRange
        requires { Fits disks.now (first_unit (piece_of self.now)) (self.now.len + more) }
        ensures first { first_unit (piece_of result) ≡ first_unit (piece_of self.now) }
        ensures len { result.len ≡ self.now.len + more }
    {
        // A `Stack` is sound, so its disks are short enough that the new length can't overflow.
        disks.recall_soundness();
        DiskRange {
            len: self.len + more,
            ..*self
        }
    }
}

/// Whether `next` is the sector right after the `len` sectors that begin at `sector`.
#[inline(always)]
pub(crate) fn follows(sector: u64, len: u64, next: u64) -> bool
    ensures { result ≡ (sector + len == next) }
{
    sector <= next && next - sector == len
}
