//! Pieces, each of which is one operation on consecutive sectors.
//!
//! Contracts see a piece only as a list of units, one for each sector. To add a kind of piece, add a variant
//! here, arms in `len` and `with_len`, and a clause in each function of `specs/pieces/Units.antt`.

ghost use Rattle.dm_map.specs.Prelude.{Description, disk_unit, diskless_len, first_unit, piece_len, units_in, units_of, IsOnDisk, IsOnDisks};
ghost use Rattle.std.specs.Prelude.{◌≡◌};

use dm_stack::DiskId;
use dm_table::Op;

/// An operation on `len` consecutive sectors of a request; starts and lengths are in sectors of 512 bytes.
#[derive(Clone, Copy, Debug, PartialEq, Eq, Drop)]
pub enum Piece {
    /// The sectors are read from a disk, from `start` on.
    Read {
        disk: DiskId,
        start: u64,
        len: u64,
    },
    /// The sectors are written to a disk, from `start` on.
    Write {
        disk: DiskId,
        start: u64,
        len: u64,
    },
    /// The sectors read as zeros.
    Zero {
        len: u64,
    },
    /// The sectors are written, and the data is discarded.
    Drop {
        len: u64,
    },
    /// The read or the write of the sectors fails.
    Error {
        len: u64,
    },
    /// Before a write, `len` sectors of a disk from `start` on are copied to the disk `to`, from `to_start` on.
    Copy {
        disk: DiskId,
        start: u64,
        len: u64,
        to: DiskId,
        to_start: u64,
    },
    /// Before a write, zeros are written to `len` sectors of a disk, from `start` on.
    Fill {
        len: u64,
        disk: DiskId,
        start: u64,
    },
}

impl Piece {
    /// The number of sectors.
    #[inline(always)]
    pub fn len(&self) -> u64
        ensures { result ≡ piece_len self.now }
    {
        match *self {
            Piece::Read { len, .. }
            | Piece::Write { len, .. }
            | Piece::Zero { len }
            | Piece::Drop { len }
            | Piece::Error { len }
            | Piece::Copy { len, .. }
            | Piece::Fill { len, .. } => len,
        }
    }

    /// The piece with the same kind, disk and start, but `len` sectors.
    #[inline(always)]
    pub fn with_len(&self, len: u64) -> Piece
        ensures first { first_unit result ≡ first_unit self.now }
        ensures len { piece_len result ≡ len }
    {
        match *self {
            Piece::Read { disk, start, .. } => Piece::Read { disk, start, len },
            Piece::Write { disk, start, .. } => Piece::Write { disk, start, len },
            Piece::Zero { .. } => Piece::Zero { len },
            Piece::Drop { .. } => Piece::Drop { len },
            Piece::Error { .. } => Piece::Error { len },
            Piece::Copy {
                disk,
                start,
                to,
                to_start,
                ..
            } => Piece::Copy {
                disk,
                start,
                len,
                to,
                to_start,
            },
            Piece::Fill { disk, start, .. } => Piece::Fill { len, disk, start },
        }
    }
}

/// The piece for a read or a write of sectors of a disk. Because the kind of piece is chosen by an `if`, an
/// inlined sink needs no jump table over all kinds.
pub(crate) fn disk_piece(op: Op, disk: DiskId, start: u64, len: u64) -> Piece
    ensures units { units_of result ≡ units_in (disk_unit op disk start) len }
    ensures len { piece_len result ≡ len }
    ensures diskless { diskless_len result ≡ 0 }
    ensures lies { (stack : Description) → IsOnDisk stack disk start len → IsOnDisks stack result }
{
    if matches!(op, Op::Write) {
        Piece::Write { disk, start, len }
    } else {
        Piece::Read { disk, start, len }
    }
}
