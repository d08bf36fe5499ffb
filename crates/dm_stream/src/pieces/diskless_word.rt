//! In the line of a piece without a disk, the word and the space that follow the request's number. They are copied as
//! one array: RESULTS.md has the gain of copying arrays as *texts kept ready*.

ghost use Rattle.dm_stream.specs.Prelude.{length, IsPut, first_unit, IsDiskless, diskless_word};
ghost use Rattle.std.specs.Prelude.{◌≡◌, ◌+◌, ◌≤◌};

use dm_map::Piece;
use dm_table::put_bytes;
use std::marker::Model;

/// The length of the array: the longest word, a space, and padding that makes the copy cheap.
const WORD_BYTES: usize = 8;

/// A word and a space, at the front of an array. In contracts, the value is the bytes of both.
#[derive(Drop)]
pub(crate) struct DisklessWord {
    bytes: [u8; WORD_BYTES],
    len: usize,
}

impl Model for DisklessWord {
    ghost use Rattle.dm_stream.specs.Base.{ℕ, List, take};
    ghost use Rattle.std.specs.Prelude.{◌≤◌};

    ghost Value = { List ℕ };

    ghost view = { λ word. take word.len word.bytes };

    ghost invariant = { λ word. (4 ≤ word.len) × (word.len ≤ 8) };
}

impl DisklessWord {
    /// The word for a piece without a disk.
    #[inline(always)]
    pub(crate) fn of(piece: &Piece) -> DisklessWord
        requires { IsDiskless piece.now }
        ensures { result ≡ diskless_word (first_unit piece.now) }
    {
        match *piece {
            Piece::Zero { .. } => DisklessWord {
                bytes: *b"zero    ",
                len: 5,
            },
            Piece::Drop { .. } => DisklessWord {
                bytes: *b"drop    ",
                len: 5,
            },
            _ => DisklessWord {
                bytes: *b"error   ",
                len: 6,
            },
        }
    }

    /// Puts the word and the space at offset `at` of a block, and returns the offset after them.
    #[inline(always)]
    pub(crate) fn put_into(&self, block: &mut [u8], at: usize) -> usize
        requires { at + WORD_BYTES ≤ length block.old }
        ensures put { IsPut self.now at block.old block.new result }
        ensures some { at + 4 ≤ result }
        ensures few { result ≤ at + WORD_BYTES }
    {
        let _whole = put_bytes(block, at, &self.bytes);
        at + self.len
    }
}
