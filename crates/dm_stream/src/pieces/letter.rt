//! The letters of reads and writes.
//!
//! An `Op` also distinguishes reads from writes; letters only save time. RESULTS.md has the gain as *letter and
//! disk's name in one array*. Measure small requests before and after a change.

ghost use Rattle.dm_stream.specs.Prelude.{not};
ghost use Rattle.std.specs.Prelude.{◌≡◌, if◌then◌else◌};

use std::marker::Model;

/// The letter of a read or a write. In contracts, the value is true for a write.
///
/// Kept as a whole word, 1 or 0, because with a single byte each store would also clear the bytes next to it.
#[derive(Clone, Copy, Drop)]
pub(crate) struct Letter {
    word: u64,
}

impl Model for Letter {
    ghost use Rattle.dm_stream.specs.Base.{Bool};
    ghost use Rattle.std.specs.Prelude.{◌≡◌, ◌==◌, if◌then◌else◌};

    ghost Value = { Bool };

    ghost view = { λ letter. letter.word == 1 };

    ghost inverse = { λ is_write. record { word = if is_write then 1 else 0 } };

    ghost invariant = { λ letter. letter.word ≡ (if letter.word == 1 then 1 else 0) };
}

impl Letter {
    /// The letter of a write if `is_write` is true, or else of a read.
    #[inline(always)]
    pub(crate) fn new(is_write: bool) -> Letter
        ensures { result ≡ is_write }
    {
        Letter {
            word: if is_write { 1 } else { 0 },
        }
    }

    /// The letter's index in an array: 1 for a write, 0 for a read.
    #[inline(always)]
    pub(crate) fn index(self) -> usize
        ensures { result ≡ (if self then 1 else 0) }
    {
        self.word as usize
    }

    /// Whether two letters are the same.
    #[inline(always)]
    pub(crate) fn is(self, other: Letter) -> bool
        ensures { result ≡ (if self then other else not other) }
    {
        self.word == other.word
    }
}
