//! Pairs in a list: a chunk of the snapshot, and the chunk of the store that has its data.

ghost use Rattle.dm_store.specs.Prelude.{length, pair_in, are_zeros};
ghost use Rattle.dm_table.specs.declared.io.sectors.TheConstants.{SECTOR};
ghost use Rattle.std.specs.Prelude.{◌≡◌, ◌<◌};

use dm_table::eight_at;

/// A chunk of a snapshot (`old`), and the chunk of its store that has the data (`new`).
#[derive(Clone, Copy, Debug, Drop)]
pub(crate) struct Pair {
    pub(crate) old: u64,
    pub(crate) new: u64,
}

impl Pair {
    /// Whether both chunks of the pair are 0.
    pub(crate) fn are_zeros(self) -> bool
        ensures { result ≡ are_zeros self }
    {
        self.old == 0 && self.new == 0
    }
}

/// How many pairs are in each sector of the list.
pub(crate) const ROW: u64 = 32;

/// The pair at this index in a sector of the list.
#[inline(always)]
pub(crate) fn pair_at(sector: &[u8], index: usize) -> Pair
    requires len { length sector.now ≡ SECTOR }
    requires index { index < ROW }
    ensures { result ≡ pair_in sector.now index }
{
    Pair {
        old: eight_at(sector, 16 * index),
        new: eight_at(sector, 16 * index + 8),
    }
}
