//! The sectors in which an exception store keeps its list.

ghost use Rattle.dm_store.specs.Prelude.{pair_count, rest_count, row_sector};
ghost use Rattle.std.specs.Prelude.{◌≡◌, ◌+◌, ◌<◌, ◌≤◌, ◌^◌};

/// How many pairs fit into the metadata areas of a store of `store_len` sectors.
pub(crate) fn pair_count(chunk: u64, store_len: u64) -> u64
    requires some { 1 ≤ chunk }
    requires small { chunk ≤ 1024 }
    requires short { store_len ≤ 2 ^ 50 }
    ensures count { result ≡ pair_count chunk store_len }
    ensures within { result ≤ store_len + 32768 }
{
    (store_len / chunk + 32 * chunk - 1) / (32 * chunk + 1) * (32 * chunk)
}

/// The number of pairs from pair `number` on to the end of its metadata area, including that pair.
pub(crate) fn rest_count(chunk: u64, number: u64) -> u64
    requires some { 1 ≤ chunk }
    requires small { chunk ≤ 1024 }
    ensures count { result ≡ rest_count chunk number }
    ensures few { result ≤ 32768 }
{
    32 * chunk - number % (32 * chunk)
}

/// The sector of the store with row `row` of the list, which contains the 32 pairs from number 32 * `row` on.
pub(crate) fn row_sector(chunk: u64, row: u64) -> u64
    requires some { 1 ≤ chunk }
    requires small { chunk ≤ 1024 }
    requires row { row < 2 ^ 46 }
    ensures { result ≡ row_sector chunk row }
{
    (1 + (32 * chunk + 1) * (row / chunk)) * chunk + row % chunk
}
