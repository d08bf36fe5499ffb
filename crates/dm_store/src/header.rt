//! The header of an exception store.

ghost use Rattle.dm_store.specs.Prelude.{Ok, length, told_header, Stored, by_header};
ghost use Rattle.dm_table.specs.declared.io.sectors.TheConstants.{SECTOR};
ghost use Rattle.std.specs.Prelude.{◌≡◌};

use crate::fault::StoreFault;
use dm_table::four_at;

/// The first number in the header of a store: the bytes `SnAp`.
const MAGIC: u32 = 0x7041_6e53;

/// The only version of the store's format that is accepted.
const VERSION: u32 = 1;

/// How a store is used, according to its header.
#[derive(Clone, Copy, Debug, PartialEq, Eq, Drop)]
pub(crate) enum Header {
    /// Nothing has been written to the store yet.
    Fresh,
    /// The snapshot is lost.
    Lost,
    /// The store is in use, and has a list.
    Used,
}

/// Reads the header sector of a store whose chunk size in the table is `chunk` sectors.
pub(crate) fn read_header(sector: &[u8], chunk: u64) -> Result<Header, StoreFault>
    requires { length sector.now ≡ SECTOR }
    ensures { (used : Stored) → told_header used result ≡ by_header used chunk (Ok sector.now) }
{
    let magic = four_at(sector, 0);
    if magic == 0 {
        return Ok(Header::Fresh);
    }
    if magic != MAGIC {
        return Err(StoreFault::Magic);
    }
    if four_at(sector, 8) != VERSION {
        return Err(StoreFault::Version);
    }
    if u64::from(four_at(sector, 12)) != chunk {
        return Err(StoreFault::Chunk);
    }
    if four_at(sector, 4) == 0 {
        return Ok(Header::Lost);
    }
    Ok(Header::Used)
}
