//! Rows of a list, which are read from images in blocks.
//!
//! A block of rows is read at once, as far as its sectors are consecutive on a disk. If that fails, its rows are read
//! one by one, up to the first one that can't be read.

ghost use Rattle.dm_store.specs.Prelude.{ℕ, Err, Ok, IfErr, IfOk, OnOk, length, with_looked, GoOn, home, Description, Contents, disk_contents, sector_in, area_count, pair_count, row_sector, HasRead, HasRows, IsRowOf, IsStoreIn, store_sectors};
ghost use Rattle.dm_table.specs.declared.io.sectors.TheConstants.{MOST_BYTES};
ghost use Rattle.std.specs.Prelude.{◌≡◌, ◌+◌, ◌*◌, ◌/◌, ◌%◌, ◌<◌, ◌≤◌, ◌^◌};

use crate::disk_images::DiskImages;
use crate::fault::SectorFault;
use crate::images::{Images, SECTOR};
use crate::layout::row_sector;
use crate::pair::{Pair, ROW, pair_at};
use crate::row_range::RowRange;
use crate::store::Store;
use dm_map::{HomeStretch, Mapper, Taken};
use dm_stack::DiskId;

/// The maximum number of rows in a block.
const MOST_ROWS: u64 = 128;

/// Reads `count` consecutive sectors of a disk into the front of a block.
fn read_sectors<I: Images>(
    images: &mut I,
    places: &DiskImages,
    disk: DiskId,
    start: u64,
    count: u64,
    block: &mut [u8],
) -> Result<(), SectorFault>
    requires some { 1 ≤ count }
    requires few { count ≤ 128 }
    requires near { start ≤ 2 ^ 50 }
    requires block { length block.old ≡ MOST_BYTES }
    ensures still { (held : Contents) → I.IsSeen images.new held → I.IsSeen images.old held }
    ensures sectors { (held : Contents) → I.IsSeen images.new held → OnOk result ((i : ℕ) → i < count
        → disk_contents places.now held disk (start + i) ≡ Ok (sector_in block.new i)) }
    ensures fault { (held : Contents) → I.IsSeen images.new held → IfErr result (λ fault. count ≡ 1
        → disk_contents places.now held disk start ≡ Err fault) }
{
    let len = SECTOR * count as usize;
    places.read(images, disk, start, &mut block[..len])
}

/// Reads a single row, which is in sector `start` of a disk, into the front of a block.
fn read_row<I: Images>(
    images: &mut I,
    places: &DiskImages,
    disk: DiskId,
    start: u64,
    row: u64,
    single: u64,
    block: &mut [u8],
) -> Result<RowRange, SectorFault>
    requires near { start ≤ 2 ^ 50 }
    requires block { length block.old ≡ MOST_BYTES }
    ensures still { (held : Contents) → I.IsSeen images.new held → I.IsSeen images.old held }
    ensures sector { (held : Contents) → I.IsSeen images.new held
        → OnOk result (disk_contents places.now held disk start ≡ Ok (sector_in block.new 0)) }
    ensures fault { (held : Contents) → I.IsSeen images.new held → IfErr result (λ fault.
        disk_contents places.now held disk start ≡ Err fault) }
    ensures rows { IfOk result (λ rows. (rows.first ≡ row) × (rows.count ≡ 1)) }
{
    match read_sectors(images, places, disk, start, 1, block) {
        Ok(()) => Ok(RowRange {
            first: row,
            count: 1,
            single,
        }),
        Err(fault) => Err(fault),
    }
}

/// Reads rows from `row` on into a block: as many as are consecutive on a disk, but at most to the end of the area, or
/// only one if reading them together fails. Rows below `single` are read one by one.
fn read_block<I: Images, T: Taken>(
    images: &mut I,
    places: &DiskImages,
    mapper: &mut Mapper<'_, T>,
    store: &Store,
    row: u64,
    single: u64,
    block: &mut [u8],
) -> Result<RowRange, SectorFault>
    requires store { IsStoreIn mapper.old.stack store.now }
    requires row { row < area_count store.now.chunk store.now.len * store.now.chunk }
    requires near { row < 2 ^ 46 }
    requires block { length block.old ≡ MOST_BYTES }
    ensures same { mapper.new ≡ with_looked mapper.old mapper.new.looked }
    ensures still { (held : Contents) → I.IsSeen images.new held → I.IsSeen images.old held }
    ensures rows { (held : Contents) → I.IsSeen images.new held → IfOk result (λ rows. HasRows
        (store_sectors mapper.old.stack (disk_contents places.now held) store.now) store.now.chunk rows block.new) }
    ensures fault { (held : Contents) → I.IsSeen images.new held → IfErr result (λ fault.
        store_sectors mapper.old.stack (disk_contents places.now held) store.now
        (row_sector store.now.chunk row) ≡ Err fault) }
    ensures has { IfOk result (λ rows. IsRowOf rows row) }
{
    let chunk = store.chunk.sectors();
    let most = rows_from(chunk, row, single);
    let HomeStretch { disk, start, len } = mapper.first_homes(
        store.lower,
        row_sector(chunk, row),
        most,
    );
    if len == 1 {
        return read_row(images, places, disk, start, row, single, block);
    }
    match read_sectors(images, places, disk, start, len, block) {
        Ok(()) => Ok(RowRange {
            first: row,
            count: len,
            single,
        }),
        Err(_) => read_row(images, places, disk, start, row, row + len, block),
    }
}

/// How many rows to read at once from `row` on: none past the end of its area, and one if `row` is below `single`.
fn rows_from(chunk: u64, row: u64, single: u64) -> u64
    requires { 1 ≤ chunk }
    ensures some { 1 ≤ result }
    ensures few { result ≤ 128 }
    ensures inside { row % chunk + result ≤ chunk }
{
    if row < single {
        1
    } else {
        (chunk - row % chunk).min(MOST_ROWS)
    }
}

/// Reads the pair with this number. Reads a new block of rows, unless the block already has the pair's row.
pub(crate) fn read_pair<I: Images, T: Taken>(
    images: &mut I,
    places: &DiskImages,
    mapper: &mut Mapper<'_, T>,
    store: &Store,
    number: u64,
    rows: &mut RowRange,
    block: &mut [u8],
) -> Result<Pair, SectorFault>
    requires store { IsStoreIn mapper.old.stack store.now }
    requires number { number < pair_count store.now.chunk store.now.len }
    requires near { number < 2 ^ 51 }
    requires block { length block.old ≡ MOST_BYTES }
    ensures same { mapper.new ≡ with_looked mapper.old mapper.new.looked }
    ensures still { (held : Contents) → I.IsSeen images.new held → I.IsSeen images.old held }
    ensures read { (held : Contents) → I.IsSeen images.new held
        → HasRead (store_sectors mapper.old.stack (disk_contents places.now held) store.now) store.now.chunk number
        rows.old block.old result rows.new block.new }
{
    let row = number / ROW;
    if row < rows.first || row - rows.first >= rows.count {
        *rows = read_block(images, places, mapper, store, row, rows.single, block)?;
    }
    let start = SECTOR * (row - rows.first) as usize;
    Ok(pair_at(&block[start..start + SECTOR], (number % ROW) as usize))
}
