//! Metadata areas: their headers, and where the metadata texts are in the areas.

ghost use Rattle.lvm_head.specs.Prelude.{ℕ, true, false, length, is_header, is_near, is_none, is_within, location_in, ring_place, eight_at};
ghost use Rattle.dm_table.specs.declared.io.sectors.TheConstants.{MOST_BYTES, SECTOR};
ghost use Rattle.std.specs.Prelude.{◌≡◌, ◌+◌, ◌<◌, ◌≤◌, ◌/◌, ◌^◌, ◌%◌};

use crate::disks::{MOST_BYTES, SECTOR};
use crate::sums::sum_of;
use dm_table::{eight_at, four_at};

/// The magic bytes ` LVM2 x[` of an area's header; `5A%r0N*>` follow.
const MAGIC: u64 = 0x5B78_2032_4D56_4C20;

const MORE_MAGIC: u64 = 0x3E2A_4E30_7225_4135;

/// The version of area headers; headers of other versions are refused.
const VERSION: u32 = 1;

/// The largest start of an area, and its largest size, in bytes.
const FARTHEST: u64 = 0x200_0000_0000_0000;

/// A metadata area: its first byte on the disk, and its size in bytes.
#[derive(Clone, Copy, Debug, Default, PartialEq, Eq, Drop)]
pub(crate) struct Area {
    pub start: u64,
    pub size: u64,
}

/// Where the text of an area is, by the area's header: `size` bytes from offset `offset` on, in a ring buffer that ends
/// at offset `ring`; both offsets count from the start of the area.
#[derive(Clone, Copy, Debug, PartialEq, Eq, Drop)]
pub(crate) struct Location {
    pub ring: u64,
    pub offset: u64,
    pub size: u64,
    pub sum: u32,
    pub flags: u32,
}

/// Whether an area begins on a sector boundary, and its start and its size are at most `FARTHEST`.
pub(crate) fn is_near(area: Area) -> bool
    ensures is { result ≡ is_near area }
    ensures start { result ≡ true → area.start ≤ 2 ^ 57 }
    ensures size { result ≡ true → area.size ≤ 2 ^ 57 }
{
    area.start % 512 == 0 && area.start <= FARTHEST && area.size <= FARTHEST
}

/// Whether a sector is a valid header of the area.
pub(crate) fn is_header(sector: &[u8], area: Area) -> bool
    requires { length sector.now ≡ SECTOR }
    ensures is { result ≡ is_header area sector.now }
    ensures ring { result ≡ true → eight_at sector.now 32 ≤ area.size }
{
    four_at(sector, 0) == sum_of(&sector[4..512])
        && eight_at(sector, 4) == MAGIC
        && eight_at(sector, 12) == MORE_MAGIC
        && four_at(sector, 20) == VERSION
        && eight_at(sector, 24) == area.start
        && eight_at(sector, 32) <= area.size
}

/// The location of the current metadata text, from the area's header.
pub(crate) fn location_in(sector: &[u8]) -> Location
    requires { length sector.now ≡ SECTOR }
    ensures { result ≡ location_in sector.now }
{
    Location {
        ring: eight_at(sector, 32),
        offset: eight_at(sector, 40),
        size: eight_at(sector, 48),
        sum: four_at(sector, 56),
        flags: four_at(sector, 60),
    }
}

/// Whether the location names no text, because the area is to be ignored or contains no text yet.
pub(crate) fn is_none(location: Location) -> bool
    ensures { result ≡ is_none location }
{
    location.flags % 2 == 1 || location.offset == 0
}

/// Whether the text begins inside the ring buffer, after the header, and is no longer than the ring buffer.
pub(crate) fn is_within(location: Location) -> bool
    requires { location.ring ≤ 2 ^ 58 }
    ensures { result ≡ is_within location }
{
    512 <= location.offset
        && location.offset < location.ring
        && location.size <= location.ring
        && location.size + 512 <= location.ring
}

/// Where byte `number` of a text is on the disk, in bytes.
pub(crate) fn ring_place(start: u64, location: Location, number: u64) -> u64
    requires start { start ≤ 2 ^ 58 }
    requires ring { location.ring ≤ 2 ^ 58 }
    requires within { is_within location ≡ true }
    requires number { number < location.size }
    ensures is { result ≡ ring_place start location number }
    ensures near { result / 512 ≤ 2 ^ 50 }
{
    if location.offset + number < location.ring {
        start + (location.offset + number)
    } else {
        start + (location.offset + number - location.ring + 512)
    }
}

/// How many bytes of a text, from byte `number` on, are consecutive on the disk and fit in one read.
pub(crate) fn row_len(start: u64, location: Location, number: u64) -> u64
    requires start { start ≤ 2 ^ 58 }
    requires ring { location.ring ≤ 2 ^ 58 }
    requires within { is_within location ≡ true }
    requires number { number < location.size }
    ensures some { 0 < result }
    ensures inside { number + result ≤ location.size }
    ensures few { ring_place start location number % 512 + result ≤ MOST_BYTES }
    ensures row { (i : ℕ) → i < result
        → ring_place start location (number + i) ≡ ring_place start location number + i }
{
    let left = MOST_BYTES as u64 - ring_place(start, location, number) % 512;
    let most = left.min(location.size - number);
    let offset = location.offset + number;
    if offset < location.ring {
        most.min(location.ring - offset)
    } else {
        most
    }
}
