//! Reads the current metadata text from an area.

ghost use Rattle.lvm_head.specs.Prelude.{ℕ, Err, Ok, true, IfErr, IfOk, OnOk, length, slice_index, is_within, Contents, sector_in, Returns, area_text, byte_at, ended, ring_bytes, text_at};
ghost use Rattle.dm_table.specs.declared.io.sectors.TheConstants.{MOST_BYTES};
ghost use Rattle.std.specs.Prelude.{◌≡◌, ◌+◌, ◌/◌, ◌%◌, ◌<◌, ◌≤◌, ◌^◌};

use crate::area::{
    Area, Location, is_header, is_near, is_none, is_within, location_in, ring_place, row_len,
};
use crate::disks::{Disks, MOST_BYTES, ReadFault, SECTOR, read_sector};
use crate::fault::HeadFault;
use crate::sums::sum_of;
use std::alloc::Global;

/// The most bytes that a metadata text may have.
const MOST_TEXT: u64 = 1_048_576;

/// Reads `count` consecutive sectors of a disk into the front of a block.
fn read_sectors<D: Disks>(
    disks: &mut D,
    disk: usize,
    start: u64,
    count: u64,
    block: &mut [u8],
) -> Result<(), ReadFault>
    requires some { 1 ≤ count }
    requires few { count ≤ 128 }
    requires near { start ≤ 2 ^ 50 }
    requires block { length block.old ≡ MOST_BYTES }
    ensures listed { D.listed disks.new ≡ D.listed disks.old }
    ensures still { (held : Contents) → D.IsSeen disks.new held → D.IsSeen disks.old held }
    ensures sectors { (held : Contents) → D.IsSeen disks.new held → OnOk result ((i : ℕ) → i < count
        → held disk (start + i) ≡ Ok (sector_in block.new i)) }
    ensures fault { (held : Contents) → D.IsSeen disks.new held
        → IfErr result (λ fault. count ≡ 1 → held disk start ≡ Err fault) }
{
    let len = SECTOR * count as usize;
    disks.read(disk, start, &mut block[..len])
}

/// Reads up to `len` consecutive bytes of a disk into a block, and returns how many: all, or, if reading all fails,
/// only those in the first sector. The first byte is at offset `place` % 512 of the block.
fn read_row<D: Disks>(
    disks: &mut D,
    disk: usize,
    place: u64,
    len: u64,
    block: &mut [u8],
) -> Result<u64, HeadFault>
    requires some { 0 < len }
    requires few { place % 512 + len ≤ MOST_BYTES }
    requires near { place / 512 ≤ 2 ^ 50 }
    requires block { length block.old ≡ MOST_BYTES }
    ensures listed { D.listed disks.new ≡ D.listed disks.old }
    ensures still { (held : Contents) → D.IsSeen disks.new held → D.IsSeen disks.old held }
    ensures some { IfOk result (λ read. 0 < read) }
    ensures inside { IfOk result (λ read. read ≤ len) }
    ensures bytes { (held : Contents) → D.IsSeen disks.new held → IfOk result (λ read. (i : ℕ) → i < read
        → byte_at (held disk) (place + i) ≡ Ok (slice_index block.new (place % 512 + i))) }
    ensures fault { (held : Contents) → D.IsSeen disks.new held
        → IfErr result (λ fault. byte_at (held disk) place ≡ Err fault) }
{
    let sectors = (place % 512 + len + 511) / 512;
    match read_sectors(disks, disk, place / 512, sectors, block) {
        Ok(()) => Ok(len),
        Err(ReadFault) => match read_sectors(disks, disk, place / 512, 1, block) {
            Ok(()) => Ok(len.min(512 - place % 512)),
            Err(ReadFault) => Err(HeadFault::Unread),
        },
    }
}

/// Reads all bytes of a text, continuing at the start of the ring buffer if the text reaches the ring buffer's end.
fn read_ring<D: Disks>(
    alloc: Global,
    disks: &mut D,
    disk: usize,
    start: u64,
    location: Location,
) -> Result<Vec<u8>, HeadFault>
    requires start { start ≤ 2 ^ 58 }
    requires ring { location.ring ≤ 2 ^ 58 }
    requires within { is_within location ≡ true }
    requires short { location.size ≤ 1048576 }
    ensures listed { D.listed disks.new ≡ D.listed disks.old }
    ensures still { (held : Contents) → D.IsSeen disks.new held → D.IsSeen disks.old held }
    ensures is { (held : Contents) → D.IsSeen disks.new held
        → Returns (λ bytes. bytes.items) result (ring_bytes (held disk) start location location.size) }
    ensures len { IfOk result (λ bytes. length bytes.items ≡ location.size) }
{
    let mut block = [0; MOST_BYTES];
    let mut bytes = Vec::with_capacity(alloc, location.size as usize)?;
    let mut number = 0;
    while number < location.size {
        let place = ring_place(start, location, number);
        let len = row_len(start, location, number);
        let read = match read_row(disks, disk, place, len, &mut block) {
            Ok(read) => read,
            Err(fault) => return Err(fault),
        };
        let at = (place % 512) as usize;
        bytes.extend_from_slice(&block[at..at + read as usize])?;
        number += read;
    }
    Ok(bytes)
}

/// The text in the bytes: without the NUL if they end with one, or all if they end with a newline; else a fault.
fn ended(mut bytes: Vec<u8>) -> Result<Vec<u8>, HeadFault>
    requires { 1 ≤ length bytes.items }
    ensures { Returns (λ text. text.items) result (ended bytes.items) }
{
    match bytes[bytes.len() - 1] {
        0 => {
            bytes.truncate(bytes.len() - 1);
            Ok(bytes)
        }
        b'\n' => Ok(bytes),
        _ => Err(HeadFault::Text),
    }
}

/// Reads the text at a location in the area that begins at byte `start` of the disk.
fn read_text<D: Disks>(
    alloc: Global,
    disks: &mut D,
    disk: usize,
    start: u64,
    location: Location,
) -> Result<Vec<u8>, HeadFault>
    requires start { start ≤ 2 ^ 58 }
    requires ring { location.ring ≤ 2 ^ 58 }
    ensures listed { D.listed disks.new ≡ D.listed disks.old }
    ensures still { (held : Contents) → D.IsSeen disks.new held → D.IsSeen disks.old held }
    ensures is { (held : Contents) → D.IsSeen disks.new held
        → Returns (λ text. text.items) result (text_at (held disk) start location) }
{
    if is_none(location) {
        return Ok(Vec::new(alloc));
    }
    if !is_within(location) {
        return Err(HeadFault::Header);
    }
    if location.size > MOST_TEXT {
        return Err(HeadFault::Long);
    }
    if location.size == 0 {
        return Err(HeadFault::Text);
    }
    match read_ring(alloc, disks, disk, start, location) {
        Ok(bytes) => {
            if sum_of(&bytes) != location.sum {
                return Err(HeadFault::Text);
            }
            ended(bytes)
        }
        Err(fault) => Err(fault),
    }
}

/// Reads the text of an area. The text is empty if the area is to be ignored or contains no text yet.
pub(crate) fn read_area<D: Disks>(
    alloc: Global,
    disks: &mut D,
    disk: usize,
    area: Area,
) -> Result<Vec<u8>, HeadFault>
    ensures listed { D.listed disks.new ≡ D.listed disks.old }
    ensures still { (held : Contents) → D.IsSeen disks.new held → D.IsSeen disks.old held }
    ensures is { (held : Contents) → D.IsSeen disks.new held
        → Returns (λ text. text.items) result (area_text (held disk) area) }
{
    if !is_near(area) {
        return Err(HeadFault::Header);
    }
    let mut sector = [0; SECTOR];
    if let Err(ReadFault) = read_sector(disks, disk, area.start / 512, &mut sector) {
        return Err(HeadFault::Unread);
    }
    if !is_header(&sector, area) {
        return Err(HeadFault::Header);
    }
    read_text(alloc, disks, disk, area.start, location_in(&sector))
}
