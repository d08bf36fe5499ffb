//! Parts of a block: consecutive sectors that are read from a single ground (a disk, zeros or errors).

ghost use Rattle.dm_read.specs.Prelude.{ℕ, Err, Ok, IfErr, OnOk, length, replicate, ReadOf, IsGroundNear, unit_at, Contents, disk_contents, sector_in, unit_bytes, zeros, AreCounted, AreFilled, AreKept};
ghost use Rattle.std.specs.Prelude.{◌≡◌, ◌+◌, ◌*◌, ◌<◌, ◌≤◌, ◌^◌};

use crate::fault::ByteFault;
use crate::filled::Filled;
use dm_map::Ground;
use dm_stack::DiskId;
use dm_store::{DiskImages, Images, SECTOR, SectorFault};

/// Reads `count` sectors of a disk, from `start` on, into a block, from the block's sector `at` on.
fn read_at<I: Images>(
    images: &mut I,
    places: &DiskImages,
    disk: DiskId,
    start: u64,
    block: &mut [u8],
    at: u64,
    count: u64,
) -> Result<(), SectorFault>
    requires some { 1 ≤ count }
    requires few { count ≤ 128 }
    requires near { start ≤ 2 ^ 50 }
    requires room { 512 * (at + count) ≤ length block.old }
    ensures still { (held : Contents) → I.IsSeen images.new held → I.IsSeen images.old held }
    ensures kept { AreKept at block.old block.new }
    ensures sectors { (held : Contents) → I.IsSeen images.new held → OnOk result ((i : ℕ) → i < count
        → disk_contents places.now held disk (start + i) ≡ Ok (sector_in block.new (at + i))) }
    ensures fault { (held : Contents) → I.IsSeen images.new held → IfErr result (λ fault. count ≡ 1
        → disk_contents places.now held disk start ≡ Err fault) }
{
    let from = SECTOR * at as usize;
    let end = from + SECTOR * count as usize;
    places.read(images, disk, start, &mut block[from..end])
}

/// Fills `count` sectors of a block with zeros, from the block's sector `at` on.
fn clear_at(block: &mut [u8], at: u64, count: u64)
    requires room { 512 * (at + count) ≤ length block.old }
    requires small { at + count ≤ 128 }
    ensures kept { AreKept at block.old block.new }
    ensures cleared { (i : ℕ) → i < count → sector_in block.new (at + i) ≡ zeros }
{
    let from = SECTOR * at as usize;
    let end = from + SECTOR * count as usize;
    clear(&mut block[from..end]);
}

/// Fills a slice with zeros.
fn clear(bytes: &mut [u8])
    ensures { bytes.new ≡ replicate (length bytes.old) 0 }
{
    bytes.fill(0);
}

/// Reads `count` sectors of a disk one by one into a block, up to the first that can't be read.
fn read_one_by_one<I: Images>(
    images: &mut I,
    places: &DiskImages,
    disk: DiskId,
    start: u64,
    block: &mut [u8],
    at: u64,
    count: u64,
) -> Filled
    requires small { at + count ≤ 128 }
    requires near { start + count ≤ 2 ^ 50 }
    requires room { 512 * (at + count) ≤ length block.old }
    ensures still { (held : Contents) → I.IsSeen images.new held → I.IsSeen images.old held }
    ensures kept { AreKept at block.old block.new }
    ensures filled { (held : Contents) → I.IsSeen images.new held
        → AreFilled (λ i. unit_bytes (disk_contents places.now held) (ReadOf disk (start + i))) result at
        block.new }
    ensures counted { AreCounted count result }
{
    let mut done = 0;
    while done < count {
        match read_at(images, places, disk, start + done, block, at + done, 1) {
            Ok(()) => done += 1,
            Err(fault) => {
                return Filled {
                    count: done,
                    fault: Some(ByteFault::Unread(fault)),
                };
            }
        }
    }
    Filled { count, fault: None }
}

/// Reads `count` sectors of a disk into a block, all at once or, if that fails, one by one.
fn read_disk<I: Images>(
    images: &mut I,
    places: &DiskImages,
    disk: DiskId,
    start: u64,
    block: &mut [u8],
    at: u64,
    count: u64,
) -> Filled
    requires some { 1 ≤ count }
    requires small { at + count ≤ 128 }
    requires near { start + count ≤ 2 ^ 50 }
    requires room { 512 * (at + count) ≤ length block.old }
    ensures still { (held : Contents) → I.IsSeen images.new held → I.IsSeen images.old held }
    ensures kept { AreKept at block.old block.new }
    ensures filled { (held : Contents) → I.IsSeen images.new held
        → AreFilled (λ i. unit_bytes (disk_contents places.now held) (ReadOf disk (start + i))) result at
        block.new }
    ensures counted { AreCounted count result }
{
    match read_at(images, places, disk, start, block, at, count) {
        Ok(()) => Filled { count, fault: None },
        Err(_) => read_one_by_one(images, places, disk, start, block, at, count),
    }
}

/// Reads `count` sectors of one ground (a disk, zeros or errors) into a block, from the block's sector `at` on.
pub(crate) fn read_ground<I: Images>(
    images: &mut I,
    places: &DiskImages,
    source: Ground,
    block: &mut [u8],
    at: u64,
    count: u64,
) -> Filled
    requires some { 1 ≤ count }
    requires small { at + count ≤ 128 }
    requires near { IsGroundNear source count }
    requires room { 512 * (at + count) ≤ length block.old }
    ensures still { (held : Contents) → I.IsSeen images.new held → I.IsSeen images.old held }
    ensures kept { AreKept at block.old block.new }
    ensures filled { (held : Contents) → I.IsSeen images.new held
        → AreFilled (λ i. unit_bytes (disk_contents places.now held) (unit_at source i)) result at block.new }
    ensures counted { AreCounted count result }
{
    match source {
        Ground::Disk { disk, start } => read_disk(images, places, disk, start, block, at, count),
        Ground::Zeros => {
            clear_at(block, at, count);
            Filled { count, fault: None }
        }
        Ground::Fails => Filled {
            count: 0,
            fault: Some(ByteFault::Error),
        },
    }
}
