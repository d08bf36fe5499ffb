//! The label of a physical volume, and the physical volume's header in the same sector.

ghost use Rattle.lvm_head.specs.Prelude.{true, IfOk, length, map, slice_split, Contents, Returns, area_at, areas_in, has_sectors, header_at, id_of, is_entry, is_member, is_partitioned, is_sound, is_taken, label_of, pairs_of, undivided};
ghost use Rattle.dm_table.specs.declared.io.sectors.TheConstants.{SECTOR};
ghost use Rattle.std.specs.Prelude.{◌≡◌, ◌+◌, ◌<◌, ◌≤◌, ◌==◌, ◌-◌, ◌/◌};

use crate::area::Area;
use crate::disks::{Disks, ReadFault, SECTOR, read_sector};
use crate::fault::HeadFault;
use crate::sums::sum_of;
use arrayvec::ArrayVec;
use dm_table::{eight_at, four_at};
use std::alloc::{AllocError, Global};
use std::marker::Model;

/// The bytes `LABELONE`, with which a label begins.
const LABEL: u64 = 0x454E_4F4C_4542_414C;

/// The bytes `LVM2 001`, which mark a label as an LVM2 label.
const KIND: u64 = 0x3130_3020_324D_564C;

/// The magic number with which the superblock of an md array's member begins.
const MEMBER: u32 = 0xA92B_4EFC;

/// The most pairs, each of the start and the size of an area, that a header has room for.
const MOST_PAIRS: usize = 27;

/// The most metadata areas that a disk may have: lvm2 creates one or two.
const MOST_AREAS: usize = 2;

/// Whether the partition table entry at offset `at` describes a partition: its number of sectors isn't 0.
fn has_sectors(sector: &[u8], at: usize) -> bool
    requires { at + 16 ≤ length sector.now }
    ensures { result ≡ has_sectors sector.now at }
{
    four_at(sector, at + 12) != 0
}

/// Whether the partition table entry at offset `at` is valid: its first byte is 0 or 0x80.
fn is_entry(sector: &[u8], at: usize) -> bool
    requires { at < length sector.now }
    ensures { result ≡ is_entry sector.now at }
{
    sector[at] % 128 == 0
}

/// Whether the first sector of a disk contains a partition table.
fn is_partitioned(sector: &[u8]) -> bool
    requires { length sector.now ≡ SECTOR }
    ensures { result ≡ is_partitioned sector.now }
{
    sector[510] == 0x55
        && sector[511] == 0xAA
        && is_entry(sector, 446)
        && is_entry(sector, 462)
        && is_entry(sector, 478)
        && is_entry(sector, 494)
        && (has_sectors(sector, 446)
            || has_sectors(sector, 462)
            || has_sectors(sector, 478)
            || has_sectors(sector, 494))
}

/// Whether a sector begins like the superblock of an md array's member.
fn is_member(sector: &[u8]) -> bool
    requires { length sector.now ≡ SECTOR }
    ensures { result ≡ is_member sector.now }
{
    four_at(sector, 0) == MEMBER
}

/// Refuses a disk that has partitions or is a member of an md array.
pub(crate) fn undivided<D: Disks>(disks: &mut D, disk: usize) -> Result<(), HeadFault>
    ensures listed { D.listed disks.new ≡ D.listed disks.old }
    ensures still { (held : Contents) → D.IsSeen disks.new held → D.IsSeen disks.old held }
    ensures is { (held : Contents) → D.IsSeen disks.new held → Returns (λ done. done) result (undivided (held disk)) }
{
    let mut first = [0; SECTOR];
    if let Err(ReadFault) = read_sector(disks, disk, 0, &mut first) {
        return Err(HeadFault::Unread);
    }
    if is_partitioned(&first) {
        return Err(HeadFault::Partitions);
    }
    let mut later = [0; SECTOR];
    if let Err(ReadFault) = read_sector(disks, disk, 8, &mut later) {
        return Err(HeadFault::Unread);
    }
    if is_member(&first) || is_member(&later) {
        return Err(HeadFault::Array);
    }
    Ok(())
}

/// The sector of a valid label. A contract sees the bytes of the sector.
#[derive(Debug, Drop)]
pub(crate) struct Label {
    sector: [u8; SECTOR],
}

impl Model for Label {
    ghost use Rattle.lvm_head.specs.Base.{ℕ, List};
    ghost use Rattle.lvm_head.specs.Labels.{header_at};
    ghost use Rattle.std.specs.Prelude.{◌≤◌};

    ghost Value = { List ℕ };

    ghost view = { λ label. label.sector };

    ghost invariant = { λ label. (32 ≤ header_at label.sector) × (header_at label.sector ≤ 472) };
}

impl Label {
    /// Reads the label of a disk: the first of sectors 0 to 3 that lvm2 regards as a label.
    pub(crate) fn read<D: Disks>(disks: &mut D, disk: usize) -> Result<Label, HeadFault>
        ensures listed { D.listed disks.new ≡ D.listed disks.old }
        ensures still { (held : Contents) → D.IsSeen disks.new held → D.IsSeen disks.old held }
        ensures is { (held : Contents) → D.IsSeen disks.new held
            → Returns (λ label. label) result (label_of (held disk)) }
    {
        let mut sector = [0; SECTOR];
        for place in 0..4 {
            match read_sector(disks, disk, place, &mut sector) {
                Ok(()) => {}
                Err(ReadFault) => return Err(HeadFault::Unread),
            }
            if is_taken(&sector, place) {
                if is_sound(&sector) {
                    return Ok(Label { sector });
                }
                return Err(HeadFault::Label);
            }
        }
        Err(HeadFault::Label)
    }

    /// The offset in the label's sector at which the physical volume's header begins, in bytes.
    fn header_at(&self) -> usize
        ensures is { result ≡ header_at self.now }
        ensures after { 32 ≤ result }
        ensures near { result ≤ 472 }
    {
        four_at(&self.sector, 20) as usize
    }

    /// The id of the physical volume: 32 characters, without dashes.
    pub(crate) fn id(&self) -> [u8; 32]
        ensures { result ≡ id_of self.now }
    {
        let at = self.header_at();
        let mut id = [0; 32];
        id.copy_from_slice(&self.sector[at..at + 32]);
        id
    }

    /// The pair with this number in the header's lists: the start and the size of an area.
    fn area_at(&self, number: usize) -> Area
        requires { number < (472 - header_at self.now) / 16 }
        ensures { result ≡ area_at self.now number }
    {
        let at = self.header_at();
        Area {
            start: eight_at(&self.sector, at + 40 + 16 * number),
            size: eight_at(&self.sector, at + 48 + 16 * number),
        }
    }

    /// All pairs of the header's lists: as many as fit between the header's fixed part and the end of the sector.
    pub(crate) fn pairs(&self) -> ArrayVec<Area, MOST_PAIRS>
        ensures { result.items ≡ pairs_of self.now }
    {
        let mut pairs = ArrayVec::new();
        for number in 0..(472 - self.header_at()) / 16 {
            pairs.push(self.area_at(number));
        }
        pairs
    }
}

/// The metadata areas among the pairs of a header: the second of the lists that the pairs form.
pub(crate) fn areas_of(alloc: Global, pairs: &[Area]) -> Result<&[Area], HeadFault>
    ensures { Returns (λ areas. areas.now) result (areas_in (slice_split (λ area. area.start == 0) pairs.now)) }
{
    let lists = lists_of(alloc, pairs)?;
    match lists.as_slice() {
        [_, areas, _, ..] if areas.len() <= MOST_AREAS => Ok(*areas),
        _ => Err(HeadFault::Header),
    }
}

/// Cuts the pairs of a header into lists: a pair with start 0 ends a list.
fn lists_of(alloc: Global, pairs: &[Area]) -> Result<Vec<&[Area]>, AllocError>
    ensures { IfOk result (λ lists. map (λ list. list.now) lists.items ≡ slice_split (λ area. area.start == 0) pairs.now) }
{
    pairs.split(|area| area.start == 0).collect(alloc)
}

/// Whether lvm2 regards a sector as a label; `place` is the sector's number.
fn is_taken(sector: &[u8], place: u64) -> bool
    requires { length sector.now ≡ SECTOR }
    ensures { result ≡ is_taken place sector.now }
{
    eight_at(sector, 24) == KIND
        && (eight_at(sector, 0) != LABEL
            || (eight_at(sector, 8) == place && four_at(sector, 16) == sum_of(&sector[20..512])))
}

/// Whether a sector that lvm2 regards as a label is valid.
fn is_sound(sector: &[u8]) -> bool
    requires { length sector.now ≡ SECTOR }
    ensures is { result ≡ is_sound sector.now }
    ensures after { result ≡ true → 32 ≤ header_at sector.now }
    ensures near { result ≡ true → header_at sector.now ≤ 472 }
{
    let at = four_at(sector, 20);
    eight_at(sector, 0) == LABEL && 32 <= at && at <= 472
}
