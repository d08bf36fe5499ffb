//! Tests of the heads of disks in memory.

ghost use Rattle.lvm_head.specs.Prelude.{[], ℕ, Err, Ok, length, nat_le, nat_lt, not, slice_range};
ghost use Rattle.std.specs.Prelude.{◌≡◌, ◌+◌, ◌*◌, ◌==◌, ◌&&◌, if◌then◌else◌};

use super::*;
use dm_table::DiskName;
use std::alloc::Global;
use std::process::Abort;

/// How many sectors each disk has.
const SECTORS: usize = 16;

/// Disks in memory, one after the other; the last disk may end early. Sector number `bad`, counted over all disks,
/// can't be read. Reads of more than one sector fail, which the trait allows.
#[derive(Drop)]
struct MemoryDisks<'a> {
    bytes: &'a [u8],
    bad: usize,
}

impl Disks for MemoryDisks<'_> {
    ghost listed = { λ _. [] };

    ghost IsSeen = { λ m held. (disk sector : ℕ) → held disk sector
        ≡ (if nat_lt sector 16 && not (16 * disk + sector == m.bad)
        && nat_le (512 * (16 * disk + sector) + 512) (length m.bytes.now)
        then Ok (slice_range m.bytes.now (512 * (16 * disk + sector)) (512 * (16 * disk + sector) + 512))
        else Err (record {})) };

    fn read(&mut self, disk: usize, sector: u64, into: &mut [u8]) -> Result<(), ReadFault> {
        let all = self.bytes.len() / SECTOR;
        if into.len() != SECTOR || sector >= SECTORS as u64 || disk > all / SECTORS {
            return Err(ReadFault);
        }
        let at = SECTORS * disk + sector as usize;
        if at == self.bad || at >= all {
            return Err(ReadFault);
        }
        into.copy_from_slice(&self.bytes[SECTOR * at..SECTOR * at + 512]);
        Ok(())
    }
}

/// A number to write into a disk: its offset, its width in bytes, and its value.
type Change = (usize, usize, u64);

/// A disk: the sector of the label, the offset of the texts in their areas, the texts of the two areas, of which the
/// label lists only the first, and numbers to change before the checksums are computed.
type Row = (usize, usize, [&'static str; 2], &'static [Change]);

/// The offsets in a disk at which its two areas begin, in bytes.
const AREAS: [usize; 2] = [2048, 4608];

/// The size of an area in bytes.
const AREA: usize = 2048;

/// The bytes `LABELONE`.
const NAME: u64 = 0x454E_4F4C_4542_414C;

/// The bytes `LVM2 001`.
const KIND: u64 = 0x3130_3020_324D_564C;

/// The numbers in the sector of a label, including those of the physical volume's header.
const LABEL: [Change; 9] = [
    (0, 8, NAME),
    (20, 4, 32),
    (24, 8, KIND),
    (32, 8, 0x3742_6141_3642_6141),
    (40, 8, 0x3742_6141_3642_6141),
    (72, 8, 6144),
    (80, 8, 2048),
    (104, 8, 2048),
    (112, 8, 2048),
];

/// The numbers in the header of an area that all areas have in common.
const HEADER: [Change; 4] = [
    (4, 8, 0x5B78_2032_4D56_4C20),
    (12, 8, 0x3E2A_4E30_7225_4135),
    (20, 4, 1),
    (32, 8, 2048),
];

/// Writes the disk that a row describes.
fn write_disk(rt: &impl Abort, disk: &mut [u8], row: &Row) {
    let (sector, offset, texts, changes) = row;
    let label = sector.wrapping_mul(SECTOR);
    write(rt, disk, label, &LABEL);
    write(rt, disk, label, &[(8, 8, *sector as u64)]);
    for i in 0..2 {
        write_area(rt, disk, AREAS[i], *offset, texts[i].as_bytes());
    }
    write(rt, disk, 0, changes);
    for start in AREAS {
        seal(rt, disk, start, 4, start);
    }
    seal(rt, disk, label.wrapping_add(16), 20, label);
}

/// Writes an area with a header and a text.
fn write_area(rt: &impl Abort, disk: &mut [u8], start: usize, offset: usize, text: &[u8]) {
    write(rt, disk, start, &HEADER);
    write(
        rt,
        disk,
        start,
        &[
            (24, 8, start as u64),
            (40, 8, offset as u64),
            (48, 8, text.len() as u64),
            (56, 4, u64::from(sum_of(text))),
        ],
    );
    let mut at = offset;
    for byte in text {
        if at == AREA {
            at = SECTOR;
        }
        *disk.get_mut(start.wrapping_add(at)).expect(rt, "a place") = *byte;
        at = at.wrapping_add(1);
    }
}

/// Writes little-endian numbers into a disk; their offsets count from `from`.
fn write(rt: &impl Abort, disk: &mut [u8], from: usize, changes: &[Change]) {
    for (at, width, number) in changes {
        let bytes = number.to_le_bytes();
        for i in 0..*width {
            let place = from.wrapping_add(*at).wrapping_add(i);
            *disk.get_mut(place).expect(rt, "a place") = *bytes.get(i).expect(rt, "a byte");
        }
    }
}

/// Writes, at offset `at`, the checksum of a sector's bytes from offset `from` on.
fn seal(rt: &impl Abort, disk: &mut [u8], at: usize, from: usize, sector: usize) {
    let sum = {
        let bytes = disk.get(sector.wrapping_add(from)..sector.wrapping_add(SECTOR));
        sum_of(bytes.expect(rt, "a sector"))
    };
    write(rt, disk, at, &[(0, 4, u64::from(sum))]);
}

/// The disks that rows describe, one after the other.
fn disks_of(rt: &impl Abort, alloc: Global, rows: &[Row]) -> Vec<u8> {
    let mut bytes = Vec::new(alloc);
    for row in rows {
        let mut disk = vec![in alloc; 0; 8192].expect(rt, "a disk");
        write_disk(rt, &mut disk, row);
        bytes.extend_from_slice(&disk).expect(rt, "room");
    }
    bytes
}

/// Compares the text or the refusal that reading the first `count` disks returns with the one that a row expects.
fn compare(
    rt: &impl Abort,
    alloc: Global,
    disks: MemoryDisks<'_>,
    count: usize,
    row: usize,
    want: Result<&str, HeadRefusal>,
) {
    let mut disks = disks;
    match read_heads(alloc, &mut disks, count) {
        Ok(heads) => {
            assert_eq!(rt; heads.ids.len(), count);
            match want {
                Ok(text) => assert!(rt; heads.text.as_slice() == text.as_bytes(), "row {row}"),
                Err(_) => assert!(rt; false, "row {row}"),
            }
        }
        Err(refusal) => assert!(rt; want == Err(refusal), "row {row}: {refusal:?}"),
    }
}

/// The texts of the two areas in most rows.
const TEXTS: [&str; 2] = ["ab\n\0", "ab\n\0"];

/// Single disks, and the text or the fault that reading each returns.
static ROWS: [(Row, Result<&str, HeadFault>); 51] = [
    ((1, 512, TEXTS, &[]), Ok("ab\n")),
    // The label: its sector, its magic bytes, and where the header begins.
    ((0, 512, TEXTS, &[]), Ok("ab\n")),
    ((3, 512, TEXTS, &[]), Ok("ab\n")),
    ((12, 512, TEXTS, &[]), Err(HeadFault::Label)),
    ((1, 512, TEXTS, &[(512, 1, 0x4D)]), Err(HeadFault::Label)),
    ((1, 512, TEXTS, &[(520, 8, 2)]), Err(HeadFault::Label)),
    ((1, 512, TEXTS, &[(532, 4, 31)]), Err(HeadFault::Label)),
    ((1, 512, TEXTS, &[(532, 4, 473)]), Err(HeadFault::Label)),
    ((1, 512, TEXTS, &[(543, 1, 0x32)]), Err(HeadFault::Label)),
    // Sectors with `LVM2 001` alone, which lvm2 regards as labels. With `LABELONE` too, the checksum must be right.
    ((1, 512, TEXTS, &[(24, 8, KIND)]), Err(HeadFault::Label)),
    ((1, 512, TEXTS, &[(0, 8, NAME), (24, 8, KIND)]), Ok("ab\n")),
    // Partition tables, and three invalid ones: without sectors, with a bad first byte, and without 55 AA.
    (
        (1, 512, TEXTS, &[(458, 4, 1), (510, 2, 0xAA55)]),
        Err(HeadFault::Partitions),
    ),
    (
        (
            1,
            512,
            TEXTS,
            &[(494, 1, 0x80), (506, 4, 256), (510, 2, 0xAA55)],
        ),
        Err(HeadFault::Partitions),
    ),
    ((1, 512, TEXTS, &[(510, 2, 0xAA55)]), Ok("ab\n")),
    (
        (1, 512, TEXTS, &[(458, 4, 1), (494, 1, 1), (510, 2, 0xAA55)]),
        Ok("ab\n"),
    ),
    (
        (1, 512, TEXTS, &[(458, 4, 1), (510, 2, 0xAB55)]),
        Ok("ab\n"),
    ),
    // The superblock of an md array's member, in sector 0 or 8.
    (
        (1, 512, TEXTS, &[(0, 4, 0xA92B_4EFC)]),
        Err(HeadFault::Array),
    ),
    (
        (1, 512, TEXTS, &[(4096, 4, 0xA92B_4EFC)]),
        Err(HeadFault::Array),
    ),
    // The lists of areas: no pairs at all, both lists empty in the last two pairs, and a second list without an end.
    ((1, 512, TEXTS, &[(532, 4, 472)]), Err(HeadFault::Header)),
    ((1, 512, TEXTS, &[(532, 4, 440), (984, 8, 8192)]), Ok("")),
    (
        (
            1,
            512,
            TEXTS,
            &[(532, 4, 440), (984, 8, 8192), (1008, 8, 1)],
        ),
        Err(HeadFault::Header),
    ),
    (
        (
            1,
            512,
            TEXTS,
            &[
                (632, 8, 4608),
                (640, 8, 2048),
                (648, 8, 2048),
                (656, 8, 2048),
            ],
        ),
        Err(HeadFault::Header),
    ),
    // An area: its start, and each number of its header.
    ((1, 512, TEXTS, &[(616, 8, 2049)]), Err(HeadFault::Header)),
    (
        (1, 512, TEXTS, &[(616, 8, 0x200_0000_0000_0200)]),
        Err(HeadFault::Header),
    ),
    (
        (1, 512, TEXTS, &[(616, 8, 0x200_0000_0000_0000)]),
        Err(HeadFault::Unread),
    ),
    ((1, 512, TEXTS, &[(624, 8, 2047)]), Err(HeadFault::Header)),
    ((1, 512, TEXTS, &[(2052, 1, 0)]), Err(HeadFault::Header)),
    ((1, 512, TEXTS, &[(2060, 1, 0)]), Err(HeadFault::Header)),
    ((1, 512, TEXTS, &[(2068, 4, 2)]), Err(HeadFault::Header)),
    ((1, 512, TEXTS, &[(2072, 8, 4096)]), Err(HeadFault::Header)),
    ((1, 512, TEXTS, &[(2080, 8, 2049)]), Err(HeadFault::Header)),
    // Where the text is: nowhere, at the edges of the ring buffer, too long, and across the end of the ring buffer.
    ((1, 512, TEXTS, &[(2088, 8, 0)]), Ok("")),
    ((1, 512, TEXTS, &[(2096, 8, 0)]), Err(HeadFault::Text)),
    ((1, 512, TEXTS, &[(2108, 4, 1)]), Ok("")),
    ((1, 512, TEXTS, &[(2108, 4, 2)]), Ok("ab\n")),
    ((1, 512, TEXTS, &[(2088, 8, 511)]), Err(HeadFault::Header)),
    ((1, 512, TEXTS, &[(2088, 8, 2048)]), Err(HeadFault::Header)),
    ((1, 512, TEXTS, &[(2096, 8, 1537)]), Err(HeadFault::Header)),
    ((1, 512, TEXTS, &[(2096, 8, 1536)]), Err(HeadFault::Text)),
    (
        (
            1,
            512,
            TEXTS,
            &[(624, 8, 1 << 22), (2080, 8, 1 << 22), (2096, 8, 1_048_577)],
        ),
        Err(HeadFault::Long),
    ),
    (
        (
            1,
            512,
            TEXTS,
            &[(624, 8, 1 << 22), (2080, 8, 1 << 22), (2096, 8, 1_048_576)],
        ),
        Err(HeadFault::Unread),
    ),
    ((1, 2044, TEXTS, &[]), Ok("ab\n")),
    ((1, 2045, TEXTS, &[]), Ok("ab\n")),
    // The checksum of the text, and how the text ends.
    ((1, 512, TEXTS, &[(2104, 4, 0)]), Err(HeadFault::Text)),
    ((1, 512, ["ab\r", ""], &[]), Err(HeadFault::Text)),
    ((1, 512, ["ab\n", ""], &[]), Ok("ab\n")),
    ((1, 512, ["ab\0", ""], &[]), Ok("ab")),
    // Labels that list two areas.
    (
        (1, 512, TEXTS, &[(632, 8, 4608), (640, 8, 2048)]),
        Ok("ab\n"),
    ),
    (
        (
            1,
            512,
            ["ab\n\0", "ac\n\0"],
            &[(632, 8, 4608), (640, 8, 2048)],
        ),
        Err(HeadFault::Differ),
    ),
    (
        (
            1,
            512,
            ["ab\n\0", "ac\n\0"],
            &[(632, 8, 4608), (640, 8, 2048), (4668, 4, 1)],
        ),
        Ok("ab\n"),
    ),
    (
        (
            1,
            512,
            ["ab\n\0", "ac\n\0"],
            &[(632, 8, 4608), (640, 8, 2048), (2108, 4, 1)],
        ),
        Ok("ac\n"),
    ),
];

/// A second disk, read after that of the first row of `ROWS`, and the text of both, or the fault of the second disk.
static PAIRS: [(Row, Result<&str, HeadFault>); 4] = [
    ((1, 512, TEXTS, &[]), Err(HeadFault::Twice)),
    ((1, 512, TEXTS, &[(544, 1, 0x7A)]), Ok("ab\n")),
    (
        (1, 512, ["ac\n\0", ""], &[(544, 1, 0x7A)]),
        Err(HeadFault::Differ),
    ),
    ((0, 512, TEXTS, &[(32, 1, 0x7A), (2108, 4, 1)]), Ok("ab\n")),
];

/// A sector that can't be read, and the text or the fault that reading the disk then returns.
static BAD: [(usize, Result<&str, HeadFault>); 6] = [
    (0, Err(HeadFault::Unread)),
    (1, Err(HeadFault::Unread)),
    (2, Ok("ab\n")),
    (4, Err(HeadFault::Unread)),
    (5, Err(HeadFault::Unread)),
    (8, Err(HeadFault::Unread)),
];

#[test]
fn heads_are_read_or_refused(rt: HostRuntime) {
    let alloc = rt.alloc();
    // The first expected checksum was computed with zlib; the second is lvm2's checksum of an empty slice.
    assert_eq!(&rt; sum_of(b"123456789"), 0x4991_CF02);
    assert_eq!(&rt; sum_of(b""), 0xF597_A6CF);
    for (number, (row, want)) in ROWS.iter().enumerate() {
        let bytes = disks_of(&rt, alloc, &[*row]);
        let disks = MemoryDisks {
            bytes: &bytes,
            bad: 99,
        };
        compare(&rt, alloc, disks, 1, number, at_disk(0, *want));
    }
    for (bad, want) in &BAD {
        let bytes = disks_of(&rt, alloc, &[ROWS[0].0]);
        let disks = MemoryDisks {
            bytes: &bytes,
            bad: *bad,
        };
        compare(&rt, alloc, disks, 1, *bad, at_disk(0, *want));
    }
    for (number, (row, want)) in PAIRS.iter().enumerate() {
        let bytes = disks_of(&rt, alloc, &[ROWS[0].0, *row]);
        let disks = MemoryDisks {
            bytes: &bytes,
            bad: 99,
        };
        compare(&rt, alloc, disks, 2, number, at_disk(1, *want));
    }
}

/// The result that a row expects, with a fault turned into the refusal of this disk.
fn at_disk(disk: usize, want: Result<&str, HeadFault>) -> Result<&str, HeadRefusal> {
    match want {
        Ok(text) => Ok(text),
        Err(fault) => Err(HeadRefusal { disk, fault }),
    }
}

#[test]
fn messages_name_the_disk(rt: HostRuntime) {
    let name = DiskName::new(rt.alloc(), "sda").expect(&rt, "a name");
    let message = HeadFault::Unread.message(&name);
    assert_eq!(&rt; message.as_slice(), "dmremap: disk sda: read\n".as_bytes());
}
