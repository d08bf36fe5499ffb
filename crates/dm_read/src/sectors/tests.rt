//! Reads sectors of devices from images in memory, which end early or fail after some reads.

use super::*;
use crate::fault::ByteFault;
use dm_map::PlainTaken;
use dm_stack::Stack;
use dm_store::{MemoryImages, SectorFault, listed_images};
use dm_table::{ShortOut, parse_disks, parse_paths, parse_table};
use std::alloc::Global;
use std::process::Abort;

/// Device `a` is on a disk whose image ends after 350 sectors, on zeros, on a disk without an image, and on errors.
/// Device `b` reaches past the end of that image.
const TABLE: &str =
    "a: 0 300 linear sda 10\na: 300 8 zero\na: 308 4 linear sda 0\na: 312 1 linear sdb 0\na: 313 7 error\n\
    b: 0 400 linear sda 0\n";

const DISKS: &str = "sda 400\nsdb 8\n";

const MISSING: ByteFault = ByteFault::Unread(SectorFault::Missing);

const UNREAD: ByteFault = ByteFault::Unread(SectorFault::Read);

/// A device, a start and a length, how many reads succeed, the expected sectors (from a sector of the image on, or
/// zeros if None) with their number, and the sector and the reason where reading stops.
static ROWS: [(
    &str,
    u64,
    u64,
    usize,
    &[(Option<u8>, usize)],
    Option<(u64, ByteFault)>,
); 9] = [
    ("a", 0, 0, 0, &[], None),
    ("a", 0, 2, 1, &[(Some(10), 2)], None),
    ("a", 299, 3, 1, &[(Some(53), 1), (None, 2)], None),
    ("a", 307, 5, 1, &[(None, 1), (Some(0), 4)], None),
    ("a", 308, 12, 1, &[(Some(0), 4)], Some((312, MISSING))),
    ("a", 313, 7, 9, &[], Some((313, ByteFault::Error))),
    ("b", 126, 4, 0, &[], Some((126, UNREAD))),
    ("b", 0, 130, 1, &[(Some(0), 128)], Some((128, UNREAD))),
    ("b", 340, 60, 99, &[(Some(84), 10)], Some((350, UNREAD))),
];

/// The bytes of sectors: each is filled with one byte, which counts up from the first sector's, or with zeros if None.
fn sectors_of(rt: &impl Abort, alloc: Global, parts: &[(Option<u8>, usize)]) -> Vec<u8> {
    let mut bytes = Vec::new(alloc);
    for (first, count) in parts {
        let mut byte = *first;
        for _ in 0..*count {
            bytes
                .extend_from_slice(&[byte.unwrap_or(0); SECTOR])
                .expect(rt, "a sector");
            byte = byte.map(|byte| byte.wrapping_add(1));
        }
    }
    bytes
}

#[test]
fn sectors_are_written_up_to_a_stop(rt: HostRuntime) {
    let alloc = rt.alloc();
    let devices = parse_table(alloc, TABLE.as_bytes()).expect(&rt, "devices");
    let disks = parse_disks(alloc, DISKS.as_bytes()).expect(&rt, "disks");
    let stack = Stack::load(alloc, devices, disks).expect(&rt, "a stack");
    let paths = parse_paths(alloc, b"sda sda.img\n").expect(&rt, "paths");
    let places = listed_images(alloc, &stack, &paths).expect(&rt, "places");
    let bytes = sectors_of(&rt, alloc, &[(Some(0), 350)]);
    let files = [("sda.img", bytes.as_slice())];
    for (name, start, len, reads, parts, want) in &ROWS {
        let device = stack.device(name).expect(&rt, "a device");
        let end = stack.len(device);
        assert!(&rt; *start <= end && *len <= end - *start, "inside");
        let mut images = MemoryImages::new(&files, *reads);
        let mut mapper: Mapper<'_, PlainTaken> = Mapper::new(alloc, stack.looker()).expect(
            &rt, "a mapper",
        );
        let mut output = ShortOut::new(alloc, 500, 400 * SECTOR).expect(&rt, "an output");
        let stop = write_sectors(
            &mut images,
            &places,
            &mut mapper,
            device,
            *start,
            *len,
            &mut output,
        )
        .expect(&rt, "an output with room");
        let stop = stop.map(|stop| (stop.sector, stop.fault));
        assert_eq!(&rt; stop, *want, "{name} {start} {len}");
        let written = sectors_of(&rt, alloc, parts);
        assert!(&rt;
            output.as_slice() == written.as_slice(),
            "{name} {start} {len}"
        );
    }
}
