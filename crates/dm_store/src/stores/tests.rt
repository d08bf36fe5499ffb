//! Tests of reading stores from memory. Tests of the built program cover each word for a fault.

ghost use Rattle.std.specs.Prelude.{◌≡◌};

use super::*;
use crate::image_list::listed_images;
use crate::memory_images::MemoryImages;
use crate::message::StoreMessage;
use dm_map::PlainTaken;
use dm_table::{parse_disks, parse_paths, parse_table};
use std::alloc::Global;
use std::process::Abort;

/// A snapshot with chunks of 8 sectors. The header of its store is in one part of a disk, and the list and all chunks
/// after it are in another.
const TABLE: &str =
    "s: 0 800 snapshot base /dev/mapper/cow P 8\ncow: 0 8 linear sda 8\ncow: 8 392 linear sda 20\n";

const DISKS: &str = "base 800\nsda 412\n";

/// The offset in bytes of the store's header in the image.
const HEADER: usize = 8 * SECTOR;

const LIST: usize = 20 * SECTOR;

/// The four numbers in the header of a store that is in use: magic, valid, version and chunk size.
const USED: [u32; 4] = [0x7041_6e53, 1, 1, 8];

/// A header, the pairs of the list, how many reads are answered, and the expected message.
static ROWS: [([u32; 4], &[(u64, u64)], usize, &str); 14] = [
    ([0, 0, 0, 0], &[], 1, ""),
    (USED, &[], 2, ""),
    (USED, &[(7, 2), (99, 3)], 2, ""),
    (
        USED,
        &[(7, 2), (0, 0), (8, 4)],
        2,
        "dmremap: store s: gap\n",
    ),
    ([0x7041_6e53, 0, 1, 8], &[(7, 2)], 1, ""),
    (USED, &[], 0, "dmremap: store s: read\n"),
    (USED, &[], 1, "dmremap: store s: read\n"),
    ([1, 1, 1, 8], &[], 9, "dmremap: store s: magic\n"),
    (
        [0x7041_6e53, 0, 2, 8],
        &[],
        9,
        "dmremap: store s: version\n",
    ),
    ([0x7041_6e53, 0, 1, 16], &[], 9, "dmremap: store s: chunk\n"),
    (USED, &[(7, 3)], 9, "dmremap: store s: order\n"),
    (USED, &[(100, 2)], 9, "dmremap: store s: range\n"),
    (
        USED,
        &[(7, 2), (8, 3), (7, 4)],
        9,
        "dmremap: store s: again\n",
    ),
    (
        USED,
        &[(7, 2), (7, 3), (200, 9)],
        9,
        "dmremap: store s: order\n",
    ),
];

/// An image of the disk with this header and these pairs.
fn image_of(rt: &impl Abort, alloc: Global, header: [u32; 4], pairs: &[(u64, u64)]) -> Vec<u8> {
    let mut bytes = vec![in alloc; 0; 412 * SECTOR].expect(rt, "an image");
    let mut at = HEADER;
    for number in header {
        put(rt, &mut bytes, at, &number.to_le_bytes());
        at = at.wrapping_add(4);
    }
    at = LIST;
    for (old, new) in pairs {
        put(rt, &mut bytes, at, &old.to_le_bytes());
        put(rt, &mut bytes, at.wrapping_add(8), &new.to_le_bytes());
        at = at.wrapping_add(16);
    }
    bytes
}

/// Writes the bytes of a number into an image at offset `at`.
fn put(rt: &impl Abort, bytes: &mut Vec<u8>, at: usize, number: &[u8]) {
    for (index, byte) in number.iter().enumerate() {
        *bytes.get_mut(at.wrapping_add(index)).expect(rt, "a place") = *byte;
    }
}

#[test]
fn stores_are_read_or_refused(rt: HostRuntime) {
    let alloc = rt.alloc();
    let devices = parse_table(alloc, TABLE.as_bytes()).expect(&rt, "devices");
    let disks = parse_disks(alloc, DISKS.as_bytes()).expect(&rt, "disks");
    let stack = Stack::load(alloc, devices, disks).expect(&rt, "a stack");
    for (header, pairs, reads, want) in &ROWS {
        let bytes = image_of(&rt, alloc, *header, pairs);
        let paths = parse_paths(alloc, b"sda sda.img\n").expect(&rt, "paths");
        let places = listed_images(alloc, &stack, &paths).expect(&rt, "places");
        let files = [("sda.img", bytes.as_slice())];
        let mut images = MemoryImages::new(&files, *reads);
        let mut mapper: Mapper<'_, PlainTaken> = Mapper::new(alloc, stack.looker()).expect(
            &rt, "a mapper",
        );
        let message = match read_stores(&mut images, &places, &stack, &mut mapper) {
            Ok(()) => StoreMessage::new(),
            Err(refusal) => refusal.message(&stack),
        };
        assert_eq!(&rt; message.as_slice(), want.as_bytes());
    }
}
