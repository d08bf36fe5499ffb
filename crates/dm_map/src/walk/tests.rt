//! Tests that a stretch is a prefix of the first piece that the walk hands over for a read of the same sectors.
//!
//! Stretch and piece are both proved to fit the definitions. The tests show that both also end in the same place,
//! so a copy is cut where a read is, except at chunks of a snapshot that a read joins.

ghost use Rattle.dm_map.specs.Prelude.{lower_len};
ghost use Rattle.std.specs.Prelude.{◌≡◌, ◌+◌, ◌≤◌};

use crate::fixtures::stack_of;
use crate::mapper::Mapper;
use crate::pieces::piece::Piece;
use crate::pieces::piece_list::PieceList;
use crate::state::plain_taken::PlainTaken;
use crate::state::tables::empty_tables;
use crate::state::walker::Walker;
use crate::walk::range::map_range;
use crate::walk::stretch::{Ground, Stretch, first_stretch};
use dm_stack::{Lower, MOST_DEPTH, Stack};
use dm_table::{Op, Reserved, parse_request};
use std::alloc::Global;
use std::process::Abort;

/// A table with every target: stripes over a device and a disk, a device over the stripes, stripes over disks, a
/// snapshot of a snapshot, and the device of its origin.
const TABLE: &str = "a: 0 4 linear sda 10\na: 4 2 zero\na: 6 2 error\n\
    b: 0 8 striped 2 2 /dev/mapper/a 2 sdb 0\nc: 0 3 linear /dev/mapper/b 1\n\
    d: 0 8 striped 2 2 sda 0 sdb 0\n\
    s: 0 16 snapshot sda sdc P 4\nt: 0 16 snapshot /dev/mapper/s sdd P 8\n\
    o: 0 16 snapshot-origin /dev/mapper/s\n";

const DISKS: &str = "sda 16\nsdb 4\nsdc 64\nsdd 64\n";

/// A write, a read after the write, the length of the read's first stretch, and the length of its first piece.
/// The chunk is taken, or not, or taken only in the origin, or taken by a write to the origin's device.
static AFTER_A_WRITE: [(&str, &str, u64, u64); 6] = [
    ("W s 4 1", "R s 0 16", 4, 4),
    ("W t 0 8", "R t 3 13", 5, 5),
    ("W t 0 8", "R t 8 8", 4, 8),
    ("W s 0 16", "R t 2 14", 2, 14),
    ("W o 0 1", "R t 0 16", 8, 8),
    ("W o 0 1", "R o 0 16", 4, 4),
];

/// The piece of `len` sectors for a read that starts where the stretch starts.
fn piece_of(stretch: &Stretch, len: u64) -> Piece {
    match &stretch.ground {
        Ground::Disk { disk, start } => Piece::Read {
            disk: *disk,
            start: *start,
            len,
        },
        Ground::Zeros => Piece::Zero { len },
        Ground::Fails => Piece::Error { len },
    }
}

#[test]
fn a_stretch_begins_the_first_piece_of_a_read(rt: HostRuntime) {
    let alloc = rt.alloc();
    let stack = stack_of(&rt, alloc, TABLE, DISKS);
    for (line, want, piece) in [
        ("R a 0 8", 4, 4),
        ("R a 1 2", 2, 2),
        ("R a 4 4", 2, 2),
        ("R a 5 3", 1, 1),
        ("R a 6 2", 2, 2),
        ("R b 0 8", 2, 2),
        ("R b 1 7", 1, 1),
        ("R b 2 6", 2, 2),
        ("R b 4 4", 2, 2),
        ("R b 6 2", 2, 2),
        ("R c 0 3", 1, 1),
        ("R c 1 2", 2, 2),
        ("R d 0 8", 2, 2),
        ("R d 3 5", 1, 1),
        ("R s 0 16", 4, 16),
        ("R s 5 2", 2, 2),
        ("R s 7 9", 1, 9),
        ("R t 0 16", 4, 16),
        ("R t 6 10", 2, 10),
        ("R o 5 2", 2, 2),
        ("R o 7 9", 1, 9),
    ] {
        let request = parse_request(line.as_bytes(), 1).expect(&rt, "a request");
        let device = stack.device(request.device).expect(&rt, "a device");
        let (start, len) = (request.start, request.len);
        let end = stack.len(device);
        assert!(&rt; start < end && len <= end - start, "inside");
        let mut looker = stack.looker();
        let tables: Reserved<PlainTaken> = empty_tables(alloc, &mut looker).expect(&rt, "tables");
        let mut walker = Walker::new(looker, tables);
        let stretch = first_stretch(&mut walker, MOST_DEPTH, Lower::Device(device), start, len);
        assert_eq!(&rt; stretch.len, want, "{line}");
        let mut mapper: Mapper<'_, PlainTaken> = Mapper::new(alloc, stack.looker()).expect(
            &rt, "a mapper",
        );
        let read = mapper.first_read(device, start, len);
        assert!(&rt; read.ground == stretch.ground && read.len == want, "{line}");
        let mut list = PieceList::new(alloc, &stack);
        mapper
            .request(&request, device, &mut list)
            .expect(&rt, "pieces");
        let first = list.as_slice().first().copied();
        assert_eq!(&rt; first, Some(piece_of(&stretch, piece)), "{line}");
    }
}

/// The device and the range of sectors that the line of a request names.
fn sectors_of(rt: &impl Abort, stack: &Stack, line: &str) -> (Lower, u64, u64)
    ensures some { 1 ≤ result.2 }
    ensures inside { result.1 + result.2 ≤ lower_len stack.now result.0 }
{
    let request = parse_request(line.as_bytes(), 1).expect(rt, "a request");
    let device = stack.device(request.device).expect(rt, "a device");
    let (start, len) = (request.start, request.len);
    let end = stack.len(device);
    assert!(rt; start < end && len <= end - start, "inside");
    (Lower::Device(device), start, len)
}

/// A walker in the state that the write of this line leaves.
fn walker_after<'s>(
    rt: &impl Abort,
    alloc: Global,
    stack: &'s Stack,
    write: &str,
) -> Walker<'s, PlainTaken>
    ensures { result.stack ≡ stack.now }
{
    let mut looker = stack.looker();
    let tables: Reserved<PlainTaken> = empty_tables(alloc, &mut looker).expect(rt, "tables");
    let mut walker = Walker::new(looker, tables);
    let (lower, start, len) = sectors_of(rt, stack, write);
    let mut list = PieceList::new(alloc, stack);
    map_range(
        &mut walker,
        Op::Write,
        MOST_DEPTH,
        lower,
        start,
        len,
        &mut list,
    )
    .expect(rt, "pieces");
    walker
}

/// The first piece that the walk hands over for the read of this line.
fn first_read(
    rt: &impl Abort,
    alloc: Global,
    stack: &Stack,
    walker: &mut Walker<'_, PlainTaken>,
    read: &str,
) -> Option<Piece>
    requires { walker.old.stack ≡ stack.now }
{
    let (lower, start, len) = sectors_of(rt, stack, read);
    let mut list = PieceList::new(alloc, stack);
    map_range(walker, Op::Read, MOST_DEPTH, lower, start, len, &mut list).expect(rt, "pieces");
    list.as_slice().first().copied()
}

#[test]
fn a_stretch_begins_the_first_piece_of_a_read_after_a_write(rt: HostRuntime) {
    let alloc = rt.alloc();
    let stack = stack_of(&rt, alloc, TABLE, DISKS);
    for &(write, read, want, piece) in &AFTER_A_WRITE {
        let mut walker = walker_after(&rt, alloc, &stack, write);
        let (lower, start, len) = sectors_of(&rt, &stack, read);
        let stretch = first_stretch(&mut walker, MOST_DEPTH, lower, start, len);
        assert_eq!(&rt; stretch.len, want, "{write}, {read}");
        let first = first_read(&rt, alloc, &stack, &mut walker, read);
        assert_eq!(&rt; first, Some(piece_of(&stretch, piece)), "{write}, {read}");
    }
}
