//! The results of the calls that the program consists of, with ample memory.
//!
//! By its contract, a call that allocates may fail for lack of memory, so even a body that always fails would satisfy
//! every clause. These tests rule that out. Read-only devices are tested here because table text can't describe them.

ghost use Rattle.dmremap.specs.Prelude.{length, disk_len};
ghost use Rattle.std.specs.Prelude.{◌≡◌, ◌<◌};

use super::*;
use dm_map::{Mapper, Piece, PlainTaken, Sink};
use dm_stack::{DiskId, Lower, ResolvedTarget, Stack};
use dm_stream::{DiskTexts, Ending, Join, run};
use dm_table::{CheckFault, DiskName, Name, parse_disks, parse_table};

/// A text, whether it is a valid device name, and whether it is a valid disk name.
static NAMES: [(&str, bool, bool); 7] = [
    ("a.1:x", true, true),
    ("/dev/sda", false, true),
    ("", false, false),
    ("a b", false, false),
    ("a,b", false, false),
    ("/dev/mapper/a", false, false),
    ("\u{e9}", false, false),
];

/// Asserts whether a text is a valid device name.
fn check_name(rt: &impl Abort, alloc: Global, text: &str, is_name: bool) {
    match Name::new(alloc, text) {
        Ok(name) => assert!(rt; is_name && name.as_str() == text, "{text:?}"),
        Err(fault) => assert!(rt; !is_name && matches!(fault, CheckFault::Form), "{text:?}"),
    }
}

/// Asserts whether a text is a valid disk name.
fn check_disk_name(rt: &impl Abort, alloc: Global, text: &str, is_name: bool) {
    match DiskName::new(alloc, text) {
        Ok(name) => assert!(rt; is_name && name.as_str() == text, "{text:?}"),
        Err(fault) => assert!(rt; !is_name && matches!(fault, CheckFault::Form), "{text:?}"),
    }
}

#[test]
fn names(rt: HostRuntime) {
    for &(text, is_name, is_disk_name) in &NAMES {
        check_name(&rt, rt.alloc(), text, is_name);
        check_disk_name(&rt, rt.alloc(), text, is_disk_name);
    }
}

/// A stack with the source's devices, the first of them read-only if `ro`, and with two disks of 64 sectors.
fn stack_of(rt: &impl Abort, alloc: Global, source: &str, ro: bool) -> Stack {
    let mut devices = parse_table(alloc, source.as_bytes()).expect(rt, "devices");
    let disks = parse_disks(alloc, "sda 64\nsdb 64\n".as_bytes()).expect(rt, "disks");
    assert!(rt; 0 < devices.len(), "a device");
    devices[0].ro = ro;
    Stack::load(alloc, devices, disks).expect(rt, "a stack")
}

/// Two devices, the second on top of the first.
const TWO_DEVICES: &str = "a: 0 8 linear sda 0\nb: 0 8 linear /dev/mapper/a 0\n";

/// Asserts the counts of a stack with two devices, one on top of the other, and two disks.
fn check_counts(rt: &impl Abort, stack: &Stack) {
    assert_eq!(rt; stack.device_count(), 2);
    assert_eq!(rt; stack.disk_count(), 2);
    assert_eq!(rt; stack.depth(), 2);
    assert!(rt; stack.device("sda").is_none(), "a disk is no device");
}

/// Asserts what the stack returns for a device of eight sectors.
fn check_device(rt: &impl Abort, stack: &Stack, name: &str, is_ro: bool) {
    let device = stack.device(name).expect(rt, "a device");
    assert_eq!(rt; stack.is_ro(device), is_ro);
    assert_eq!(rt; stack.len(device), 8);
    assert_eq!(rt; stack.name(device), name);
}

/// Asserts what a look-up in a device of one line finds, and how many searches and comparisons it makes.
fn check_look(rt: &impl Abort, stack: &Stack, name: &str) {
    let device = stack.device(name).expect(rt, "a device");
    let mut looker = stack.looker();
    assert_eq!(rt; looker.depth(), 2);
    assert_eq!(rt; looker.len(device), 8);
    let line = looker.look(device, 7);
    assert_eq!(rt; (line.start, line.len), (0, 8));
    assert_eq!(rt; (looker.searches(), looker.comparisons()), (1, 0));
}

#[test]
fn a_stack(rt: HostRuntime) {
    let stack = stack_of(&rt, rt.alloc(), TWO_DEVICES, true);
    check_counts(&rt, &stack);
    check_device(&rt, &stack, "a", true);
    check_device(&rt, &stack, "b", false);
    check_look(&rt, &stack, "b");
}

/// A stack with the most lines that a load accepts, each of one sector.
fn most_lines(rt: &impl Abort, alloc: Global) -> Stack {
    let mut source = String::new(alloc);
    for start in 0..65536 {
        let line = format!(in alloc; "a: {start} 1 zero\n").expect(rt, "a line");
        source.push_str(&line).expect(rt, "a longer text");
    }
    stack_of(rt, alloc, &source, false)
}

/// Asserts that the line of a sector is found in at most one comparison, if each line has one sector.
fn check_found(rt: &impl Abort, stack: &Stack, sector: u64) {
    let device = stack.device("a").expect(rt, "a device");
    let mut looker = stack.looker();
    assert!(rt; sector < looker.len(device), "a sector of the device");
    let line = looker.look(device, sector);
    assert_eq!(rt; (line.start, line.len), (sector, 1));
    assert!(rt; looker.comparisons() <= 1, "few comparisons");
}

/// With the most lines, at most two lines are candidates for a sector in any bucket, even in the last one.
#[test]
fn buckets_of_the_most_lines(rt: HostRuntime) {
    let stack = most_lines(&rt, rt.alloc());
    for sector in [0, 1, 40000, 65533, 65534, 65535] {
        check_found(&rt, &stack, sector);
    }
}

/// Runs requests over a stack, and asserts what is written.
fn check_run(rt: &impl Abort, alloc: Global, stack: &Stack, requests: &[u8], want: &[u8]) {
    let mut mapper = Mapper::<PlainTaken>::new(alloc, stack.looker()).expect(rt, "a mapper");
    let texts = DiskTexts::new(alloc, stack).expect(rt, "texts of disks");
    let mut requests = input(requests, PLENTY, None);
    let mut written = output(rt, alloc, PLENTY, None, false);
    let mut messages = output(rt, alloc, PLENTY, None, false);
    let ending = run(
        stack,
        &mut mapper,
        &texts,
        &mut requests,
        &mut written,
        &mut messages,
        false,
    );
    assert_eq!(rt; ending, Ending::Done);
    assert_eq!(rt; written.as_slice(), want);
    assert!(rt; messages.as_slice().is_empty());
}

#[test]
fn a_read_only_device(rt: HostRuntime) {
    let stack = stack_of(&rt, rt.alloc(), TWO_DEVICES, true);
    let requests = b"W b 0 8\nR b 0 8\nW a 1 1\n";
    let want = b"1 error 8\n2 R sda 0 8\n3 error 1\n";
    check_run(&rt, rt.alloc(), &stack, requests, want);
}

/// The disk, of 64 sectors, to which the first line of a device maps.
fn disk_below(rt: &impl Abort, stack: &Stack, name: &str) -> DiskId
    ensures there { result < length stack.now.disks }
    ensures len { disk_len stack.now result ≡ 64 }
{
    let device = stack.device(name).expect(rt, "a device");
    let mut looker = stack.looker();
    assert!(rt; 0 < looker.len(device), "a first sector");
    let line = looker.look(device, 0);
    let ResolvedTarget::Linear {
        to: Lower::Disk(disk),
        ..
    } = line.target
    else {
        panic!(rt; "a device on a disk")
    };
    assert!(rt; disk.index() < stack.disk_count(), "a disk that is there");
    assert_eq!(rt; stack.disk_len(disk), 64);
    disk
}

/// A piece that copies eight sectors from one disk to another.
fn copy(disk: DiskId, start: u64, to: DiskId, to_start: u64) -> Piece
    ensures { result ≡ Piece.Copy disk start 8 to to_start }
{
    Piece::Copy {
        disk,
        start,
        len: 8,
        to,
        to_start,
    }
}

#[test]
fn copies_join_where_both_sides_continue(rt: HostRuntime) {
    let source = "a: 0 64 linear sda 0\nb: 0 64 linear sdb 0\n";
    let stack = stack_of(&rt, rt.alloc(), source, false);
    let disk = disk_below(&rt, &stack, "a");
    let to = disk_below(&rt, &stack, "b");
    let mut output = ShortOut::new(rt.alloc(), 1, PLENTY).expect(&rt, "an output");
    let texts = DiskTexts::new(rt.alloc(), &stack).expect(&rt, "texts of disks");
    let mut join = Join::new(&texts, &mut output);
    join.begin(7);
    join.piece(copy(disk, 0, to, 16)).expect(&rt, "a copy");
    join.piece(copy(disk, 8, to, 24))
        .expect(&rt, "a copy that continues");
    let fill = Piece::Fill {
        len: 8,
        disk: to,
        start: 32,
    };
    join.piece(fill).expect(&rt, "a fill");
    join.finish().expect(&rt, "the last piece");
    assert_eq!(&rt;
        output.as_slice(),
        "7 copy sda 0 16 sdb 16\n7 fill 8 sdb 32\n".as_bytes()
    );
}
