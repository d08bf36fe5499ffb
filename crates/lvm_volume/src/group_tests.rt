//! The devices and disks of groups, and the lines of the text that describe them, which no command prints.
//!
//! Refused texts are tested on the built program (`tests/outside`).

use crate::{DiskFault, OwnedFault, Owners, VolumeGroup, parse_owned, text_fault};
use dm_table::{
    DeviceSpec, Disk, LoadFault, LoadKind, Part, Place, ShortOut, parse_paths, write_concise,
};
use lvm_text::{TextFault, parse};
use std::alloc::{AllocError, Global};
use std::process::Abort;

/// A group with one logical volume on one physical volume.
const ONE: &str = r#"contents = "Text Format Volume Group"
version = 1
vg0 {
  extent_size = 8192
  physical_volumes {
    pv0 {
      device = "/dev/sda1"
      dev_size = 1050624
      pe_start = 2048
      pe_count = 128
    }
  }
  logical_volumes {
    lv0 {
      status = ["READ", "WRITE", "VISIBLE"]
      segment_count = 1
      segment1 {
        start_extent = 0
        extent_count = 25
        type = "striped"
        stripe_count = 1
        stripes = ["pv0", 0]
      }
    }
  }
}
"#;

/// Replaces line 24 of `ONE` to add a second volume with two stripes on lines 25 to 36.
const SECOND: &str = r#"    }
    lv-1 {
      status = ["READ"]
      segment_count = 1
      segment1 {
        start_extent = 0
        extent_count = 4
        type = "striped"
        stripe_count = 2
        stripe_size = 128
        stripes = ["pv0", 25, "pv0", 27]
      }
    }"#;

/// Replaces line 24 of `ONE` to add a snapshot of the first volume: its store on lines 25 to 35, then its record.
const SNAPSHOT: &str = r#"    }
    snap {
      status = ["READ", "WRITE", "VISIBLE"]
      segment_count = 1
      segment1 {
        start_extent = 0
        extent_count = 2
        type = "striped"
        stripe_count = 1
        stripes = ["pv0", 25]
      }
    }
    snapshot0 {
      status = ["READ", "WRITE"]
      segment_count = 1
      segment1 {
        start_extent = 0
        extent_count = 25
        type = "snapshot"
        chunk_size = 8
        origin = "lv0"
        cow_store = "snap"
      }
    }"#;

/// The devices and the disks that a text describes.
fn tables_of(rt: &impl Abort, alloc: Global, text: &str) -> (Vec<DeviceSpec>, Vec<Disk>) {
    let top = parse(alloc, text).expect(rt, "a text");
    let group = VolumeGroup::read(alloc, &top).expect(rt, "a group");
    group.tables(alloc).expect(rt, "tables")
}

/// Asserts the concise form of devices, and the numbers of the text lines that describe each device and its lines.
fn check_devices(
    rt: &impl Abort,
    alloc: Global,
    devices: &[DeviceSpec],
    concise: &str,
    lines: &[(u64, u64)],
) {
    let mut output = ShortOut::new(alloc, 4096, 4096).expect(rt, "an output");
    assert!(rt; write_concise(devices, &mut output).is_ok(), "{concise}");
    assert!(rt; output.as_slice() == concise.as_bytes(), "{concise}");
    for (device, &(at, line_at)) in devices.iter().zip(lines) {
        assert_eq!(rt; device.at.number, at, "{concise}");
        for line in device.lines.as_slice() {
            assert_eq!(rt; line.at.number, line_at, "{concise}");
        }
    }
}

/// Asserts the names and the lengths of disks, and the numbers of the text lines that describe them.
fn check_disks(rt: &impl Abort, disks: &[Disk], wanted: &[(&str, u64, u64)]) {
    assert_eq!(rt; disks.len(), wanted.len());
    for (disk, &(name, len, number)) in disks.iter().zip(wanted) {
        assert!(rt;
            disk.name.as_str() == name && disk.len == len && disk.at.number == number,
            "{name}"
        );
    }
}

/// A text in which line `number`, counted from 1, is replaced.
fn with_line(alloc: Global, text: &str, number: usize, new: &str) -> Result<String, AllocError> {
    let mut changed = String::new(alloc);
    for (index, line) in text.lines().enumerate() {
        changed.push_str(if index + 1 == number { new } else { line })?;
        changed.push('\n')?;
    }
    Ok(changed)
}

/// What is expected of a disk: its name, its length in sectors, and the number of its text line.
type DiskRow = (&'static str, u64, u64);

const ON_DEVICE: &[DiskRow] = &[("/dev/sda1", 1_050_624, 6)];

const ON_KEY: &[DiskRow] = &[("pv0", 1_050_624, 6)];

/// The number of a line of `ONE`, or 0 for none, and a line to replace it; then the device in the concise form and the
/// disks, as the changed text describes them.
static OF_ONE: [(usize, &str, &str, &[DiskRow]); 14] = [
    (
        0,
        "",
        "vg0-lv0,,,rw,0 204800 linear /dev/sda1 2048\n",
        ON_DEVICE,
    ),
    (
        20,
        "type = \"zero\"",
        "vg0-lv0,,,rw,0 204800 zero\n",
        ON_DEVICE,
    ),
    (
        20,
        "type = \"error\"",
        "vg0-lv0,,,rw,0 204800 error\n",
        ON_DEVICE,
    ),
    (
        22,
        "stripes = [\"pv0\", 103]",
        "vg0-lv0,,,rw,0 204800 linear /dev/sda1 845824\n",
        ON_DEVICE,
    ),
    (
        21,
        "stripe_count = 01 stripe_size = \"x\"",
        "vg0-lv0,,,rw,0 204800 linear /dev/sda1 2048\n",
        ON_DEVICE,
    ),
    (
        15,
        "status = [\"READ\", \"WRITE_LOCKED\", \"VISIBLE\"]",
        "vg0-lv0,,,rw,0 204800 linear /dev/sda1 2048\n",
        ON_DEVICE,
    ),
    (
        15,
        "status = []",
        "vg0-lv0,,,ro,0 204800 linear /dev/sda1 2048\n",
        ON_DEVICE,
    ),
    (
        15,
        "status = [] flags = [1, \"WRITE_LOCKED\"]",
        "vg0-lv0,,,rw,0 204800 linear /dev/sda1 2048\n",
        ON_DEVICE,
    ),
    (16, "segment_count = 0", "vg0-lv0,,,rw,\n", ON_DEVICE),
    (
        7,
        "device = \"/dev/mapper/x\"",
        "vg0-lv0,,,rw,0 204800 linear pv0 2048\n",
        ON_KEY,
    ),
    (
        7,
        "device = \"sda\"",
        "vg0-lv0,,,rw,0 204800 linear pv0 2048\n",
        ON_KEY,
    ),
    (
        7,
        "device = \"/dev/a b\"",
        "vg0-lv0,,,rw,0 204800 linear pv0 2048\n",
        ON_KEY,
    ),
    (
        11,
        "} pv1 { device = \"/dev/sda1\" dev_size = 0 pe_start = 0 pe_count = 0 }",
        "vg0-lv0,,,rw,0 204800 linear pv0 2048\n",
        &[("pv0", 1_050_624, 6), ("pv1", 0, 11)],
    ),
    (
        11,
        "} pv1 { device = \"/dev/sdb\" dev_size = 9 pe_start = 0 pe_count = 0 }",
        "vg0-lv0,,,rw,0 204800 linear /dev/sda1 2048\n",
        &[("/dev/sda1", 1_050_624, 6), ("/dev/sdb", 9, 11)],
    ),
];

/// A text that replaces line 24 of `ONE` and adds volumes; then the devices in the concise form, and the numbers of the
/// text lines that describe each device and its lines.
static OF_SEVERAL: [(&str, &str, &[(u64, u64)]); 2] = [
    (
        SECOND,
        "vg0-lv0,,,rw,0 204800 linear /dev/sda1 2048;\
        vg0-lv--1,,,ro,0 32768 striped 2 128 /dev/sda1 206848 /dev/sda1 223232\n",
        &[(14, 17), (25, 28)],
    ),
    (
        SNAPSHOT,
        "vg0-lv0-real,,,rw,0 204800 linear /dev/sda1 2048;\
        vg0-lv0,,,rw,0 204800 snapshot-origin /dev/mapper/vg0-lv0-real;\
        vg0-snap-cow,,,rw,0 16384 linear /dev/sda1 206848;\
        vg0-snap,,,rw,0 204800 snapshot /dev/mapper/vg0-lv0-real /dev/mapper/vg0-snap-cow P 8\n",
        &[(14, 17), (14, 14), (25, 28), (25, 39)],
    ),
];

/// Asserts the devices and the disks that a text describes.
fn check_tables(
    rt: &impl Abort,
    alloc: Global,
    text: &str,
    concise: &str,
    lines: &[(u64, u64)],
    disk_rows: &[DiskRow],
) {
    let (devices, disks) = tables_of(rt, alloc, text);
    check_devices(rt, alloc, &devices, concise, lines);
    check_disks(rt, &disks, disk_rows);
}

#[test]
fn one_device(rt: HostRuntime) {
    for &(number, line, concise, disk_rows) in &OF_ONE {
        let text = with_line(rt.alloc(), ONE, number, line).expect(&rt, "a text");
        check_tables(
            &rt,
            rt.alloc(),
            text.as_str(),
            concise,
            &[(14, 17)],
            disk_rows,
        );
    }
}

#[test]
fn several_devices(rt: HostRuntime) {
    for &(more, concise, lines) in &OF_SEVERAL {
        let text = with_line(rt.alloc(), ONE, 24, more).expect(&rt, "a text");
        check_tables(&rt, rt.alloc(), text.as_str(), concise, lines, ON_DEVICE);
    }
}

/// A line to replace line 7 of `ONE`, with the id of an image; metadata texts write the id with dashes.
const OWNED: &str =
    "device = \"/dev/sda1\" id = \"abcdef-ghij-klmn-opqr-stuv-wxyz-012345\" type = \"raid1\"";

/// A line to replace line 7 of `ONE`, for a physical volume that was missing; the lines below are for other devices.
const MISSING: &str =
    "device = \"/dev/md0\" flags = [\"X\", \"MISSING\"] id = \"abcdefghijklmnopqrstuvwxyz012345\"";

const ON_ARRAY: &str = "device = \"/dev/md/a:0\" id = \"abcdefghijklmnopqrstuvwxyz012345\"";

const ON_MD: &str = "device = \"/dev/md\" id = \"abcdefghijklmnopqrstuvwxyz012345\"";

const ON_MAPPER: &str = "device = \"/dev/mapper/md0\" id = \"abcdefghijklmnopqrstuvwxyz012345\"";

/// The number of a line of `ONE`, and a line to replace it; then the device in the concise form, or the fault, if an
/// image with an id is that of the disk `sdb`.
static OF_OWNED: [(usize, &str, Result<&str, OwnedFault>); 7] = [
    (7, OWNED, Ok("vg0-lv0,,,rw,0 204800 linear sdb 2048\n")),
    (
        20,
        "type = \"raid1\"",
        Err(OwnedFault::Disk(0, DiskFault::Foreign)),
    ),
    // A missing disk, whatever its array; two disks on arrays of other names; a disk that isn't on an array.
    (7, MISSING, Err(OwnedFault::Disk(0, DiskFault::Missing))),
    (7, ON_ARRAY, Err(OwnedFault::Disk(0, DiskFault::Array))),
    (7, ON_MD, Err(OwnedFault::Disk(0, DiskFault::Array))),
    (7, ON_MAPPER, Ok("vg0-lv0,,,rw,0 204800 linear sdb 2048\n")),
    (
        11,
        "id = \"abcdefghijklmnopqrstuvwxyz012345\" } pv1 {}",
        Err(OwnedFault::Load(LoadFault {
            kind: LoadKind::Field,
            at: Place {
                part: Part::Source,
                number: 11,
            },
        })),
    ),
];

/// Asserts what reading a text gives when images with these ids are present.
fn check_owned(
    rt: &impl Abort,
    alloc: Global,
    text: &str,
    owners: &Owners<'_>,
    want: Result<&str, OwnedFault>,
) {
    match parse_owned(alloc, text.as_bytes(), owners) {
        Ok(tables) => {
            let concise = want.ok().expect(rt, "a refusal");
            check_devices(rt, alloc, &tables.0, concise, &[(14, 17)]);
        }
        Err(fault) => assert!(rt; want == Err(fault)),
    }
}

#[test]
fn owned_disks(rt: HostRuntime) {
    let alloc = rt.alloc();
    let ids = [*b"abcdefghijklmnopqrstuvwxyz012345"];
    let disks = parse_paths(alloc, b"sdb image\n").expect(&rt, "paths");
    let owners = Owners {
        ids: &ids,
        disks: &disks,
    };
    for &(number, line, want) in &OF_OWNED {
        let text = with_line(alloc, ONE, number, line).expect(&rt, "a text");
        check_owned(&rt, alloc, text.as_str(), &owners, want);
    }
}

#[test]
fn out_of_memory(rt: HostRuntime) {
    let fault = text_fault(TextFault::Memory);
    assert_eq!(rt; fault.kind, LoadKind::Memory);
    assert_eq!(rt; fault.at.number, 0);
}
