//! Devices written as texts: the exact bytes of table text and of the concise form, also if an output fails.
//!
//! A load refuses these texts, or they contain more than is printed. All other texts are tested on the built program,
//! with the commands `table` and `concise`.

ghost use Rattle.dmremap.specs.Prelude.{length};
ghost use Rattle.std.specs.Prelude.{◌≤◌};

use super::*;
use dm_table::{DeviceSpec, parse_concise, parse_table, write_concise, write_table};

/// A text in the concise form, then its devices as table text and in the concise form. The texts have devices with and
/// without flags, uuids and minor numbers, spaces around lines, each target, and a name that occurs twice.
static TEXTS: [(&str, &str, &str); 6] = [
    ("\n", "", "\n"),
    (
        "s,LVM-1,7,rw,0 16 striped 2 8 sda 0 /dev/sdb 9999999999999999999",
        "s: 0 16 striped 2 8 sda 0 /dev/sdb 9999999999999999999\n",
        "s,,,rw,0 16 striped 2 8 sda 0 /dev/sdb 9999999999999999999\n",
    ),
    (
        "s,,9999999999999999999,ro,0 20 snapshot base /dev/mapper/c P 8",
        "s: 0 20 snapshot base /dev/mapper/c P 8\n",
        "s,,,ro,0 20 snapshot base /dev/mapper/c P 8\n",
    ),
    (
        "s,,,,0 20 snapshot base /dev/mapper/c P 8\n",
        "s: 0 20 snapshot base /dev/mapper/c P 8\n",
        "s,,,rw,0 20 snapshot base /dev/mapper/c P 8\n",
    ),
    (
        "a,,,,0 8 zero;a,,,,0 8 error",
        "a: 0 8 zero\na: 0 8 error\n",
        "a,,,rw,0 8 zero;a,,,rw,0 8 error\n",
    ),
    (
        "a,,,rw,0 8 zero,8 8 linear sda 0;b,,,ro,0 8 snapshot sda sdb P 8\n",
        "a: 0 8 zero\na: 8 8 linear sda 0\nb: 0 8 snapshot sda sdb P 8\n",
        "a,,,rw,0 8 zero,8 8 linear sda 0;b,,,ro,0 8 snapshot sda sdb P 8\n",
    ),
];

/// Asserts that the place of each device, and of each of its lines, is its number in the text.
fn check_places(rt: &impl Abort, devices: &[DeviceSpec]) {
    for (index, device) in devices.iter().enumerate() {
        let number = index as u64 + 1;
        assert_eq!(rt; device.at.number, number);
        for line in device.lines.as_slice() {
            assert_eq!(rt; line.at.number, number);
        }
    }
}

/// Asserts the table text of devices, written to an output that has room for this many bytes.
fn check_table(rt: &impl Abort, alloc: Global, devices: &[DeviceSpec], table: &[u8], room: usize)
    requires { room ≤ length table.now }
{
    let mut output = ShortOut::new(alloc, 3, room).expect(rt, "an output");
    let written = write_table(devices, &mut output);
    assert_eq!(rt; written.is_ok(), room == table.len(), "{room} bytes");
    assert_eq!(rt; output.as_slice(), &table[..room]);
}

/// Asserts the concise form of devices, written to an output that has room for this many bytes.
fn check_concise(
    rt: &impl Abort,
    alloc: Global,
    devices: &[DeviceSpec],
    concise: &[u8],
    room: usize,
)
    requires { room ≤ length concise.now }
{
    let mut output = ShortOut::new(alloc, 3, room).expect(rt, "an output");
    let written = write_concise(devices, &mut output);
    assert_eq!(rt; written.is_ok(), room == concise.len(), "{room} bytes");
    assert_eq!(rt; output.as_slice(), &concise[..room]);
}

#[test]
fn texts(rt: HostRuntime) {
    for &(text, table, concise) in &TEXTS {
        let devices = parse_concise(rt.alloc(), text.as_bytes()).expect(&rt, "devices");
        check_places(&rt, &devices);
        for room in 0..table.len() + 1 {
            check_table(&rt, rt.alloc(), &devices, table.as_bytes(), room);
        }
        for room in 0..concise.len() + 1 {
            check_concise(&rt, rt.alloc(), &devices, concise.as_bytes(), room);
        }
    }
}

#[test]
fn tables(rt: HostRuntime) {
    for &(_, table, _) in &TEXTS {
        let devices = parse_table(rt.alloc(), table.as_bytes()).expect(&rt, "devices");
        check_table(&rt, rt.alloc(), &devices, table.as_bytes(), table.len());
    }
}
