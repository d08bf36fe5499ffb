//! Reads tables in the concise form of dmsetup(8): devices separated by semicolons, each with a label
//! and lines.
//!
//! Devices are read in order, each once, and their faults are kept until the end, when the fault whose
//! check runs first is returned. `concise_device` reads a single device; a new target type belongs in
//! `line_body`.

ghost use Rattle.dm_table.specs.Prelude.{None, Ok, IfOk, OnOk, option_to_list, Source, texts, Answers, unless, Reads, first_noted, no_faults, noted_rows, IsParsed, DescribesConcise, without_newline, parts_of, concise_checks, fault_of_device, device_in, devices_from, parts_reading, entries as entries_of};
ghost use Rattle.std.specs.Prelude.{◌≡◌, ◌++◌};

use crate::load::load_fault::LoadFault;
use crate::load::place::Part;
use crate::load::reading::Reading;
use crate::load::row_faults::RowFault;
use crate::load::text_checks::check_text;
use crate::tables::concise_device::read_device;
use crate::tables::table::DeviceSpec;
use crate::words::fields::cut;
use std::alloc::{AllocError, Global};

/// The devices in a text of the concise form, in order. Each device is `NAME,UUID,MINOR,FLAGS` and its
/// lines, with commas between all of them and semicolons between devices. The uuid, the minor
/// number and the flags may be empty; the first two are checked and then dropped, and a device is
/// read-only if its flags are `ro`. A line is `START LEN TYPE ARGS`, as in table text, with at most one
/// space before it and one after it. The text may end with a newline. The place of a device, and of its
/// lines, is the device's number, from 1. The form is that of dmsetup(8), without the escapes.
///
/// Any other text has the fault of the first of these checks that finds one, at the first device where it
/// does: `NotText` for a byte other than 0x20 to 0x7E and a newline; `Syntax` for fewer than five entries, a
/// space in the first four, a newline before the end, or a line with fewer than three fields or more than
/// one space between two; `Field` for an invalid number, flags other than `ro` and `rw`, an unknown target
/// type or wrong arguments; `Name` for an invalid name of a device or disk, or an invalid uuid, which is up
/// to 128 bytes that a device's name may contain. `Memory`, with number 0, may come at any point if an
/// allocation is refused. Takes time linear in the length of the text.
pub fn parse_concise(alloc: Global, text: &[u8]) -> Result<Vec<DeviceSpec>, LoadFault>
    // An accepted text describes the devices that are returned; for a refused text, the first fault of the
    // first check that finds any is returned.
    ensures { IsParsed Source (DescribesConcise text.now) (concise_checks text.now) result }
{
    let text = without_newline(text);
    if let Err(fault) = check_text(alloc, Part::Source, b';', text) {
        return Err(fault);
    }
    match parts_of(alloc, text) {
        Ok(parts) => read_parts(alloc, &parts),
        Err(_) => Err(LoadFault::memory(Part::Source)),
    }
}

/// The text without the newline at its end, or the text itself if it doesn't end with a newline.
fn without_newline(text: &[u8]) -> &[u8]
    ensures { result.now ≡ without_newline text.now }
{
    match text {
        [before @ .., last] => { if *last == b'\n' { before } else { text } }
        [] => text,
    }
}

/// The parts of a text between semicolons. An empty text has no parts.
fn parts_of(alloc: Global, text: &[u8]) -> Result<Vec<&[u8]>, AllocError>
    ensures { IfOk result (λ parts. texts parts.items ≡ parts_of text.now) }
{
    if text.is_empty() {
        return Ok(Vec::new(alloc));
    }
    cut(alloc, b';', text)
}

/// The devices in the parts of a text, whose bytes have been checked before.
fn read_parts(alloc: Global, parts: &[&[u8]]) -> Result<Vec<DeviceSpec>, LoadFault>
    ensures { Answers Source (λ v. v.items) result (parts_reading (texts parts.now)) }
{
    match read_devices(alloc, parts) {
        Ok(reading) => reading.finish(),
        Err(_) => Err(LoadFault::memory(Part::Source)),
    }
}

/// Reads each part as a device, with two vectors of slices that all devices share.
fn read_devices(alloc: Global, parts: &[&[u8]]) -> Result<Reading<DeviceSpec>, AllocError>
    ensures devices { IfOk result (λ reading. first_noted reading.faults ≡ None → reading.values.items
        ≡ devices_from 1 (texts parts.now)) }
    ensures faults { IfOk result (λ reading. reading.faults
        ≡ noted_rows Source fault_of_device no_faults 1 (texts parts.now)) }
{
    let mut reading = Reading::new(alloc);
    let mut entries = Vec::new(alloc);
    let mut fields = Vec::new(alloc);
    for (index, part) in parts.iter().enumerate() {
        let number = index as u64 + 1;
        let read = read_part(
            alloc,
            &mut reading.values,
            &mut entries,
            &mut fields,
            *part,
            number,
        );
        reading.faults.note(Part::Source, number, read)?;
    }
    Ok(reading)
}

/// Reads a part as device `number` of the text, and adds it to the devices.
fn read_part<'a>(
    alloc: Global,
    devices: &mut Vec<DeviceSpec>,
    entries: &mut Vec<&'a [u8]>,
    fields: &mut Vec<&'a [u8]>,
    part: &'a [u8],
    number: u64,
) -> Result<(), RowFault>
    ensures devices { OnOk result (devices.new.items
        ≡ devices.old.items ++ option_to_list (device_in number (entries_of part.now))) }
    ensures fault { Reads (λ done. done) result (unless (fault_of_device part.now) tt) }
{
    devices.push(read_device(alloc, entries, fields, part, number)?)?;
    Ok(())
}
