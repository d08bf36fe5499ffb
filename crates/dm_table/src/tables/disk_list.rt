//! Reads disk lists: a line `NAME SECTORS` for each disk.
//!
//! Lines are read in order, each once, and their faults are kept until the end, as for table text. A new
//! column needs a field in `Disk` and, in `specs/tables/DiskList.antt`, its text in `disk_line`, its form
//! in `is_pair`, its value in `disk_in` and, if it is a name, its test in `has_name` and
//! `disk_reading`.

ghost use Rattle.dm_table.specs.Prelude.{option_to_list, Disks, fields, texts, Reads, IsParsed, DescribesDisks, disk_checks, disk_in, disk_reading, has_name, has_sectors, is_pair};
ghost use Rattle.std.specs.Prelude.{◌++◌};

use crate::load::load_fault::LoadFault;
use crate::load::place::{Part, Place};
use crate::load::reading::{FromRows, read_lines};
use crate::load::row_faults::RowFault;
use crate::tables::disk::Disk;
use crate::words::disk_name::{DiskName, is_disk_name};
use crate::words::fields::cut_into;
use crate::words::number;
use std::alloc::{AllocError, Global};

/// The disks in a disk list, in order.
///
/// The form is this project's own: a line `NAME SECTORS` for each disk, with one space between and
/// a newline at the end. A length counts sectors of 512 bytes and is below 10^19. The place of a
/// disk is its line, from 1.
///
/// Each check runs over the whole text, and the first that finds any fault reports its first line:
/// `NotText` for a byte other than 0x20 to 0x7E and a newline, `Syntax` for a line that doesn't consist of
/// two fields or isn't ended by a newline, `Field` for a length that isn't a valid number, `Name` for an
/// invalid disk name. `Memory`, with number 0, may come at any point if an allocation is refused.
///
/// Takes time linear in the length of the text.
pub fn parse_disks(alloc: Global, text: &[u8]) -> Result<Vec<Disk>, LoadFault>
    // An accepted text describes the disks that are returned; for a refused text, the first fault of the
    // first check that finds any is returned.
    ensures { IsParsed Disks (DescribesDisks text.now) (disk_checks text.now) result }
{
    read_lines(alloc, Part::Disks, text)
}

impl FromRows for Disk {
    ghost row_of = { fields };

    ghost is_row = { is_pair };

    ghost has_values = { has_sectors };

    ghost has_names = { has_name };

    ghost with_row = { λ disks n row. disks ++ option_to_list (disk_in n row) };

    fn cut_line<'a>(row: &mut Vec<&'a [u8]>, line: &'a [u8]) -> Result<(), AllocError> {
        cut_into(row, b' ', line)
    }

    fn read_row(
        alloc: Global,
        disks: &mut Vec<Disk>,
        row: &[&[u8]],
        number: u64,
    ) -> Result<(), RowFault> {
        disks.push(read_disk(alloc, row, number)?)?;
        Ok(())
    }
}

/// The disk that a row describes, as line `number` of the text. Of several faults, `Syntax` takes precedence over
/// `Field`, and `Field` over `Name`.
fn read_disk(alloc: Global, row: &[&[u8]], number: u64) -> Result<Disk, RowFault>
    ensures { Reads (λ disk. disk) result (disk_reading number (texts row.now)) }
{
    let [name, sectors] = row else {
        return Err(RowFault::Syntax);
    };
    if name.is_empty() || sectors.is_empty() {
        return Err(RowFault::Syntax);
    }
    let Some(len) = number::number(*sectors) else {
        return Err(RowFault::Field);
    };
    if !is_disk_name(*name) {
        return Err(RowFault::Name);
    }
    let at = Place {
        part: Part::Disks,
        number,
    };
    Ok(Disk {
        name: DiskName::of_bytes(alloc, *name)?,
        len,
        at,
    })
}
