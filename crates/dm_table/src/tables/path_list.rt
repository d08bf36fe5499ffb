//! Reads path lists: a line `DISK PATH` for each disk that has an image.
//!
//! A path may contain spaces, and may end by naming the part of the file that is the disk's image. Lines are read as
//! in a disk list, except that their text is UTF-8.

ghost use Rattle.dm_table.specs.Prelude.{[], IfSome, length, option_map, option_to_list, Paths, Answers, IsParsed, Reads, has_name, is_pair, DescribesPaths, read_paths, after_mark, bytes_in, cut_at, extent_by, extent_of, has_place, is_of_part, is_path_text, name_and_path, path_checks, path_in, path_reading, place_in, sectors_in, texts};
ghost use Rattle.std.specs.Prelude.{◌≡◌, ◌<◌, ◌≤◌, ◌^◌, ◌++◌, ◌∷◌};

use crate::load::load_fault::LoadFault;
use crate::load::place::{Part, Place};
use crate::load::reading::{FromRows, read_rows};
use crate::load::row_faults::RowFault;
use crate::load::text_checks::{TextRule, check_pieces};
use crate::reserved::ReservedText;
use crate::tables::disk_path::{DiskPath, FileExtent};
use crate::words::disk_name::{DiskName, is_disk_name};
use memchr::{memchr, memrchr};
use std::alloc::{AllocError, Global};

/// The entries of a path list, in order: where the image of each disk is.
///
/// The form is this project's own: a line `DISK PATH` for each disk, with one space between and a newline at
/// the end. The path is everything after the first space, and may contain spaces. If a path ends with
/// `?offset=BYTES&length=BYTES`, with 1 to 18 digits each, the image is that part of the file named before the `?`.
///
/// Each check runs over the whole text, and the first that finds any fault reports its first line: `NotText` for
/// bytes that aren't UTF-8, or a NUL; `Syntax` for a line that isn't a name, a space and a path, or isn't ended by
/// a newline; `Field` for `offset=` or `length=` after the last `?` in any other form, for a number that isn't a
/// multiple of 512, and for a length of 0; `Name` for an invalid disk name. `Memory`, with number 0, may come at
/// any point if an allocation is refused. A list that names a disk twice, or a disk of no stack, is accepted.
///
/// Takes time linear in the length of the text.
pub fn parse_paths(alloc: Global, text: &[u8]) -> Result<Vec<DiskPath>, LoadFault>
    // An accepted text describes the entries that are returned; for a refused text, the first fault is returned.
    ensures parsed { IsParsed Paths (DescribesPaths text.now) (path_checks text.now) result }
    // The result as a function of the text, unless memory runs out; this follows from `IsParsed`.
    ensures read { Answers Paths (λ v. v.items) result (read_paths text.now) }
{
    if let Err(fault) = check_pieces::<PathText>(alloc, Part::Paths, b'\n', text) {
        return Err(fault);
    }
    read_rows(alloc, Part::Paths, text)
}

/// The rule for the bytes of a path list: UTF-8 without a NUL.
struct PathText;

impl TextRule for PathText {
    ghost is_text = { is_path_text };

    fn is_text(piece: &[u8]) -> bool {
        str::from_utf8(piece).is_ok() && memchr(0, piece).is_none()
    }
}

impl FromRows for DiskPath {
    ghost row_of = { name_and_path };

    ghost is_row = { is_pair };

    ghost has_values = { has_place };

    ghost has_names = { has_name };

    ghost with_row = { λ disks n row. disks ++ option_to_list (path_in n row) };

    fn cut_line<'a>(row: &mut Vec<&'a [u8]>, line: &'a [u8]) -> Result<(), AllocError> {
        let (name, path) = cut_at(b' ', line);
        row.clear();
        row.push(name)?;
        row.push(path)?;
        Ok(())
    }

    fn read_row(
        alloc: Global,
        disks: &mut Vec<DiskPath>,
        row: &[&[u8]],
        number: u64,
    ) -> Result<(), RowFault> {
        disks.push(read_path(alloc, row, number)?)?;
        Ok(())
    }
}

/// The bytes of a text before its first byte `at`, and the bytes after; without an `at`, the whole text and no bytes.
fn cut_at(at: u8, text: &[u8]) -> (&[u8], &[u8])
    ensures { cut_at at text.now ≡ texts (result.0 ∷ result.1 ∷ []) }
{
    match memchr(at, text) {
        Some(end) => {
            let (front, after) = text.split_at(end);
            (front, &after[1..])
        }
        None => (text, &[]),
    }
}

/// The entry that a row describes, as line `number` of the text. Of several faults, `Syntax` takes precedence over
/// `Field`, and `Field` over `Name`.
fn read_path(alloc: Global, row: &[&[u8]], number: u64) -> Result<DiskPath, RowFault>
    ensures { Reads (λ disk. disk) result (path_reading number (texts row.now)) }
{
    let [name, path] = row else {
        return Err(RowFault::Syntax);
    };
    if name.is_empty() || path.is_empty() {
        return Err(RowFault::Syntax);
    }
    let Some((file, extent)) = place_in(*path) else {
        return Err(RowFault::Field);
    };
    if !is_disk_name(*name) {
        return Err(RowFault::Name);
    }
    let at = Place {
        part: Part::Paths,
        number,
    };
    Ok(DiskPath {
        disk: DiskName::of_bytes(alloc, *name)?,
        file: ReservedText::from_string(String::from_str(alloc, file)?),
        extent,
        at,
    })
}

/// The file and the extent that a path names, or `None` if the path isn't valid.
fn place_in(path: &[u8]) -> Option<(&str, FileExtent)>
    ensures { option_map (λ place. (place.0.now, place.1)) result ≡ place_in path.now }
{
    let keys = after_mark(path);
    if keys.len() < path.len() && is_of_part(keys) {
        let file = &path[..path.len() - keys.len() - 1];
        return extent_of(file, extent_in(keys));
    }
    extent_of(path, Some(FileExtent::whole()))
}

/// The path of a file and the extent, or `None` if the path isn't UTF-8 or there is no extent.
fn extent_of(file: &[u8], extent: Option<FileExtent>) -> Option<(&str, FileExtent)>
    ensures { option_map (λ place. (place.0.now, place.1)) result ≡ extent_of file.now extent }
{
    let Ok(file) = str::from_utf8(file) else {
        return None;
    };
    match extent {
        Some(extent) => Some((file, extent)),
        None => None,
    }
}

/// Whether the bytes after a `?` try to name a part of the file: they begin with `offset=` or `length=`.
fn is_of_part(keys: &[u8]) -> bool
    ensures { result ≡ is_of_part keys.now }
{
    keys.starts_with(b"offset=") || keys.starts_with(b"length=")
}

/// The extent that a text of the form `offset=BYTES&length=BYTES` describes, or `None` for any other text.
fn extent_in(keys: &[u8]) -> Option<FileExtent>
    ensures { result ≡ extent_by (cut_at 38 keys.now) }
{
    let (offset, len) = cut_at(b'&', keys);
    let Some(start) = sectors_in(b"offset=", offset) else {
        return None;
    };
    let Some(len) = sectors_in(b"length=", len) else {
        return None;
    };
    if len == 0 {
        return None;
    }
    Some(FileExtent::new(start, len))
}

/// The number of sectors in a text that is the key, such as `offset=`, and a number of bytes.
fn sectors_in(key: &[u8], text: &[u8]) -> Option<u64>
    ensures is { result ≡ sectors_in key.now text.now }
    ensures near { IfSome result (λ sectors. sectors < 2 ^ 51) }
{
    let Some(digits) = text.strip_prefix(key) else {
        return None;
    };
    let Some(bytes) = bytes_in(digits) else {
        return None;
    };
    if bytes % 512 != 0 {
        return None;
    }
    Some(bytes / 512)
}

/// The bytes of a text after its last `?`, or the whole text if there is no `?`.
fn after_mark(text: &[u8]) -> &[u8]
    ensures is { result.now ≡ after_mark text.now }
    ensures short { length result.now ≤ length text.now }
{
    match memrchr(b'?', text) {
        Some(last) => &text[last + 1..],
        None => text,
    }
}

/// The number of bytes that 1 to 18 digits spell.
fn bytes_in(digits: &[u8]) -> Option<u64>
    ensures is { result ≡ bytes_in digits.now }
    ensures near { IfSome result (λ bytes. bytes < 10 ^ 18) }
{
    if digits.is_empty() || digits.len() > 18 {
        return None;
    }
    let mut value = 0u64;
    let mut len = 0;
    while len < digits.len() {
        if !digits[len].is_ascii_digit() {
            return None;
        }
        value = value * 10 + u64::from(digits[len] - b'0');
        len += 1;
    }
    Some(value)
}
