//! Cuts texts at a byte: lines into fields at spaces, the concise form into devices at semicolons.
//!
//! A text is cut once, and all checks use the parts, which borrow from the text. A form of text with another
//! separator calls `cut` too.
//!
//! For speed alone, `marks` finds the separators of short texts; `cut_searched` could cut texts of any length.

ghost use Rattle.dm_table.specs.Prelude.{IfOk, OnOk, length, ends_empty, parts_at, row_fields, texts, marks_of};
ghost use Rattle.std.specs.Prelude.{◌≡◌, ◌++◌, ◌≤◌};

use crate::words::marks::marks;
use memchr::memchr;
use std::alloc::{AllocError, Global};

/// The parts of a text that bytes equal to `at` separate. One pass over the text.
pub(crate) fn cut<'a>(alloc: Global, at: u8, text: &'a [u8]) -> Result<Vec<&'a [u8]>, AllocError>
    ensures { IfOk result (λ v. texts v.items ≡ parts_at at text.now) }
{
    let mut parts = Vec::new(alloc);
    cut_into(&mut parts, at, text)?;
    Ok(parts)
}

/// Replaces the contents of `parts` with the parts of a text, so that one vector serves many texts.
pub(crate) fn cut_into<'a>(
    parts: &mut Vec<&'a [u8]>,
    at: u8,
    text: &'a [u8],
) -> Result<(), AllocError>
    ensures { OnOk result (texts parts.new.items ≡ parts_at at text.now) }
{
    parts.clear();
    // In a short text, a search for each separator would cost more than handling the parts.
    match marks(at, text) {
        Some(marks) => cut_marked(parts, at, text, marks),
        None => cut_searched(parts, at, text),
    }
}

/// Appends the parts of a text, given its separators as `marks`, one bit for each byte of the text.
fn cut_marked<'a>(
    parts: &mut Vec<&'a [u8]>,
    _at: u8,
    text: &'a [u8],
    marks: u64,
) -> Result<(), AllocError>
    requires marks { marks ≡ marks_of _at text.now }
    requires short { length text.now ≤ 64 }
    ensures { OnOk result (texts parts.new.items ≡ texts parts.old.items ++ parts_at _at text.now) }
{
    let mut left = marks;
    let mut rest = text;
    while left != 0 {
        let end = left.trailing_zeros() as usize;
        let (part, after) = rest.split_at(end);
        parts.push(part)?;
        rest = &after[1..];
        left = (left >> end) >> 1;
    }
    parts.push(rest)?;
    Ok(())
}

/// Appends the parts of a text, finding each separator with a search.
fn cut_searched<'a>(parts: &mut Vec<&'a [u8]>, at: u8, text: &'a [u8]) -> Result<(), AllocError>
    ensures { OnOk result (texts parts.new.items ≡ texts parts.old.items ++ parts_at at text.now) }
{
    let mut rest = text;
    while let Some(end) = memchr(at, rest) {
        let (part, after) = rest.split_at(end);
        parts.push(part)?;
        rest = &after[1..];
    }
    parts.push(rest)?;
    Ok(())
}

/// Replaces the contents of `fields` with the fields of a line, without the empty last field that comes from
/// a space at the end of the line. One pass.
pub(crate) fn cut_row<'a>(fields: &mut Vec<&'a [u8]>, line: &'a [u8]) -> Result<(), AllocError>
    ensures { OnOk result (texts fields.new.items ≡ row_fields line.now) }
{
    cut_into(&mut *fields, b' ', line)?;
    if ends_empty(&*fields) {
        let _ = fields.pop();
    }
    Ok(())
}

/// Whether there is a last field and it is empty.
fn ends_empty(fields: &[&[u8]]) -> bool
    ensures { result ≡ ends_empty (texts fields.now) }
{
    match fields {
        [.., last] => last.is_empty(),
        [] => false,
    }
}
