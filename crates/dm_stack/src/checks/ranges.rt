//! The checks for lines that name unknown devices or disks, or pass the end of a device or disk that they name.
//!
//! When lines get ids, an unknown name gets an id past the last one. A device ends where its last line does, so
//! the length of a device or a disk takes one look-up. A line's spans are the ranges that it names.

ghost use Rattle.dm_stack.specs.Prelude.{is_past, names_missing};
ghost use Rattle.dm_stack.specs.lines.Span.{passes_end};
ghost use Rattle.std.specs.Prelude.{◌≡◌};

use crate::lines::resolved::Resolved;
use crate::lines::resolved_line::ResolvedLine;
use crate::lines::span::{Span, Spans};

/// Whether a line names a device or a disk that the stack doesn't have.
pub(crate) fn names_missing(stack: &Resolved, line: &ResolvedLine) -> bool
    ensures { result ≡ names_missing stack.now line.now }
{
    for span in Spans::of(line) {
        if stack.is_missing(span.to) {
            return true;
        }
    }
    false
}

/// Whether a line passes the end of a device or a disk that it names.
pub(crate) fn passes_end(stack: &Resolved, line: &ResolvedLine) -> bool
    ensures { result ≡ passes_end stack.now line.now }
{
    for span in Spans::of(line) {
        if is_past(stack, &span) {
            return true;
        }
    }
    false
}

/// Whether a span passes the end of its device or disk, which a span without a length never does.
fn is_past(stack: &Resolved, span: &Span) -> bool
    ensures { result ≡ is_past stack.now span.now }
{
    let end = stack.len_of(span.to);
    match span.len {
        Some(len) => end < span.offset || end - span.offset < len,
        None => false,
    }
}
