//! Reads the lines of a text: collects the values of the text's rows, and the first fault of each kind.
//!
//! The checks of a text are defined as running one after another, so which fault counts is known only at
//! the end of the text; if there is a fault, no values are returned. A type that lines are read into
//! implements `FromRows`, and `read_lines` reads a text into values of that type.

ghost use Rattle.dm_table.specs.Prelude.{ℕ, Bool, List, [], None, Ok, IfOk, OnOk, length, map, texts, lines_of, rest_of, Answers, first_fault, is_printable, row_checks, unless, line_checks, with_rows, Reads, no_faults, noted_rest, noted_rows, row_fault, first_noted};
ghost use Rattle.std.specs.Prelude.{◌≡◌, ◌+◌};

use crate::load::load_fault::LoadFault;
use crate::load::place::Part;
use crate::load::row_faults::{FirstFaults, RowFault};
use crate::load::text_checks::check_text;
use memchr::memchr;
use std::alloc::{AllocError, Global};

/// The values and the faults of the rows read so far. If there is a fault, the values aren't returned.
#[derive(Drop)]
pub(crate) struct Reading<T> {
    pub values: Vec<T>,
    pub faults: FirstFaults,
}

impl<T: Drop> Reading<T> {
    /// A state with no values and no faults.
    pub(crate) fn new(alloc: Global) -> Reading<T>
        ensures values { result.values.items ≡ [] }
        ensures faults { result.faults ≡ no_faults }
    {
        Reading {
            values: Vec::new(alloc),
            faults: FirstFaults::new(),
        }
    }

    /// Returns the values, or the first fault if there is any.
    pub(crate) fn finish(self) -> Result<Vec<T>, LoadFault>
        ensures { result ≡ unless (first_noted self.faults) self.values }
    {
        match self.faults.first() {
            Some(fault) => Err(fault),
            None => Ok(self.values),
        }
    }
}

/// A type that lines of a text are read into, such as a disk from one line, or a device from one or more lines.
pub(crate) trait FromRows: Drop {
    /// The row of fields that a line is cut into.
    ghost row_of: { List ℕ → List (List ℕ) };

    /// Whether fields have the form of a row; if not, the fault is `Syntax`.
    ghost is_row: { List (List ℕ) → Bool };

    /// Whether the values in a row are valid; if not, the fault is `Field`.
    ghost has_values: { List (List ℕ) → Bool };

    /// Whether the names in a row are valid; if not, the fault is `Name`.
    ghost has_names: { List (List ℕ) → Bool };

    /// The list of values after one more row, from the row's number and its fields; the row has no fault.
    ghost with_row: { List Self → ℕ → List (List ℕ) → List Self };

    /// Cuts a line into its fields, which replace the fields of the previous line, so that one vector serves
    /// all lines.
    fn cut_line<'a>(row: &mut Vec<&'a [u8]>, line: &'a [u8]) -> Result<(), AllocError>
        ensures { OnOk result (texts row.new.items ≡ row_of line.now) };

    /// Adds what row `number` of a text describes to the values of the rows before that row. After a fault, the
    /// values may be anything.
    fn read_row(
        alloc: Global,
        values: &mut Vec<Self>,
        row: &[&[u8]],
        number: u64,
    ) -> Result<(), RowFault>
        ensures values { OnOk result (values.new.items ≡ with_row values.old.items number (texts row.now)) }
        ensures fault { Reads (λ done. done) result
            (unless (row_fault is_row has_values has_names (texts row.now)) tt) };
}

/// The values that the lines of a text describe, or the first fault of the first check that finds any. Makes
/// one pass to check the bytes and one to read the lines.
pub(crate) fn read_lines<T: FromRows>(
    alloc: Global,
    part: Part,
    text: &[u8],
) -> Result<Vec<T>, LoadFault>
    ensures { Answers part (λ v. v.items) result
        (unless (first_fault (line_checks is_printable part T.row_of T.is_row T.has_values T.has_names text.now))
        (with_rows T.with_row [] 1 (map T.row_of (lines_of text.now)))) }
{
    if let Err(fault) = check_text(alloc, part, b'\n', text) {
        return Err(fault);
    }
    read_rows(alloc, part, text)
}

/// The values that the lines of a text describe, or the first fault of the first row check that finds any. The
/// bytes of the text must have been checked before. Makes one pass.
pub(crate) fn read_rows<T: FromRows>(
    alloc: Global,
    part: Part,
    text: &[u8],
) -> Result<Vec<T>, LoadFault>
    ensures { Answers part (λ v. v.items) result
        (unless (first_fault (row_checks part T.is_row T.has_values T.has_names
        (map T.row_of (lines_of text.now)) (rest_of text.now)))
        (with_rows T.with_row [] 1 (map T.row_of (lines_of text.now)))) }
{
    match read_each::<T>(alloc, part, text) {
        Ok(reading) => reading.finish(),
        Err(_) => Err(LoadFault::memory(part)),
    }
}

/// Reads each complete line in place, with one vector of fields for all lines, and keeps a `Syntax` fault if
/// an unterminated line follows.
fn read_each<T: FromRows>(alloc: Global, part: Part, text: &[u8]) -> Result<Reading<T>, AllocError>
    ensures values { IfOk result (λ reading. first_noted reading.faults ≡ None
        → reading.values.items ≡ with_rows T.with_row [] 1 (map T.row_of (lines_of text.now))) }
    ensures faults { IfOk result (λ reading. reading.faults ≡ noted_rest part
        (noted_rows part (row_fault T.is_row T.has_values T.has_names) no_faults 1
        (map T.row_of (lines_of text.now))) (length (lines_of text.now) + 1) (rest_of text.now)) }
{
    let mut reading = Reading::new(alloc);
    let mut row = Vec::new(alloc);
    let mut number = 1u64;
    let mut rest = text;
    while let Some(end) = memchr(b'\n', rest) {
        let (line, after) = rest.split_at(end);
        T::cut_line(&mut row, line)?;
        let read = T::read_row(alloc, &mut reading.values, &row, number);
        reading.faults.note(part, number, read)?;
        number += 1;
        rest = &after[1..];
    }
    reading.faults.note_rest(part, number, rest);
    Ok(reading)
}
