//! Ends of lines: each short length with a newline, made once and then copied whole.
//!
//! Most requests have fewer than 1,000 sectors. Copying the end of a line needs no branch on the number of digits.
//!
//! This table only saves time: RESULTS.md has its gain as *texts kept ready*. Change it only if you measure small
//! requests, and large ones over 16 columns, before and after.

ghost use Rattle.dm_stream.specs.Prelude.{[], decimal, length, IsPut, code, AreMade, IsLineEnd, line_end};
ghost use Rattle.dm_stream.specs.declared.pieces.line_ends.TheConstants.{LENGTHS, LONGEST, END_BYTES};
ghost use Rattle.std.specs.Prelude.{◌≡◌, ◌+◌, ◌++◌, ◌∷◌, ◌<◌, ◌≤◌};

use dm_table::{put_bytes, put_digits};

/// The length of the longest line end: 20 digits and a newline.
const LONGEST: usize = 21;

/// How many lengths have an entry in the table: those from 0 to 999.
const LENGTHS: usize = 1000;

/// The size of a table entry: up to three digits and a newline, and in the last byte how many bytes those are.
const END_BYTES: usize = 8;

/// The line ends for all lengths below 1,000.
#[derive(Drop)]
pub(crate) struct LineEnds {
    ends: [[u8; END_BYTES]; LENGTHS],
    ghost made: { AreMade 1000 ends },
}

impl LineEnds {
    /// Makes the table of line ends.
    pub(crate) fn new() -> LineEnds {
        let mut ends = [[b' '; END_BYTES]; LENGTHS];
        let mut len = 0;
        'lengths: while len < LENGTHS {
            ends[len] = line_end(len);
            len += 1;
        }
        LineEnds { ends }
    }

    /// Puts a length and a newline at offset `at` of a block, and returns the offset after them.
    #[inline(always)]
    pub(crate) fn put_into(&self, block: &mut [u8], at: usize, len: u64) -> usize
        requires { at + LONGEST ≤ length block.old }
        ensures put { IsPut (line_end len) at block.old block.new result }
        ensures few { result ≤ at + LONGEST }
    {
        if len < LENGTHS as u64 {
            return self.put_short(block, at, len);
        }
        let at = put_digits(block, at, len);
        put_bytes(block, at, b"\n")
    }

    /// Puts a length and a space at offset `at` of a block, in the middle of a line. Returns the offset after them.
    #[inline(always)]
    pub(crate) fn put_inside(&self, block: &mut [u8], at: usize, len: u64) -> usize
        requires { at + LONGEST ≤ length block.old }
        ensures put { IsPut (decimal len ++ code " " ∷ []) at block.old block.new result }
        ensures few { result ≤ at + LONGEST }
    {
        let end = self.put_into(block, at, len);
        // The space overwrites the newline.
        put_bytes(block, end - 1, b" ")
    }

    /// Puts a length below 1,000 and a newline, both copied from the table.
    #[inline(always)]
    fn put_short(&self, block: &mut [u8], at: usize, len: u64) -> usize
        requires short { len < LENGTHS }
        requires room { at + END_BYTES ≤ length block.old }
        ensures put { IsPut (line_end len) at block.old block.new result }
        ensures few { result ≤ at + END_BYTES }
    {
        let end = self.ends[len as usize];
        let _whole = put_bytes(block, at, &end);
        at + usize::from(end[END_BYTES - 1])
    }
}

/// The table entry for a length below 1,000: its digits, a newline, and in the last byte how many bytes those are.
fn line_end(len: usize) -> [u8; END_BYTES]
    requires { len < LENGTHS }
    ensures { IsLineEnd len result }
{
    let mut text = [b'\n'; 24];
    let end = put_digits(&mut text, 0, len as u64);
    let end = put_bytes(&mut text, end, b"\n");
    let Some(front) = text.first_chunk::<END_BYTES>() else {
        unreachable!()
    };
    let mut end_of_line = *front;
    end_of_line[END_BYTES - 1] = end as u8;
    end_of_line
}
