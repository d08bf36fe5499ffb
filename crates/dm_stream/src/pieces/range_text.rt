//! The range that ends a line: a start, a length and a newline.
//!
//! Requests over many columns repeat a range once for each column. The text of a range is kept when the range comes
//! for the second time, and then copied whole; after a repeated range, the next one is kept at once. Any other range
//! is written digit by digit, except that a short length is copied with its newline.
//!
//! This module only saves time: RESULTS.md has its gain as *the kept text of a range*. `note` must be called before
//! each line. Change the module only if you measure large requests over 16 columns, and others that never repeat a
//! range, before and after.

ghost use Rattle.dm_stream.specs.Prelude.{ℕ, length, IsPut, range_text, IsKept};
ghost use Rattle.std.specs.Prelude.{◌≡◌, ◌+◌, ◌≤◌};

use crate::pieces::line_ends::LineEnds;
use dm_table::{put_array, put_bytes, put_digits};
use std::marker::Model;

/// The length of the array: two numbers, a space, a newline, and padding that makes the copy cheap.
const RANGE_BYTES: usize = 48;

/// The range of the last line, and its text if the range was repeated or will probably be.
#[derive(Drop)]
pub(crate) struct RangeText {
    start: u64,
    len: u64,
    text: [u8; RANGE_BYTES],
    /// The offset after the text, or 0 if no text is kept.
    end: usize,
    /// Whether the last two lines had this same range.
    came_again: bool,
}

impl Model for RangeText {
    ghost use Rattle.dm_stream.specs.Base.{ℕ, List, take};
    ghost use Rattle.dm_stream.specs.pieces.RangeText.{range_text};
    ghost use Rattle.std.specs.Prelude.{◌≡◌, ◌<◌, ◌≤◌};

    ghost Value = { List ℕ };

    ghost view = { λ range. take range.end range.text };

    ghost invariant = { λ range. (range.end ≤ 48)
        × (0 < range.end → take range.end range.text ≡ range_text range.start range.len) };
}

impl RangeText {
    /// A `RangeText` without a range and without a text.
    #[inline(always)]
    pub(crate) fn new() -> RangeText
        ensures kept { (start len : ℕ) → IsKept result start len }
    {
        RangeText {
            start: 0,
            len: 0,
            text: [b' '; RANGE_BYTES],
            end: 0,
            came_again: false,
        }
    }

    /// Notes the range of the next line. Keeps the text of this range if the previous line had the same range, or if
    /// the previous range was repeated; otherwise keeps no text.
    #[inline(always)]
    pub(crate) fn note(&mut self, start: u64, len: u64)
        ensures kept { IsKept self.new start len }
    {
        if self.start == start && self.len == len {
            self.came_again = true;
            if self.end == 0 {
                self.keep(start, len);
            }
        } else if self.came_again {
            self.came_again = false;
            self.keep(start, len);
        } else {
            self.start = start;
            self.len = len;
            self.end = 0;
        }
    }

    /// Keeps the text of a range. Never inlined, because calls are rare.
    #[inline(never)]
    fn keep(&mut self, start: u64, len: u64)
        ensures { self.new ≡ range_text start len }
    {
        self.start = start;
        self.len = len;
        self.end = put_range(&mut self.text, 0, start, len);
    }

    /// Puts a range at offset `at` of a block; returns the offset after it. A kept text is that of this range.
    #[inline(always)]
    pub(crate) fn put_into(
        &self,
        ends: &LineEnds,
        block: &mut [u8],
        at: usize,
        start: u64,
        len: u64,
    ) -> usize
        requires room { at + RANGE_BYTES ≤ length block.old }
        requires kept { IsKept self.now start len }
        ensures put { IsPut (range_text start len) at block.old block.new result }
        ensures few { result ≤ at + RANGE_BYTES }
    {
        if self.end > 0 {
            return put_array(block, at, &self.text, self.end);
        }
        put_next_range(ends, block, at, start, len)
    }
}

/// Puts a start, a length and a newline at offset `at` of a block, and returns the offset after them. A short length
/// is copied from `ends` with its newline.
#[inline(never)]
fn put_next_range(ends: &LineEnds, block: &mut [u8], at: usize, start: u64, len: u64) -> usize
    requires { at + RANGE_BYTES ≤ length block.old }
    ensures put { IsPut (range_text start len) at block.old block.new result }
    ensures few { result ≤ at + 43 }
{
    let at = put_digits(block, at, start);
    let at = put_bytes(block, at, b" ");
    ends.put_into(block, at, len)
}

/// Puts a start, a length and a newline at offset `at` of a block, all digit by digit. Returns the offset after them.
#[inline(never)]
fn put_range(block: &mut [u8], at: usize, start: u64, len: u64) -> usize
    requires { at + RANGE_BYTES ≤ length block.old }
    ensures put { IsPut (range_text start len) at block.old block.new result }
    ensures few { result ≤ at + 43 }
{
    let at = put_digits(block, at, start);
    let at = put_bytes(block, at, b" ");
    let at = put_digits(block, at, len);
    put_bytes(block, at, b"\n")
}
