//! Finds all positions of a byte in a short text at once, as bits of a number: bit 0 is the first byte.
//!
//! A text is read as two blocks, one at its front and one at its end, which may overlap, and never past its end.
//!
//! This module is for speed alone: RESULTS.md has its gain as *lines made in place, fields found together*. It is for
//! texts of 8 to 64 bytes, one bit for each byte. Change it only if you measure loads of long tables.

ghost use Rattle.dm_table.specs.Prelude.{Bool, List, IfNone, IfSome, drop, length, nat_lt, take, true, marks_of};
ghost use Rattle.std.specs.Prelude.{◌≡◌, ◌-◌, ◌*◌, ◌<◌, ◌≤◌, ◌||◌};
ghost use lib.Lanes.{mask_l};

use crate::words::array::as_array;
use std::simd::prelude::*;

/// The positions of the byte `of` in a text of 8 to 64 bytes, one bit per byte; `None` for other lengths.
#[inline(always)]
pub(crate) fn marks(of: u8, text: &[u8]) -> Option<u64>
    ensures marks { IfSome result (λ marks. marks ≡ marks_of of text.now) }
    ensures short { IfSome result (λ marks. length text.now ≤ 64) }
    ensures none { IfNone result ((nat_lt (length text.now) 8 || nat_lt 64 (length text.now)) ≡ true) }
{
    let len = text.len();
    if len < 8 || 64 < len {
        None
    } else if len < 16 {
        let first = marks_of::<8>(of, &text[..8]);
        Some(joined::<8>(first, marks_of::<8>(of, &text[len - 8..]), len))
    } else if len < 32 {
        let first = marks_of::<16>(of, &text[..16]);
        Some(joined::<16>(first, marks_of::<16>(of, &text[len - 16..]), len))
    } else {
        let first = marks_of::<32>(of, &text[..32]);
        Some(joined::<32>(first, marks_of::<32>(of, &text[len - 32..]), len))
    }
}

/// The positions of a byte in a text of `len` bytes, from those in its first and in its last `HALF` bytes.
#[inline(always)]
fn joined<const HALF: usize>(first: u64, last: u64, len: usize) -> u64
    requires half { HALF ≤ 32 }
    requires enough { HALF ≤ len }
    requires all { len ≤ 2 * HALF }
    ensures { (marks : List Bool) → length marks ≡ len → first ≡ mask_l (take HALF marks)
        → last ≡ mask_l (drop (len - HALF) marks) → result ≡ mask_l marks }
{
    ((last >> (2 * HALF - len)) << HALF) | first
}

/// The positions of the byte `of` in a text of `LEN` bytes, one bit per byte.
#[inline(always)]
fn marks_of<const LEN: usize>(of: u8, text: &[u8]) -> u64
    requires length { length text.now ≡ LEN }
    requires few { LEN ≤ 64 }
    ensures { result ≡ marks_of of text.now }
{
    Simd::<u8, LEN>::from_array(*as_array::<LEN>(text))
        .simd_eq(Simd::splat(of))
        .to_bitmask()
}
