//! Compares short texts without a loop.
//!
//! Texts of unknown length are compared in a loop, but texts of a known length in an instruction or two. Most
//! names are so short that their first and their last bytes, which may overlap, cover the whole name.
//!
//! This module is for speed alone: RESULTS.md has its gain as *short names compared at once*. It relies on the
//! compiler to compare arrays of a known length in an instruction or two. Change it only if you measure small
//! requests and loads by names before and after.

ghost use Rattle.dm_table.specs.Prelude.{length, OnTrue, OnFalse};
ghost use Rattle.std.specs.Prelude.{◌≡◌, ◌≢◌, ◌*◌, ◌≤◌};

use crate::words::array::as_array;

/// Whether two texts are equal. Fastest for texts of up to 16 bytes.
#[inline(always)]
pub fn are_same(left: &[u8], right: &[u8]) -> bool
    ensures same { OnTrue result (left.now ≡ right.now) }
    ensures other { OnFalse result (left.now ≢ right.now) }
{
    let len = left.len();
    if len != right.len() {
        return false;
    }
    if len < 4 {
        return match len {
            0 => true,
            1 => known_same::<1>(left, right),
            _ => ends_same::<2>(left, right),
        };
    }
    if len <= 8 {
        return ends_same::<4>(left, right);
    }
    if len <= 16 {
        return ends_same::<8>(left, right);
    }
    left == right
}

/// Whether two texts of equal length are equal, by comparing their first and their last `LEN` bytes, which
/// together cover all of each text. Both comparisons always run, because a jump would cost more.
#[inline(always)]
fn ends_same<const LEN: usize>(left: &[u8], right: &[u8]) -> bool
    requires sizes { length left.now ≡ length right.now }
    requires enough { LEN ≤ length left.now }
    requires all { length left.now ≤ 2 * LEN }
    ensures same { OnTrue result (left.now ≡ right.now) }
    ensures other { OnFalse result (left.now ≢ right.now) }
{
    let from = left.len() - LEN;
    let fronts = known_same::<LEN>(&left[..LEN], &right[..LEN]);
    let ends = known_same::<LEN>(&left[from..], &right[from..]);
    fronts & ends
}

/// Whether two texts of `LEN` bytes, a length known at compile time, are equal.
#[inline(always)]
fn known_same<const LEN: usize>(left: &[u8], right: &[u8]) -> bool
    requires left { length left.now ≡ LEN }
    requires right { length right.now ≡ LEN }
    ensures same { OnTrue result (left.now ≡ right.now) }
    ensures other { OnFalse result (left.now ≢ right.now) }
{
    *as_array::<LEN>(left) == *as_array::<LEN>(right)
}
