//! Reads a number at the front of a longer text: all its digits are counted and converted at once.
//!
//! The end of the number isn't searched digit by digit, because a processor would predict few of the jumps
//! right. Sixteen bytes are read at once; a number of sixteen digits or more is left to `number`.
//!
//! This module is for speed alone; its gain is a part of *requests read where they stand* in RESULTS.md. The text
//! must have sixteen bytes, whatever they are. Change this module only if you measure small requests.

ghost use Rattle.dm_table.specs.Prelude.{IfSome, Some, get_or, length, map, take, number_from_digits, number_of};
ghost use Rattle.dm_table.specs.declared.words.front_digits.TheConstants.{FRONT};
ghost use Rattle.std.specs.Prelude.{◌≡◌, ◌+◌, ◌%◌, ◌<◌, ◌≤◌, ◌^◌};
ghost use lib.Lanes.{Each1};

use crate::words::array::as_array;
use std::simd::prelude::*;

/// How many bytes are read at once.
pub(crate) const FRONT: usize = 16;

/// The number that the digits at the front of a text spell, and how many digits the number has. `None` if there
/// is no number, or if it has sixteen digits or more.
#[inline(always)]
pub(crate) fn read_front(text: &[u8]) -> Option<(u64, usize)>
    requires { FRONT ≤ length text.now }
    ensures within { IfSome result (λ read. read.1 < FRONT) }
    ensures number { IfSome result (λ read. number_of (take read.1 text.now) ≡ Some read.0) }
{
    let front = as_array::<FRONT>(&text[..FRONT]);
    let digits = less_zero(front);
    let len = digits_ahead(digits)?;
    if len == 0 || (front[0] == b'0' && len != 1) {
        return None;
    }
    Some((number_ahead(&digits.to_array(), len), len))
}

/// Each byte of a text minus the character `0`, modulo 256: below 10 exactly for digits.
#[inline(always)]
fn less_zero(text: &[u8; FRONT]) -> u8x16
    ensures { result ≡ map (λ byte. (byte + 208) % 256) text.now }
{
    u8x16::from_array(*text) - u8x16::splat(b'0')
}

/// How many bytes come before the first byte that is 10 or more, or `None` if all bytes are below 10.
#[inline(always)]
fn digits_ahead(digits: u8x16) -> Option<usize>
    requires { length digits ≡ 16 }
    ensures within { IfSome result (λ len. len < FRONT) }
    ensures digits { IfSome result (λ len. Each1 (λ digit. digit < 10) (take len digits)) }
{
    let others = digits.simd_gt(u8x16::splat(9)).to_bitmask();
    if others == 0 {
        return None;
    }
    Some(others.trailing_zeros() as usize)
}

/// The number that the first `len` digits spell.
#[inline(always)]
fn number_ahead(digits: &[u8; FRONT], len: usize) -> u64
    requires some { 1 ≤ len }
    requires within { len < FRONT }
    requires digits { Each1 (λ digit. digit < 10) (take len digits.now) }
    ensures { result ≡ number_from_digits 10 (take len digits.now) }
{
    let first = as_array::<8>(&digits[..8]);
    if len <= 8 {
        return number_in_word(first, len);
    }
    let more = len - 8;
    let last = as_array::<8>(&digits[8..FRONT]);
    number_in_word(first, 8) * POWERS[more] + number_in_word(last, more)
}

/// The powers of ten up to 10^7.
static POWERS: [u64; 8] = [1, 10, 100, 1_000, 10_000, 100_000, 1_000_000, 10_000_000];

/// A mask for the lowest byte of each half of a word.
const FIRST_OF_FOURS: u64 = 0x0000_00FF_0000_00FF;

/// The number that the first `len` of eight digits spell.
///
/// The digits are shifted to the high end of a word, so that zeros come before them. Then every second byte
/// gets the value of two digits, and two multiplications weigh and add the four pairs.
#[inline(always)]
fn number_in_word(digits: &[u8; 8], len: usize) -> u64
    requires some { 1 ≤ len }
    requires within { len ≤ 8 }
    requires digits { Each1 (λ digit. digit < 10) (take len digits.now) }
    ensures number { result ≡ number_from_digits 10 (take len digits.now) }
    ensures below { result < 10 ^ len }
{
    let word = u64::from_le_bytes(*digits) << (64 - 8 * len);
    let pairs = word.wrapping_mul(10).wrapping_add(word >> 8);
    let first = (pairs & FIRST_OF_FOURS).wrapping_mul(0x000F_4240_0000_0064);
    let last = ((pairs >> 16) & FIRST_OF_FOURS).wrapping_mul(0x0000_2710_0000_0001);
    first.wrapping_add(last) >> 32
}
