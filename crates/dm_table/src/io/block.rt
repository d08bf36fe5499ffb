//! Functions that copy the parts of a text into a block of bytes, one part after the other.
//!
//! Each contract says what the block contains up to the end of the part, so that the contracts for the parts
//! of a line combine. The bytes after the end may be anything: an array of a fixed size is copied whole, even
//! the bytes after its text, because a copy of a known size is the cheapest.
//!
//! Copies of a fixed size, and the free space after a text that they need, are used for speed alone: RESULTS.md
//! has their gain as *texts kept ready*. Each `requires` asks for that space; `TEXT_ROOM` bytes are always enough.
//! Change these copies only if you measure small requests, and large requests over 16 columns, before and after.

ghost use Rattle.dm_table.specs.Prelude.{length, take, drop, decimal, IsPut};
ghost use Rattle.std.specs.Prelude.{◌≡◌, ◌++◌, ◌+◌, ◌≤◌};

use crate::words::array::as_array;
use crate::words::number_text::MOST_DIGITS;

/// Copies bytes into a block at offset `at`.
#[inline(always)]
fn copy_to(block: &mut [u8], at: usize, bytes: &[u8])
    requires within { at + length bytes.now ≤ length block.old }
    ensures before { take at block.new ≡ take at block.old }
    ensures bytes { drop at block.new ≡ bytes.now ++ drop (at + length bytes.now) block.old }
{
    block[at..at + bytes.len()].copy_from_slice(bytes);
}

/// Sets a slice to an array of the same length in one assignment. A copy from slice to slice would first check
/// whether they overlap.
#[inline(always)]
fn set_array<const LEN: usize>(place: &mut [u8], array: &[u8; LEN])
    requires { length place.old ≡ LEN }
    ensures { place.new ≡ array.now }
{
    let Some(whole) = place.first_chunk_mut::<LEN>() else {
        unreachable!()
    };
    *whole = *array;
}

/// Copies an array, whose first `len` bytes are a text, into a block at offset `at`; returns the offset after the text.
///
/// The array is copied 16 bytes at a time, and each 16 bytes are read before they are written. An array that is
/// copied as one value would first be stored on the stack when this function is inlined into a long one.
#[inline(always)]
pub fn put_array<const LEN: usize>(
    block: &mut [u8],
    at: usize,
    array: &[u8; LEN],
    len: usize,
) -> usize
    requires within { at + LEN ≤ length block.old }
    requires text { len ≤ LEN }
    ensures end { result ≡ at + len }
    ensures put { IsPut (take len array.now) at block.old block.new result }
{
    let bytes = array.as_slice();
    let mut done = 0;
    'sixteens: while LEN - done >= 16 {
        let first = *as_array::<8>(&bytes[done..done + 8]);
        let second = *as_array::<8>(&bytes[done + 8..done + 16]);
        let middle = put_known::<8>(block, at + done, &first);
        let _end = put_known::<8>(block, middle, &second);
        done += 16;
    }
    let _end = put_any(block, at + done, &bytes[done..LEN]);
    at + len
}

/// Copies bytes into a block at offset `at`, and returns the offset after them.
///
/// Most disk names are short, so lengths up to 8 are copied in a way of their own, with a few instructions
/// instead of a call.
#[inline(always)]
pub fn put_bytes(block: &mut [u8], at: usize, bytes: &[u8]) -> usize
    requires { at + length bytes.now ≤ length block.old }
    ensures { IsPut bytes.now at block.old block.new result }
{
    match bytes.len() {
        1 => put_known::<1>(block, at, bytes),
        2 => put_known::<2>(block, at, bytes),
        3 => put_known::<3>(block, at, bytes),
        4 => put_known::<4>(block, at, bytes),
        5 => put_known::<5>(block, at, bytes),
        6 => put_known::<6>(block, at, bytes),
        7 => put_known::<7>(block, at, bytes),
        8 => put_known::<8>(block, at, bytes),
        _ => put_any(block, at, bytes),
    }
}

/// Copies `LEN` bytes, a length known at compile time, into a block at offset `at`; returns the offset after them.
#[tactic(auto, using(crate::proofs::io::BlockLemmas::bytes_front))]
#[inline(always)]
fn put_known<const LEN: usize>(block: &mut [u8], at: usize, bytes: &[u8]) -> usize
    requires known { length bytes.now ≡ LEN }
    requires within { at + length bytes.now ≤ length block.old }
    ensures { IsPut bytes.now at block.old block.new result }
{
    set_array(&mut block[at..at + LEN], as_array::<LEN>(bytes));
    at + bytes.len()
}

/// Copies bytes of any length into a block at offset `at`; returns the offset after them.
#[tactic(auto, using(crate::proofs::io::BlockLemmas::bytes_front))]
#[inline(always)]
fn put_any(block: &mut [u8], at: usize, bytes: &[u8]) -> usize
    requires { at + length bytes.now ≤ length block.old }
    ensures { IsPut bytes.now at block.old block.new result }
{
    copy_to(block, at, bytes);
    at + bytes.len()
}

/// Writes a number in decimal into a block at offset `at`, and returns the offset after its last digit.
///
/// The digits are counted first, so that each digit is written directly at its final offset.
#[inline(always)]
pub fn put_digits(block: &mut [u8], at: usize, number: u64) -> usize
    requires { at + MOST_DIGITS ≤ length block.old }
    ensures put { IsPut (decimal number) at block.old block.new result }
    ensures few { result ≤ at + MOST_DIGITS }
{
    let end = at + count_digits(number);
    let _start = itoa::write_digits(number, block, end);
    end
}

/// How many decimal digits a number has.
#[inline(always)]
fn count_digits(number: u64) -> usize
    ensures { result ≡ length (decimal number) }
{
    match number.checked_ilog10() {
        Some(power) => power as usize + 1,
        None => 1,
    }
}
