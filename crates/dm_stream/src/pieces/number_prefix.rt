//! The prefix of each line of a request: the request's number and a space.
//!
//! Request numbers mostly rise by one, so often only the last digit is overwritten. The array is copied whole.
//!
//! This module only saves time: RESULTS.md has its gain as *texts kept ready*. It relies on the array always holding
//! the text of its number. Change it only if you measure small requests before and after.

ghost use Rattle.dm_stream.specs.Prelude.{length, take, IsPut, number_prefix};
ghost use Rattle.std.specs.Prelude.{◌≡◌, ◌+◌, ◌≤◌};

use dm_table::{put_array, put_bytes, put_digits};
use std::marker::Model;

/// The length of the array: a number of 20 digits, a space, and padding that makes the copy cheap.
pub(crate) const PREFIX_BYTES: usize = 32;

/// A request's number and a space as text, at the front of an array.
#[derive(Drop)]
pub(crate) struct NumberPrefix {
    number: u64,
    /// The number with its last digit replaced by 0.
    tens: u64,
    text: [u8; PREFIX_BYTES],
    /// The offset after the text, which is two more than the offset of the last digit.
    end: usize,
}

impl Model for NumberPrefix {
    ghost use Rattle.dm_stream.specs.Base.{ℕ, take};
    ghost use Rattle.dm_stream.specs.pieces.NumberPrefix.{number_prefix};
    ghost use Rattle.std.specs.Prelude.{◌≡◌, ◌+◌, ◌%◌, ◌≤◌};

    ghost Value = { ℕ };

    ghost view = { λ prefix. prefix.number };

    ghost invariant = { λ prefix. (prefix.tens + prefix.number % 10 ≡ prefix.number)
        × (2 ≤ prefix.end)
        × (prefix.end ≤ 32)
        × (take prefix.end prefix.text ≡ number_prefix prefix.number) };
}

impl NumberPrefix {
    /// The prefix for the number 0.
    pub(crate) fn new() -> NumberPrefix
        ensures { result ≡ 0 }
    {
        let mut text = [b' '; PREFIX_BYTES];
        let end = put_prefix(&mut text, 0);
        NumberPrefix {
            number: 0,
            tens: 0,
            text,
            end,
        }
    }

    /// Changes the prefix to that of `number`.
    #[inline(always)]
    pub(crate) fn set(&mut self, number: u64)
        ensures { self.new ≡ number }
    {
        if self.tens <= number && number - self.tens < 10 {
            self.text[self.end - 2] = b'0' + (number - self.tens) as u8;
        } else {
            self.end = put_prefix(&mut self.text, number);
            self.tens = number - number % 10;
        }
        self.number = number;
    }

    /// Puts the number and a space at offset `at` of a block, and returns the offset after them.
    #[inline(always)]
    pub(crate) fn put_into(&self, block: &mut [u8], at: usize) -> usize
        requires { at + PREFIX_BYTES ≤ length block.old }
        ensures put { IsPut (number_prefix self.now) at block.old block.new result }
        ensures some { at + 2 ≤ result }
        ensures few { result ≤ at + PREFIX_BYTES }
    {
        put_array(block, at, &self.text, self.end)
    }
}

/// Puts a number and a space at the front of an array, and returns the offset after them.
#[cold]
#[inline(never)]
fn put_prefix(text: &mut [u8], number: u64) -> usize
    requires { length text.old ≡ PREFIX_BYTES }
    ensures some { 2 ≤ result }
    ensures within { result ≤ PREFIX_BYTES }
    ensures text { take result text.new ≡ number_prefix number }
{
    let end = put_digits(text, 0, number);
    put_bytes(text, end, b" ")
}
