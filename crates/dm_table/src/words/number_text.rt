//! Texts of a fixed capacity, built without allocating.
//!
//! Lines and messages have a greatest length, so a buffer on the stack can hold any of them. Callers prove
//! that there is room, so that no text is ever cut off.

ghost use Rattle.dm_table.specs.Prelude.{length, decimal};
ghost use Rattle.std.specs.Prelude.{◌≡◌, ◌++◌, ◌+◌, ◌≤◌};

use arrayvec::ArrayVec;

/// The most decimal digits of a 64-bit number.
pub(crate) const MOST_DIGITS: usize = 20;

/// Appends bytes to a text, which must have room for them.
pub fn append<const CAPACITY: usize>(text: &mut ArrayVec<u8, CAPACITY>, bytes: &[u8])
    requires { length text.old.items + length bytes.now ≤ CAPACITY }
    ensures text { text.new.items ≡ text.old.items ++ bytes.now }
    ensures len { length text.new.items ≡ length text.old.items + length bytes.now }
{
    let Ok(()) = text.try_extend_from_slice(bytes) else {
        unreachable!()
    };
}

/// Appends a number in decimal to a text, which must have room for the longest number.
pub fn append_number<const CAPACITY: usize>(text: &mut ArrayVec<u8, CAPACITY>, number: u64)
    requires { length text.old.items + MOST_DIGITS ≤ CAPACITY }
    ensures text { text.new.items ≡ text.old.items ++ decimal number }
    ensures len { length text.new.items ≤ length text.old.items + MOST_DIGITS }
{
    let mut buffer = itoa::Buffer::new();
    append(text, buffer.format(number).as_bytes());
}
