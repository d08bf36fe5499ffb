//! Numbers in texts: `0`, or a digit 1 to 9 and at most 18 digits after it.
//!
//! Tables and requests share this one form of numbers, so that a number is written back byte for byte as it was read.
//! To accept more digits, change `specs/words/Number.antt`, and make sure that the value still fits a `u64`.

ghost use Rattle.dm_table.specs.Prelude.{is_some, length, Some, None, IfSome, IfNone, IsTrue, take, prefix_len, is_ascii_digit, number_of, number_in};
ghost use Rattle.std.specs.Prelude.{◌≡◌, ◌<◌, ◌≤◌};

/// The number that a text spells, or `None` if it spells none. One pass.
pub(crate) fn number(text: &[u8]) -> Option<u64>
    ensures { result ≡ number_of text.now }
{
    let (number, len) = leading(text)?;
    if len == text.len() {
        Some(number)
    } else {
        None
    }
}

/// The number that the digits at the front of a text spell, and how many digits there are; `None` if they
/// don't spell a number. The number is below 10^19, and so fits 64 bits.
#[inline(always)]
pub(crate) fn leading(text: &[u8]) -> Option<(u64, usize)>
    ensures len { IfSome result (λ read. read.1 ≡ prefix_len is_ascii_digit text.now) }
    ensures number { IfSome result (λ read. number_of (take read.1 text.now) ≡ Some read.0) }
    ensures other { IfNone result (number_of (take (prefix_len is_ascii_digit text.now) text.now) ≡ None) }
{
    let mut value = 0u64;
    let mut len = 0;
    while len < text.len() && text[len].is_ascii_digit() {
        if len == 19 {
            return None;
        }
        value = value * 10 + u64::from(text[len] - b'0');
        len += 1;
    }
    if len == 0 || (text[0] == b'0' && len != 1) {
        return None;
    }
    Some((value, len))
}

/// The number that a field spells; the field must be known to spell one.
pub(crate) fn number_in(field: &[u8]) -> u64
    requires { IsTrue (is_some (number_of field.now)) }
    ensures { result ≡ number_in field.now }
{
    number(field).unwrap()
}
