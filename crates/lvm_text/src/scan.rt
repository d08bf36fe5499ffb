//! Finds where a comment, a word or a string in a text ends.
//! Each byte is read only once, because a text may be one long word. A new kind of token needs a function in this
//! module that finds its length.

ghost use Rattle.lvm_text.specs.Prelude.{None, is_none, is_white, is_word_byte, is_end, newline_at, leading_word_bytes, raw_length, is_escape};
ghost use Rattle.std.specs.Prelude.{◌≡◌};

use memchr::{memchr, memchr3};

/// Whether a byte is whitespace: a space, a tab or a newline.
pub(crate) fn is_white(byte: u8) -> bool
    ensures { result ≡ is_white byte }
{
    byte == b' ' || byte == b'\t' || byte == b'\n'
}

/// Whether a byte may occur in a word.
pub(crate) fn is_word_byte(byte: u8) -> bool
    ensures { result ≡ is_word_byte byte }
{
    byte.is_ascii_alphanumeric() || matches!(byte, b'_' | b'+' | b'.' | b'-')
}

/// How many bytes come before the first newline, or `None` if there is none.
pub(crate) fn newline_at(bytes: &[u8]) -> Option<usize>
    ensures { result ≡ newline_at bytes.now }
{
    memchr(b'\n', bytes)
}

/// How many bytes at the front of a text may occur in a word.
pub(crate) fn leading_word_bytes(bytes: &[u8]) -> usize
    ensures { result ≡ leading_word_bytes bytes.now }
{
    for (i, byte) in bytes.iter().enumerate() {
        if !is_word_byte(*byte) {
            return i;
        }
    }
    bytes.len()
}

/// Whether the bytes begin with a backslash and then a quote or a backslash.
fn is_escape(bytes: &[u8]) -> bool
    ensures { result ≡ is_escape bytes.now }
{
    match bytes {
        [first, next, ..] => *first == b'\\' && (*next == b'"' || *next == b'\\'),
        _ => false,
    }
}

/// How many bytes come before the closing quote of a string; `None` if no quote closes it, or a bad byte comes first.
pub(crate) fn raw_length(bytes: &[u8]) -> Option<usize>
    ensures { result ≡ raw_length bytes.now }
{
    let mut at = 0;
    while let Some(plain) = memchr3(b'"', b'\\', b'\n', &bytes[at..]) {
        at += plain;
        if bytes[at] == b'"' {
            return Some(at);
        }
        if !is_escape(&bytes[at..]) {
            return None;
        }
        at += 2;
    }
    None
}

/// Whether the bytes may follow the last element of a text: there are none, or they are a comment without a newline.
pub(crate) fn is_end(bytes: &[u8]) -> bool
    ensures { result ≡ is_end bytes.now }
{
    if bytes.is_empty() {
        return true;
    }
    bytes[0] == b'#' && newline_at(&bytes[1..]).is_none()
}
