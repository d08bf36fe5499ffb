//! The first check of every text: whether each of its bytes may occur in a text of this form.
//!
//! A fault of this check takes precedence over faults of rows, so the check runs before the rows are
//! read.

ghost use Rattle.dm_table.specs.Prelude.{ℕ, Bool, List, None, IfSome, Memory, texts, parts_at, Answers, unless, first_or, is_printable, not_text, untexts};
ghost use Rattle.std.specs.Prelude.{◌≡◌, ◌≢◌};

use crate::load::load_fault::{LoadFault, LoadKind};
use crate::load::place::Part;
use crate::words::fields::cut;
use std::alloc::Global;

/// A rule that says which bytes the lines, or other pieces, of a text may contain.
pub(crate) trait TextRule {
    /// Whether the bytes of a piece are valid.
    ghost is_text: { List ℕ → Bool };

    /// Whether the bytes of a piece are valid.
    fn is_text(piece: &[u8]) -> bool
        ensures { result ≡ is_text piece.now };
}

/// The rule for tables and disk lists: printable ASCII and newlines.
struct Printable;

impl TextRule for Printable {
    ghost is_text = { is_printable };

    fn is_text(piece: &[u8]) -> bool {
        is_printable(piece)
    }
}

/// Refuses a text that contains a byte other than printable ASCII and newlines. The fault has the number of the piece
/// with that byte; bytes equal to `at` separate the pieces. Makes one pass, and more only if the text is refused.
pub(crate) fn check_text(alloc: Global, part: Part, at: u8, text: &[u8]) -> Result<(), LoadFault>
    ensures { Answers part (λ done. done) result
        (unless (first_or (not_text part (parts_at at text.now)) None) tt) }
{
    // Most texts contain no bad byte, and one test of the whole text is faster than a test of each piece.
    if is_printable(text) {
        return Ok(());
    }
    check_pieces::<Printable>(alloc, part, at, text)
}

/// Refuses a text with a piece that the rule rejects. The fault has the number of that piece; bytes equal to
/// `at` separate the pieces.
pub(crate) fn check_pieces<R: TextRule>(
    alloc: Global,
    part: Part,
    at: u8,
    text: &[u8],
) -> Result<(), LoadFault>
    ensures { Answers part (λ done. done) result
        (unless (first_or (untexts R.is_text part (parts_at at text.now)) None) tt) }
{
    let Ok(pieces) = cut(alloc, at, text) else {
        return Err(LoadFault::memory(part));
    };
    match first_untext::<R>(part, &pieces) {
        Some(fault) => Err(fault),
        None => Ok(()),
    }
}

/// The fault of the first piece that the rule rejects.
fn first_untext<R: TextRule>(part: Part, pieces: &[&[u8]]) -> Option<LoadFault>
    ensures value { result ≡ first_or (untexts R.is_text part (texts pieces.now)) None }
    ensures kind { IfSome result (λ fault. fault.kind ≢ Memory) }
{
    for (index, piece) in pieces.iter().enumerate() {
        if !R::is_text(*piece) {
            return Some(LoadFault::at_index(part, LoadKind::NotText, index));
        }
    }
    None
}

/// Whether each byte is a newline or from 0x20 to 0x7E. The loop never stops early, so that the compiler
/// can test many bytes at once.
fn is_printable(text: &[u8]) -> bool
    ensures { result ≡ is_printable text.now }
{
    let mut printed = true;
    for byte in text {
        printed &= *byte == 10 || (32 <= *byte && *byte <= 126);
    }
    printed
}
