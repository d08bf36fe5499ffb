//! Why a text is refused.

ghost use Rattle.lvm_text.specs.Prelude.{Memory};
ghost use Rattle.std.specs.Prelude.{◌≡◌};

use std::alloc::{AllocError, AllocFailed};
use thiserror::Error;

/// Why a text is refused, and the line of the fault, counted from 1.
#[derive(Clone, Copy, Debug, PartialEq, Eq, Error)]
pub enum TextFault {
    /// Something on this line is neither a token nor a comment nor whitespace.
    #[error("line {0}: no token")]
    Token(u64),
    /// A token on this line can't follow the tokens before it. If instead only the end of the text is missing, the
    /// line is one more than the number of newlines.
    #[error("line {0}: wrong syntax")]
    Syntax(u64),
    /// A key on this line equals an earlier key of the same section.
    #[error("line {0}: a key for the second time")]
    KeyTwice(u64),
    /// A brace on this line opens nesting level 17; the top of the text is level 0.
    #[error("line {0}: sections too deep")]
    Deep(u64),
    /// An integer on this line has more than 19 digits, or is 2^63 or more.
    #[error("line {0}: an integer out of range")]
    Number(u64),
    /// Memory ran out: an allocation was refused.
    #[error("out of memory")]
    Memory,
}

impl From<AllocError> for TextFault {
    ghost from_gives = { λ _ e. e ≡ Memory };

    fn from(_: AllocError) -> TextFault {
        TextFault::Memory
    }
}

impl<T: Drop> From<AllocFailed<T>> for TextFault {
    ghost from_gives = { λ _ e. e ≡ Memory };

    fn from(_failed: AllocFailed<T>) -> TextFault {
        TextFault::Memory
    }
}
