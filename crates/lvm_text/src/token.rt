//! The tokens of a text, each with the line on which it begins.
//! A new kind of token needs a variant of `Token` and a case in `element_from`.

/// A token of a text: a word, the raw text of a string, or a sign.
#[derive(Clone, Copy)]
pub(crate) enum Token<'a> {
    Word(&'a str),
    Text(&'a str),
    Open,
    Close,
    ListOpen,
    ListClose,
    Equals,
    Comma,
}

/// A token and the line on which the token begins.
#[derive(Clone, Copy)]
pub(crate) struct TokenAtLine<'a> {
    pub(crate) token: Token<'a>,
    pub(crate) line: u64,
}
