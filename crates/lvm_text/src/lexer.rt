//! Cuts a text into tokens, element by element from front to end.
//! Whitespace and comments are dropped, but their newlines are counted, for the lines of the tokens.

ghost use Rattle.lvm_text.specs.Prelude.{[], MatchResult, OnOk, Spells, SomeElement, newlines, spelling, put_token, IsTokenFault, views, element_view};
ghost use Rattle.std.specs.Prelude.{◌≡◌, ◌++◌};

use crate::element::{Element, element_at, white_at};
use crate::fault::TextFault;
use crate::scan::is_end;
use crate::token::TokenAtLine;
use std::alloc::{AllocFailed, Global};

/// How many newlines an element contains.
fn newlines(element: Element<'_>) -> u64
    requires { SomeElement (element_view element) }
    ensures { result ≡ newlines (spelling (element_view element.entry)) }
{
    match element {
        Element::White(byte) => { if byte == b'\n' { 1 } else { 0 } }
        Element::Comment(_) => 1,
        Element::Lexeme(_) => 0,
    }
}

/// Appends the token of an element with its line; whitespace and comments have no token.
fn keep<'a>(
    tokens: &mut Vec<TokenAtLine<'a>>,
    element: Element<'a>,
    line: u64,
) -> Result<(), AllocFailed<TokenAtLine<'a>>>
    ensures { OnOk result
        (views tokens.new.items ≡ views tokens.old.items ++ put_token (element_view element.entry) line []) }
{
    match element {
        Element::Lexeme(token) => tokens.push(TokenAtLine { token, line }),
        _ => Ok(()),
    }
}

/// The tokens of a text, or a fault at the line on which something begins that isn't an element.
pub(crate) fn tokens_of(alloc: Global, text: &str) -> Result<Vec<TokenAtLine<'_>>, TextFault>
    ensures { MatchResult result (λ v. Spells text.now (views v.items)) (IsTokenFault text.now) }
{
    let mut tokens = Vec::new(alloc);
    let mut line = 1;
    let mut rest = text;
    while !is_end(rest.as_bytes()) {
        let Some((element, after)) = element_at(rest) else {
            return Err(TextFault::Token(line));
        };
        keep(&mut tokens, element, line)?;
        line += newlines(element);
        rest = after;
        // Most elements are whitespace bytes, so a separate loop skips them.
        while let Some((byte, after)) = white_at(rest) {
            line += newlines(Element::White(byte));
            rest = after;
        }
    }
    Ok(tokens)
}
