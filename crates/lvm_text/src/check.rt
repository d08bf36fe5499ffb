//! Checks of tokens that form, by the grammar, a text.
//! Each check returns the first line where it finds a fault; the caller runs the checks in a fixed order.

ghost use Rattle.lvm_text.specs.Prelude.{token_view, views, head_line, level_after, opens_deep, deep_lines, leads_scalar, is_refused, number_lines};
ghost use Rattle.std.specs.Prelude.{◌≡◌, ◌<◌, ◌^◌};
ghost use Rattle.lvm_text.specs.Token as spec;

use crate::number::number_of;
use crate::token::{Token, TokenAtLine};

/// Whether a token opens level 17 or deeper; `level` is the level before the token.
fn opens_deep(token: Token<'_>, level: u64) -> bool
    ensures { result ≡ opens_deep (token_view token.entry) level }
{
    match token {
        Token::Open => level > 15,
        _ => false,
    }
}

/// The nesting level after a token; `level` is the level before the token.
fn level_after(token: Token<'_>, level: u64) -> u64
    requires { level < 2 ^ 63 }
    ensures { result ≡ level_after (token_view token.entry) level }
{
    match token {
        Token::Open => level + 1,
        Token::Close => level.saturating_sub(1),
        _ => level,
    }
}

/// The line of the first brace that opens level 17.
pub(crate) fn deep_line(tokens: &[TokenAtLine<'_>]) -> Option<u64>
    ensures { result ≡ head_line (deep_lines 0 (views tokens.now)) }
{
    let mut level = 0;
    for at_line in tokens {
        if opens_deep(at_line.token, level) {
            return Some(at_line.line);
        }
        level = level_after(at_line.token, level);
    }
    None
}

/// Whether a word after this token is a scalar and not a key.
fn leads_scalar(token: Token<'_>) -> bool
    ensures { result ≡ leads_scalar (token_view token.entry) }
{
    match token {
        Token::Equals | Token::ListOpen | Token::Comma => true,
        _ => false,
    }
}

/// Whether a token is a word that isn't an integer below 2^63 with at most 19 digits.
fn is_refused(token: Token<'_>) -> bool
    ensures { result ≡ is_refused (token_view token.entry) }
{
    match token {
        Token::Word(word) => number_of(word.as_bytes()).is_none(),
        _ => false,
    }
}

/// The line of the first integer that is out of range.
pub(crate) fn number_line(tokens: &[TokenAtLine<'_>]) -> Option<u64>
    ensures { result ≡ head_line (number_lines spec.Close (views tokens.now)) }
{
    let mut before = Token::Close;
    for at_line in tokens {
        if leads_scalar(before) && is_refused(at_line.token) {
            return Some(at_line.line);
        }
        before = at_line.token;
    }
    None
}
