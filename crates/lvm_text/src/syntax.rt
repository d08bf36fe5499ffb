//! Checks the syntax of a text with a state machine over its tokens.
//! The check doesn't limit depth, and counts open sections instead of keeping a stack. A new form of value needs a new
//! stage and its transitions; the proof then has to show how a text can continue from that stage.

ghost use Rattle.lvm_text.specs.Prelude.{Some, is_some, MatchOption, scalar_of, is_key, IsSyntaxLine, stage_after, run, is_over, newlines, token_view, views, Key};
ghost use Rattle.std.specs.Prelude.{◌≡◌, ◌<◌, ◌+◌, ◌^◌};

use crate::number::are_digits;
use crate::reading::end_line;
use crate::token::{Token, TokenAtLine};

/// What has been read of the current value, or that a new key may begin.
#[derive(Clone, Copy, PartialEq, Eq)]
enum Stage {
    /// A key or a closing brace may come.
    Key,
    /// A key has been read.
    AfterKey,
    /// A key and an equals sign have been read.
    Content,
    /// The opening bracket of a list has been read.
    First,
    /// A comma in a list has been read.
    Next,
    /// A scalar of a list has been read.
    After,
}

/// Whether a word may be a key: it is nonempty and doesn't begin with a hyphen.
fn is_key(word: &str) -> bool
    ensures { result ≡ is_key word.now }
{
    let bytes = word.as_bytes();
    !bytes.is_empty() && bytes[0] != b'-'
}

/// Whether a token may be a scalar: a word of digits, or a string.
fn is_scalar(token: Token<'_>) -> bool
    ensures { result ≡ is_some (scalar_of (token_view token.entry)) }
{
    match token {
        Token::Word(word) => are_digits(word.as_bytes()),
        Token::Text(_) => true,
        _ => false,
    }
}

/// How many sections are open, and the stage, after a token; `None` if the token isn't allowed at this stage.
fn stage_after(depth: u64, stage: Stage, token: Token<'_>) -> Option<(u64, Stage)>
    requires { depth < 2 ^ 63 }
    ensures { result ≡ stage_after depth stage (token_view token.entry) }
{
    match (stage, token) {
        (Stage::Key, Token::Word(word)) if is_key(word) => Some((depth, Stage::AfterKey)),
        (Stage::Key, Token::Close) if depth > 0 => Some((depth - 1, Stage::Key)),
        (Stage::AfterKey, Token::Open) => Some((depth + 1, Stage::Key)),
        (Stage::AfterKey, Token::Equals) => Some((depth, Stage::Content)),
        (Stage::Content, Token::ListOpen) => Some((depth, Stage::First)),
        (Stage::Content, _) if is_scalar(token) => Some((depth, Stage::Key)),
        (Stage::First | Stage::After, Token::ListClose) => Some((depth, Stage::Key)),
        (Stage::After, Token::Comma) => Some((depth, Stage::Next)),
        (Stage::First | Stage::Next, _) if is_scalar(token) => Some((depth, Stage::After)),
        _ => None,
    }
}

/// Whether a text may end in this state: no section is open and no value is unfinished.
fn is_over(depth: u64, stage: Stage) -> bool
    ensures { result ≡ is_over depth stage }
{
    match stage {
        Stage::Key => depth == 0,
        _ => false,
    }
}

/// The line of a text's syntax fault, if there is one: the line of the first token that can't follow the tokens before
/// it, or the last line if the text is only incomplete.
pub(crate) fn syntax_line(tokens: &[TokenAtLine<'_>], text: &str) -> Option<u64>
    ensures { MatchOption result (run 0 Key (views tokens.now) ≡ Some (0, Key))
        (IsSyntaxLine (views tokens.now) (1 + newlines text.now)) }
{
    let mut depth = 0;
    let mut stage = Stage::Key;
    for at_line in tokens {
        let Some((next_depth, next_stage)) = stage_after(depth, stage, at_line.token) else {
            return Some(at_line.line);
        };
        depth = next_depth;
        stage = next_stage;
    }
    if is_over(depth, stage) {
        None
    } else {
        Some(end_line(text.as_bytes()))
    }
}
