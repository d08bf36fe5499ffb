//! The elements of a text: whitespace bytes, comments and tokens.
//! A text is cut into elements from front to end, and the first byte of an element decides which kind it is. A new
//! kind of token needs a case in `element_from`.

ghost use Rattle.lvm_text.specs.Prelude.{suc, None, Some, length, take, drop, slice_index, option_map, IfSome, IsTrue, is_ascii, Lexeme, comment_from, string_from, leading_word_bytes, sign_of, element_from, element_at, element_view, found_view, token_view};
ghost use Rattle.std.specs.Prelude.{◌≡◌, ◌<◌, ◌∷◌};
ghost use Rattle.lvm_text.specs.Spelling as spelling;
ghost use Rattle.lvm_text.specs.Token as spec;

use crate::scan::{is_white, is_word_byte, leading_word_bytes, newline_at, raw_length};
use crate::token::Token;

/// An element of a text: a whitespace byte, a comment without its `#` and its newline, or a token.
#[derive(Clone, Copy)]
pub(crate) enum Element<'a> {
    White(u8),
    Comment(&'a str),
    Lexeme(Token<'a>),
}

/// The part of a text before the ASCII byte at offset `at`, and the part after that byte.
fn around(text: &str, at: usize) -> (&str, &str)
    requires within { at < length text.now }
    requires ascii { IsTrue (is_ascii (slice_index text.now at)) }
    ensures before { result.0.now ≡ take at text.now }
    ensures after { result.1.now ≡ drop (suc at) text.now }
{
    let (before, rest) = text.split_at(at);
    let (_, after) = rest.split_at(1);
    (before, after)
}

/// A comment and the text after its newline, from the text after the comment's `#`.
fn comment(rest: &str) -> Option<(Element<'_>, &str)>
    ensures { found_view result ≡ comment_from rest.now }
{
    let end = newline_at(rest.as_bytes())?;
    let (text, after) = around(rest, end);
    Some((Element::Comment(text), after))
}

/// A string and the text after its closing quote, from the text after the string's opening quote.
fn string(rest: &str) -> Option<(Element<'_>, &str)>
    ensures { found_view result ≡ string_from rest.now }
{
    let end = raw_length(rest.as_bytes())?;
    let (text, after) = around(rest, end);
    Some((Element::Lexeme(Token::Text(text)), after))
}

/// The word at the front of a text, and the text after the word.
fn word(rest: &str) -> (Element<'_>, &str)
    ensures element { element_view result.0 ≡ Lexeme (spec.Word (take (leading_word_bytes rest.now) rest.now)) }
    ensures after { result.1.now ≡ drop (leading_word_bytes rest.now) rest.now }
{
    let (word, after) = rest.split_at(leading_word_bytes(rest.as_bytes()));
    (Element::Lexeme(Token::Word(word)), after)
}

/// The token for one of the signs `{ } [ ] = ,`, and `None` for any other byte.
fn sign_of<'a>(byte: u8) -> Option<Token<'a>>
    ensures { option_map token_view result ≡ sign_of byte }
{
    match byte {
        b'{' => Some(Token::Open),
        b'}' => Some(Token::Close),
        b'[' => Some(Token::ListOpen),
        b']' => Some(Token::ListClose),
        b'=' => Some(Token::Equals),
        b',' => Some(Token::Comma),
        _ => None,
    }
}

/// The element at the front of `text`, which is the byte `first` and then `rest`, and the text after the element.
fn element_from<'a>(text: &'a str, first: u8, rest: &'a str) -> Option<(Element<'a>, &'a str)>
    requires { text.now ≡ first ∷ rest.now }
    ensures { found_view result ≡ element_from first rest.now }
{
    if is_white(first) {
        return Some((Element::White(first), rest));
    }
    if first == b'#' {
        return comment(rest);
    }
    if first == b'"' {
        return string(rest);
    }
    if is_word_byte(first) {
        return Some(word(text));
    }
    let sign = sign_of(first)?;
    Some((Element::Lexeme(sign), rest))
}

/// The element at the front of a text, and the text after it; `None` if the text is empty or begins with no element.
pub(crate) fn element_at(text: &str) -> Option<(Element<'_>, &str)>
    ensures { found_view result ≡ element_at text.now }
{
    let bytes = text.as_bytes();
    if bytes.is_empty() {
        return None;
    }
    let first = bytes[0];
    if first >= 128 {
        return None;
    }
    let (_, rest) = around(text, 0);
    element_from(text, first, rest)
}

/// The whitespace byte at the front of a text, if there is one, and the text after that byte.
pub(crate) fn white_at(text: &str) -> Option<(u8, &str)>
    ensures { IfSome result (λ r. Some (spelling.White r.0, r.1.now) ≡ element_at text.now) }
{
    let first = *text.as_bytes().first()?;
    if !is_white(first) {
        return None;
    }
    let (_, rest) = around(text, 0);
    Some((first, rest))
}
