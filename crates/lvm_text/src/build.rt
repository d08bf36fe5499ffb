//! Builds the tree of a text from its tokens, which the syntax check has accepted.
//! Syntax, depth and integers have been checked before, so that the only fault left is a key that occurs twice. A key
//! is looked up before its value is read, so that the first fault in source order is found. An inner section is read by
//! a recursive call; there are at most 16 nested calls, because depth has been checked.

ghost use Rattle.lvm_text.specs.Prelude.{[], drop, length, option_map, IfOk, IfErr, IfSome, MatchOption, ℕ, true, false, token_view, views, scalar_view, scalar_views, has_line, bounded_of, is_comma, is_open, is_list_open, begins_key, scalar_first, item_of, left, ReadsScalars, ShowsScalar, ReadsLeaf, ReadsValue, ReadsValues, IsTwice, IsTwiceInside, twice_lines, inner_lines};
ghost use Rattle.std.specs.Prelude.{◌≡◌, ◌≤◌, ◌<◌, ◌+◌, ◌∷◌};
ghost use Rattle.lvm_text.specs.Token as spec;

use crate::fault::TextFault;
use crate::index::{FEW, add_entry, position_of};
use crate::number::{are_digits, number_of};
use crate::token::{Token, TokenAtLine};
use crate::tree::{Entry, Node, Scalar, Section, Value};
use std::alloc::{AllocError, Global};
use std::collections::BTreeMap;

/// The token at a position, or `None` past the last token.
fn token_at<'a>(tokens: &[TokenAtLine<'a>], at: usize) -> Option<TokenAtLine<'a>>
    ensures { MatchOption result (drop at tokens.now ≡ [])
        (λ t. (drop at tokens.now ≡ t ∷ drop (at + 1) tokens.now) × (at < length tokens.now)) }
{
    if at < tokens.len() {
        Some(tokens[at])
    } else {
        None
    }
}

/// The position after the token at `at`, or `at` if it is the end of the tokens.
fn position_after(tokens: &[TokenAtLine<'_>], at: usize) -> usize
    requires { at ≤ length tokens.now }
    ensures rest { drop result tokens.now ≡ drop 1 (drop at tokens.now) }
    ensures within { result ≤ length tokens.now }
    ensures later { at ≤ result }
{
    if at < tokens.len() { at + 1 } else { at }
}

/// The key at a position and the key's line, or `None` if the token at that position isn't a word.
fn key_at<'a>(tokens: &[TokenAtLine<'a>], at: usize) -> Option<(&'a str, u64)>
    ensures { MatchOption result (begins_key (views (drop at tokens.now)) ≡ false)
        (λ r. (views (drop at tokens.now) ≡ (spec.Word r.0.now, r.1) ∷ views (drop (at + 1) tokens.now))
        × (at < length tokens.now)) }
{
    let first = token_at(tokens, at)?;
    match first.token {
        Token::Word(key) => Some((key, first.line)),
        _ => None,
    }
}

/// A token as a scalar, or `None` if the token isn't one. An earlier check has refused integers out of range.
fn scalar_of(token: Token<'_>) -> Option<Scalar<'_>>
    ensures { option_map scalar_view result ≡ bounded_of (token_view token.entry) }
{
    match token {
        Token::Word(word) if are_digits(word.as_bytes()) => {
            Some(Scalar::Int(number_of(word.as_bytes()).unwrap_or(0)))
        }
        Token::Text(text) => Some(Scalar::Text(text)),
        _ => None,
    }
}

/// Whether a token is a comma.
fn is_comma(token: Token<'_>) -> bool
    ensures { result ≡ is_comma (token_view token.entry) }
{
    matches!(token, Token::Comma)
}

/// Whether a token is an opening brace.
fn is_open(token: Token<'_>) -> bool
    ensures { result ≡ is_open (token_view token.entry) }
{
    matches!(token, Token::Open)
}

/// Whether a token is an opening bracket.
fn is_list_open(token: Token<'_>) -> bool
    ensures { result ≡ is_list_open (token_view token.entry) }
{
    matches!(token, Token::ListOpen)
}

/// The position after the comma at `at`, or `at` if there is no comma.
fn position_after_comma(tokens: &[TokenAtLine<'_>], at: usize) -> usize
    ensures same { item_of (views (drop at tokens.now)) ≡ scalar_first (views (drop result tokens.now)) }
    ensures later { at ≤ result }
{
    let Some(first) = token_at(tokens, at) else {
        return at;
    };
    if is_comma(first.token) { at + 1 } else { at }
}

/// The next scalar of a list, after a comma if there is one at `at`, and the position after the scalar.
fn item_at<'a>(tokens: &[TokenAtLine<'a>], at: usize) -> Option<(Scalar<'a>, usize)>
    ensures item { option_map (λ r. (scalar_view r.0, views (drop r.1 tokens.now))) result
        ≡ item_of (views (drop at tokens.now)) }
    ensures later { IfSome result (λ r. (at < r.1) × (r.1 ≤ length tokens.now)) }
{
    let position = position_after_comma(tokens, at);
    let first = token_at(tokens, position)?;
    match scalar_of(first.token) {
        Some(scalar) => Some((scalar, position + 1)),
        None => None,
    }
}

/// The value for a scalar. The syntax check has made sure that there is a scalar, so any value will do for `None`.
fn value_of_scalar(scalar: Option<Scalar<'_>>) -> Value<'_>
    ensures shows { ShowsScalar scalar.entry result }
    ensures no_section { (n : ℕ) → has_line n result ≡ true }
{
    match scalar {
        Some(Scalar::Text(text)) => Value::Text(text),
        Some(Scalar::Int(value)) => Value::Int(value),
        None => Value::Int(0),
    }
}

/// The tokens of a text, and the allocator for the tree that is built from them.
#[derive(Clone, Copy)]
pub(crate) struct Builder<'t, 'a> {
    pub alloc: Global,
    pub tokens: &'t [TokenAtLine<'a>],
}

impl<'t, 'a> Builder<'t, 'a> {
    /// The scalars of a list whose opening bracket comes before `start`, and the position after its closing bracket.
    fn scalars_at(&self, start: usize) -> Result<(Vec<Scalar<'a>>, usize), AllocError>
        requires { start ≤ length self.now.tokens.now }
        ensures read { IfOk result
            (λ r. ReadsScalars (left self.now start) (scalar_views r.0.items) (left self.now r.1)) }
        ensures later { IfOk result (λ r. (start ≤ r.1) × (r.1 ≤ length self.now.tokens.now)) }
    {
        let mut scalars = Vec::new(self.alloc);
        let mut at = start;
        while let Some((scalar, after)) = item_at(self.tokens, at) {
            scalars.push(scalar)?;
            at = after;
        }
        Ok((scalars, position_after(self.tokens, at)))
    }

    /// The scalar or list that begins at `start`, after an equals sign, and the position after that value.
    fn leaf_at(&self, start: usize) -> Result<(Value<'a>, usize), AllocError>
        requires { start ≤ length self.now.tokens.now }
        ensures read { IfOk result (λ r. ReadsLeaf (left self.now start) r.0 (left self.now r.1)) }
        ensures no_section { IfOk result (λ r. (n : ℕ) → has_line n r.0 ≡ true) }
        ensures later { IfOk result (λ r. (start ≤ r.1) × (r.1 ≤ length self.now.tokens.now)) }
    {
        let Some(first) = token_at(self.tokens, start) else {
            return Ok((Value::Int(0), start));
        };
        if is_list_open(first.token) {
            let (scalars, after) = self.scalars_at(start + 1)?;
            return Ok((Value::List(scalars), after));
        }
        Ok((value_of_scalar(scalar_of(first.token)), start + 1))
    }

    /// The value of a key on this line, read from `start`, which is after the key, and the position after the value.
    #[cycle(build)]
    fn value_at(&self, line: u64, start: usize) -> Result<(Value<'a>, usize), TextFault>
        requires { start ≤ length self.now.tokens.now }
        ensures agrees { IfOk result (λ r. has_line line r.0 ≡ true) }
        ensures differ { IfOk result (λ r. inner_lines r.0 ≡ []) }
        ensures read { IfOk result (λ r. ReadsValue line (left self.now start) r.0 (left self.now r.1)) }
        ensures later { IfOk result (λ r. (start ≤ r.1) × (r.1 ≤ length self.now.tokens.now)) }
        ensures twice { IfErr result (IsTwiceInside line (left self.now start)) }
    {
        let Some(first) = token_at(self.tokens, start) else {
            return Ok((Value::Int(0), start));
        };
        if is_open(first.token) {
            let (section, after) = self.section_at(line, start + 1)?;
            return Ok((Value::Section(section), position_after(self.tokens, after)));
        }
        Ok(self.leaf_at(start + 1)?)
    }

    /// The section whose key is on this line and whose values begin at `start`, and the position after the values. The
    /// fault is at the first key, in the section or inside it, that equals an earlier key of its own section.
    #[cycle(build)]
    pub(crate) fn section_at(
        &self,
        line: u64,
        start: usize,
    ) -> Result<(Section<'a>, usize), TextFault>
        requires { start ≤ length self.now.tokens.now }
        ensures line { IfOk result (λ r. r.0.line ≡ line) }
        ensures differ { IfOk result (λ r. twice_lines [] r.0.values ≡ []) }
        ensures read { IfOk result (λ r. ReadsValues (left self.now start) r.0.values (left self.now r.1)) }
        ensures later { IfOk result (λ r. (start ≤ r.1) × (r.1 ≤ length self.now.tokens.now)) }
        ensures twice { IfErr result (IsTwice (left self.now start)) }
    {
        let mut entries = Vec::with_capacity(self.alloc, FEW)?;
        let mut index = BTreeMap::new(self.alloc);
        let mut at = start;
        while let Some((key, key_line)) = key_at(self.tokens, at) {
            if position_of(entries.as_slice(), &index, key).is_some() {
                return Err(TextFault::KeyTwice(key_line));
            }
            let (value, after) = self.value_at(key_line, at + 1)?;
            let node = Node {
                value,
                line: key_line,
            };
            add_entry(&mut entries, &mut index, Entry { key, node })?;
            at = after;
        }
        // Most sections have few keys, so that spare capacity would be most of the memory used.
        entries.shrink_to_fit();
        let section = Section {
            line,
            entries,
            index,
        };
        Ok((section, at))
    }
}
