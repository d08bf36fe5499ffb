//! Reads a whole text: tokens, then their checks, then the tree.
//! Each check runs over the whole text before the next check begins, because the order of the checks, not of the
//! lines, decides which fault is returned. A new check needs a place in this order.

ghost use Rattle.lvm_text.specs.Prelude.{Ok, Err, IfOk, IfErr, Values, newlines, IsText, views, Describes, HasFault, TreeOf, Memory};
ghost use Rattle.std.specs.Prelude.{◌≡◌, ◌≢◌, ◌+◌};

use crate::build::Builder;
use crate::check::{deep_line, number_line};
use crate::fault::TextFault;
use crate::lexer::tokens_of;
use crate::syntax::syntax_line;
use crate::token::TokenAtLine;
use crate::tree::Section;
use std::alloc::Global;

/// The number of the last line of a text: one more than its number of newlines.
pub fn end_line(bytes: &[u8]) -> u64
    ensures { result ≡ 1 + newlines bytes.now }
{
    let mut line = 1;
    for byte in bytes {
        if *byte == b'\n' {
            line += 1;
        }
    }
    line
}

/// The tree of tokens that form, by the grammar, a text, or the fault of the first check that finds any.
fn tree_of<'a>(alloc: Global, tokens: &[TokenAtLine<'a>]) -> Result<Section<'a>, TextFault>
    ensures { (v : Values) → IsText (views tokens.now) v → TreeOf (views tokens.now) v result }
{
    if let Some(line) = deep_line(tokens) {
        return Err(TextFault::Deep(line));
    }
    if let Some(line) = number_line(tokens) {
        return Err(TextFault::Number(line));
    }
    let (section, _) = Builder { alloc, tokens }.section_at(1, 0)?;
    Ok(section)
}

/// Reads a text as a tree, or returns its fault.
pub(crate) fn read(alloc: Global, text: &str) -> Result<Section<'_>, TextFault>
    ensures accepted { IfOk result (Describes text.now) }
    ensures fault { IfErr result (λ f. f ≢ Memory → HasFault text.now f) }
{
    let tokens = tokens_of(alloc, text)?;
    if let Some(line) = syntax_line(&tokens, text) {
        return Err(TextFault::Syntax(line));
    }
    tree_of(alloc, &tokens)
}
