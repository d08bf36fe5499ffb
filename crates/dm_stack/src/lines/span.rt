//! Spans: the devices and disks that a line with ids refers to, and which of their sectors it uses.
//!
//! References, ranges, cycles, depths and claims are all checked on spans, so these checks don't depend on
//! targets. For a new target, add its spans to `span_at`, and to `target_spans` (`specs/lines/Span`, and for
//! names `specs/tables/Span` of `dm_table`). No memory is allocated.

ghost use Rattle.dm_stack.specs.Prelude.{IfSome, drop, length, map, slice_get, YieldsFirst, item_count, column_span, spans, whole_span};
ghost use Rattle.std.specs.Prelude.{◌≡◌, ◌+◌, ◌/◌, ◌<◌, ◌^◌};

use crate::id::Lower;
use crate::lines::resolved_columns::ResolvedColumn;
use crate::lines::resolved_line::{ResolvedLine, ResolvedTarget};
use dm_table::Use;

/// A range of sectors of a lower device or disk that a line refers to.
#[derive(Drop)]
pub(crate) struct Span {
    pub to: Lower,
    pub offset: u64,
    /// The number of sectors, or None for the whole device or disk.
    pub len: Option<u64>,
    pub kind: Use,
}

/// An iterator over the spans of a line.
#[derive(Drop)]
pub(crate) struct Spans<'a> {
    line: &'a ResolvedLine,
    index: usize,
}

impl<'a> Spans<'a> {
    /// The spans of a line, in order.
    pub(crate) fn of(line: &'a ResolvedLine) -> Spans<'a>
        ensures line { result.line.now ≡ line.now }
        ensures index { result.index ≡ 0 }
    {
        Spans { line, index: 0 }
    }
}

impl<'a> Iterator for Spans<'a> {
    type Item = Span;

    ghost next_gives = { YieldsFirst (λ left. drop left.index (spans left.line.now)) };

    ghost remaining = { item_count (λ left. drop left.index (spans left.line.now)) };

    fn next(&mut self) -> Option<Span> {
        let span = span_at(self.line, self.index)?;
        self.index += 1;
        Some(span)
    }
}

/// The span of a line with this index, if it exists.
fn span_at(line: &ResolvedLine, index: usize) -> Option<Span>
    ensures span { result ≡ slice_get (spans line.now) index }
    ensures within { IfSome result (λ _. index + 1 < 2 ^ 64) }
{
    match &line.target {
        ResolvedTarget::Linear { to, offset } if index == 0 => Some(Span {
            to: *to,
            offset: *offset,
            len: Some(line.len),
            kind: Use::Own,
        }),
        ResolvedTarget::Striped { columns, .. } => {
            column_span(line.len, columns.as_slice(), index)
        }
        ResolvedTarget::Snapshot(snapshot) if index == 0 => {
            Some(whole_span(snapshot.store, Use::Own))
        }
        ResolvedTarget::Snapshot(snapshot) if index == 1 => {
            Some(whole_span(snapshot.origin, Use::Reading))
        }
        ResolvedTarget::Origin(origin) if index == 0 => Some(whole_span(origin.to, Use::Serving)),
        _ => None,
    }
}

/// The span of a whole device or disk.
fn whole_span(to: Lower, kind: Use) -> Span
    ensures { result ≡ whole_span to kind }
{
    Span {
        to,
        offset: 0,
        len: None,
        kind,
    }
}

/// The span of the column with this index, which has an equal share of the line's length.
fn column_span(len: u64, columns: &[ResolvedColumn], index: usize) -> Option<Span>
    ensures within { IfSome result (λ _. index + 1 < 2 ^ 64) }
    ensures span { result ≡ slice_get (map (column_span (len / length columns.now)) columns.now) index }
{
    let column = columns.get(index)?;
    Some(Span {
        to: column.to,
        offset: column.offset,
        len: Some(len / columns.len() as u64),
        kind: Use::Own,
    })
}
