//! The parts of a line of a table, as texts that write themselves into a block: the line without its columns,
//! and each column of a striped line.
//!
//! Each part has a greatest length, which a striped line as a whole doesn't have. A new target needs an arm in
//! `put_target`; if its text has no greatest length, it needs arms in `specs/tables/LineHead.antt` too.

ghost use Rattle.dm_table.specs.Prelude.{length, decimal, IsPut, column_text, dev_text, kind_text, body_head, target_head};
ghost use Rattle.std.specs.Prelude.{◌≡◌, ◌++◌, ◌+◌, ◌<◌, ◌≤◌};

use crate::io::block::{put_bytes, put_digits};
use crate::io::text::Text;
use crate::tables::table::{Column, DevRef, Line, StoreKind, Target};
use std::marker::Model;

/// The text of a line: a name and a mark, and then the line's body without its columns.
#[derive(Drop)]
pub(crate) struct LineHead<'a> {
    name: &'a [u8],
    mark: &'a [u8],
    line: &'a Line,
}

impl<'a> Model for LineHead<'a> {
    ghost use Rattle.dm_table.specs.Base.{ℕ, List, length};
    ghost use Rattle.dm_table.specs.tables.LineHead.{body_head};
    ghost use Rattle.std.specs.Prelude.{◌≤◌, ◌++◌};

    ghost Value = { List ℕ };

    ghost view = { λ head. head.name.now ++ head.mark.now ++ body_head head.line.now };

    ghost invariant = { λ head. (length head.name.now ≤ 127) × (length head.mark.now ≤ 2) };
}

impl<'a> LineHead<'a> {
    /// The text of a name, a mark such as `: ` or a comma, and a line's body without its columns.
    #[inline(always)]
    pub(crate) fn new(name: &'a [u8], mark: &'a [u8], line: &'a Line) -> LineHead<'a>
        requires name { length name.now ≤ 127 }
        requires mark { length mark.now ≤ 2 }
        ensures text { result ≡ name.now ++ mark.now ++ body_head line.now }
        ensures some { 0 < length result }
    {
        LineHead { name, mark, line }
    }
}

impl<'a> Text for LineHead<'a> {
    ghost text = { λ head. head };

    #[inline(always)]
    fn put_into(&self, block: &mut [u8], at: usize) -> usize {
        let at = put_bytes(block, at, self.name);
        let at = put_bytes(block, at, self.mark);
        put_head(block, at, self.line)
    }
}

/// The text of a column of a striped line, with a space in front.
#[derive(Drop)]
pub(crate) struct ColumnText<'a> {
    column: &'a Column,
}

impl<'a> Model for ColumnText<'a> {
    ghost use Rattle.dm_table.specs.Base.{ℕ, List};
    ghost use Rattle.dm_table.specs.tables.LineBody.{column_text};

    ghost Value = { List ℕ };

    ghost view = { λ text. column_text text.column.now };
}

impl<'a> ColumnText<'a> {
    /// The text for a column.
    #[inline(always)]
    pub(crate) fn new(column: &'a Column) -> ColumnText<'a>
        ensures text { result ≡ column_text column.now }
        ensures some { 0 < length result }
    {
        ColumnText { column }
    }
}

impl<'a> Text for ColumnText<'a> {
    ghost text = { λ text. text };

    fn put_into(&self, block: &mut [u8], at: usize) -> usize {
        let at = put_dev(block, at, b" ", &self.column.to);
        put_number(block, at, b" ", self.column.offset)
    }
}

/// Writes a body without its columns into a block at offset `at`, and returns the offset after the text.
#[inline(always)]
fn put_head(block: &mut [u8], at: usize, line: &Line) -> usize
    requires room { at + 700 ≤ length block.old }
    ensures put { IsPut (body_head line.now) at block.old block.new result }
    ensures few { result ≤ at + 700 }
{
    let at = put_digits(block, at, line.start);
    let at = put_number(block, at, b" ", line.len);
    let at = put_bytes(block, at, b" ");
    put_target(block, at, &line.target)
}

/// Writes a target without its columns into a block at offset `at`, and returns the offset after the text.
#[inline(always)]
fn put_target(block: &mut [u8], at: usize, target: &Target) -> usize
    requires room { at + 600 ≤ length block.old }
    ensures put { IsPut (target_head target.now) at block.old block.new result }
    ensures few { result ≤ at + 600 }
{
    match target {
        Target::Linear { to, offset } => {
            let at = put_dev(block, at, b"linear ", to);
            put_number(block, at, b" ", *offset)
        }
        Target::Striped { chunk, columns } => {
            let at = put_number(block, at, b"striped ", columns.as_slice().len() as u64);
            put_number(block, at, b" ", *chunk)
        }
        Target::Zero => put_bytes(block, at, b"zero"),
        Target::Error => put_bytes(block, at, b"error"),
        Target::Snapshot {
            origin,
            store,
            kind,
            chunk,
        } => {
            let at = put_dev(block, at, b"snapshot ", origin);
            let at = put_dev(block, at, b" ", store);
            let at = put_bytes(block, at, b" ");
            let at = put_bytes(block, at, kind_text(*kind));
            put_number(block, at, b" ", *chunk)
        }
        Target::Origin { origin } => put_dev(block, at, b"snapshot-origin ", origin),
    }
}

/// The letter for a kind of exception store.
fn kind_text(kind: StoreKind) -> &'static [u8]
    ensures flag { result.now ≡ kind_text kind }
    ensures few { length result.now ≤ 1 }
{
    match kind {
        StoreKind::Persistent => b"P",
        StoreKind::Transient => b"N",
        StoreKind::Keeping => b"K",
    }
}

/// Writes up to 9 bytes, and then a number, into a block at offset `at`; returns the offset after the number.
#[inline(always)]
fn put_number(block: &mut [u8], at: usize, before: &[u8], number: u64) -> usize
    requires room { at + 30 ≤ length block.old }
    requires before { length before.now ≤ 9 }
    ensures put { IsPut (before.now ++ decimal number) at block.old block.new result }
    ensures few { result ≤ at + 30 }
{
    let at = put_bytes(block, at, before);
    put_digits(block, at, number)
}

/// Writes up to 16 bytes, and then a device or disk, into a block at offset `at`; returns the offset after the text.
#[inline(always)]
fn put_dev(block: &mut [u8], at: usize, before: &[u8], dev: &DevRef) -> usize
    requires room { at + 271 ≤ length block.old }
    requires before { length before.now ≤ 16 }
    ensures put { IsPut (before.now ++ dev_text dev.now) at block.old block.new result }
    ensures few { result ≤ at + 271 }
{
    let at = put_bytes(block, at, before);
    put_name(block, at, dev)
}

/// Writes the text for a device or disk into a block at offset `at`, and returns the offset after the text.
#[tactic(auto, using(crate::proofs::words::ByteLemmas::device_name_len, crate::proofs::words::ByteLemmas::disk_name_len))]
fn put_name(block: &mut [u8], at: usize, dev: &DevRef) -> usize
    requires room { at + 255 ≤ length block.old }
    ensures put { IsPut (dev_text dev.now) at block.old block.new result }
    ensures few { result ≤ at + 255 }
{
    match dev {
        DevRef::Device(name) => {
            let at = put_bytes(block, at, b"/dev/mapper/");
            put_bytes(block, at, name.as_str().as_bytes())
        }
        DevRef::Disk(name) => put_bytes(block, at, name.as_str().as_bytes()),
    }
}
