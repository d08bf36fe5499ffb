//! The lines of a device, and which of these lines a search for a sector covers.
//!
//! A device's end and its read-only flag are kept with its lines, so that a request finds all three in one place.
//!
//! The sectors up to the start of the last line are cut into equal buckets, with one or two lines each on
//! average. For each bucket, the line of its first sector is stored; a search covers the lines from that one to
//! the line of the next bucket's first sector, usually a few lines.
//!
//! Buckets and prefetching are here for speed alone: RESULTS.md lists their gain as *finer buckets, four lines
//! read ahead*. Buckets rely on `AreFirsts`; without buckets, all lines are searched. If you change them, measure
//! random requests on 65,536 lines, and a load of as many lines, before and after.

ghost use Rattle.dm_stack.specs.Prelude.{IfOk, length, AreFirsts, IsStartOf, StartsAfter, StartsBy};
ghost use Rattle.std.specs.Prelude.{◌≡◌, ◌+◌, ◌^◌, ◌<◌, ◌≤◌};

use crate::checks::limits::{MOST_LENGTH, MOST_LINES};
use crate::lines::resolved_line::{ResolvedLine, ResolvedTarget};
use dm_table::{Listed, Reserved};
use std::alloc::{AllocError, Global};
use std::marker::Model;

/// The lines of a device, in order. Contracts see them as a list.
#[derive(Drop)]
pub(crate) struct ResolvedTable {
    lines: Listed<ResolvedLine>,
    /// For each bucket, the index of the line that holds its first sector.
    firsts: Reserved<u16>,
    /// The exponent of the bucket size: a bucket has 2^shift sectors.
    shift: u32,
}

impl Model for ResolvedTable {
    ghost use Rattle.dm_stack.specs.Base.{List};
    ghost use Rattle.dm_stack.specs.declared.lines.resolved_line.ResolvedLine.{ResolvedLine};
    ghost use Rattle.dm_stack.specs.lines.LineSearch.{AreFirsts};

    ghost Value = { List ResolvedLine };

    ghost view = { λ table. table.lines };

    ghost invariant = { λ table. AreFirsts table.lines table.firsts.items table.shift };
}

/// A device as a look-up needs it: its end, its read-only flag, and its lines.
#[derive(Drop)]
pub(crate) struct ResolvedDevice {
    pub end: u64,
    pub ro: bool,
    pub table: ResolvedTable,
}

impl ResolvedTable {
    /// Makes a table of these lines, with buckets. Fails only when out of memory.
    ///
    /// Cost: linear in the lines, with memory for 1 to 2 bytes for each line.
    pub(crate) fn from_vec(
        alloc: Global,
        lines: Vec<ResolvedLine>,
    ) -> Result<ResolvedTable, AllocError>
        ensures { IfOk result (λ table. table ≡ lines.items) }
    {
        let (firsts, shift) = firsts_of(alloc, &lines)?;
        Ok(ResolvedTable {
            lines: Listed::from_vec(lines),
            firsts,
            shift,
        })
    }

    /// The lines, in order.
    #[inline(always)]
    pub(crate) fn lines(&self) -> &[ResolvedLine]
        ensures { result.now ≡ self.now }
    {
        self.lines.as_slice()
    }

    /// The lines to search for a sector: the index of the first, and their number.
    #[inline(always)]
    pub(crate) fn range_of(&self, sector: u64) -> (usize, usize)
        requires { StartsBy self.now 0 sector }
        ensures some { 0 < result.1 }
        ensures within { result.0 + result.1 ≤ length self.now }
        ensures from { StartsBy self.now result.0 sector }
        ensures next { StartsAfter self.now (result.0 + result.1) sector }
    {
        let count = self.lines.as_slice().len();
        let firsts = self.firsts.as_slice();
        let Some(last) = firsts.len().checked_sub(1) else {
            return (0, count);
        };
        let bucket = (sector >> self.shift) as usize;
        if bucket < last {
            let first = firsts[bucket] as usize;
            (first, firsts[bucket + 1] as usize + 1 - first)
        } else {
            let first = firsts[last] as usize;
            (first, count - first)
        }
    }

    /// Whether the lines are in buckets; a device with few lines has none, and its lines are compared one by one.
    pub(crate) fn has_buckets(&self) -> bool {
        !self.firsts.as_slice().is_empty()
    }

    /// A number computed from the starts of the lines that a search for this sector compares first, if lines are
    /// in buckets.
    #[inline(always)]
    pub(crate) fn starts_ahead(&self, sector: u64) -> Option<u64> {
        let bucket = sector.wrapping_shr(self.shift) as usize;
        let first = self.firsts.as_slice().get(bucket)?;
        Some(starts_from(self.lines.as_slice(), *first as usize))
    }

    /// The chunk of a sector, if the first line is a snapshot.
    #[inline(always)]
    pub(crate) fn chunk_ahead(&self, sector: u64) -> Option<u64> {
        match &self.lines.as_slice().first()?.target {
            ResolvedTarget::Snapshot(snapshot) => Some(snapshot.chunk.chunk_of(sector)),
            _ => None,
        }
    }
}

/// A number computed from the starts of four consecutive lines, since a search in a bucket usually compares two,
/// and a request longer than a line continues in the next.
#[inline(always)]
fn starts_from(lines: &[ResolvedLine], first: usize) -> u64 {
    match lines.get(first..) {
        Some([line, second, third, fourth, ..]) => {
            line.start ^ second.start ^ third.start ^ fourth.start
        }
        _ => 0,
    }
}

/// The line of each bucket's first sector, and the exponent of the bucket size. There are no buckets for up to
/// three lines, which are compared one by one, or for lines that a load refuses.
fn firsts_of(alloc: Global, lines: &[ResolvedLine]) -> Result<(Reserved<u16>, u32), AllocError>
    ensures { IfOk result (λ found. AreFirsts lines.now found.0.items found.1) }
{
    let count = lines.len();
    if count < 4 || MOST_LINES < count || lines[0].start != 0 {
        return Ok((Reserved::from_vec(Vec::new(alloc)), 0));
    }
    let end = lines[count - 1].start.min(MOST_LENGTH);
    let shift = (end / (count / 2) as u64).checked_ilog2().unwrap_or(0);
    // After the bucket in which the last line starts, one more bucket holds all sectors after that bucket.
    let buckets = (end >> shift) as usize + 2;
    let mut firsts = Reserved::from_vec(Vec::with_capacity(alloc, buckets)?);
    let mut index = 0;
    let mut next = start_of(lines, 1);
    while firsts.len() < buckets {
        let from = (firsts.len() as u64) << shift;
        while next <= from {
            index += 1;
            next = start_of(lines, index + 1);
        }
        firsts.push(index as u16);
    }
    Ok((firsts, shift))
}

/// The start of the line with this index, or `u64::MAX`, which is past every sector, if the line doesn't exist.
#[inline(always)]
fn start_of(lines: &[ResolvedLine], index: usize) -> u64
    ensures { IsStartOf lines.now index result }
{
    match lines.get(index) {
        Some(line) => line.start,
        None => u64::MAX,
    }
}
