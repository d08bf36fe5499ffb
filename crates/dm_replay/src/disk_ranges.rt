//! The values that were stored in the sectors of a disk.
//!
//! A map has the ranges, keyed by first sector. They don't overlap, so only the last one that begins at or before a
//! sector can contain it, and one look-up finds it. A range that continues the one before is joined to it.

ghost use Rattle.dm_replay.specs.Prelude.{ℕ, None, [], OnOk, IfSome, AreFirst, AreApart, Has, IsBare, IsCleared, IsCut, IsFirstFrom, IsLastBefore, IsRoomMade, KeepsCuts, KeepsStored, NoneFrom, Shows, Stored, held, spanned, stored_in};
ghost use Rattle.std.specs.Prelude.{◌≡◌, ◌+◌, ◌<◌, ◌≤◌, ◌^◌};

use crate::range_values::RangeValues;
use crate::value::Value;
use dm_stack::DiskId;
use std::alloc::{AllocError, Global};
use std::collections::BTreeMap;
use std::marker::Model;

/// The value that was stored in each sector of a disk, if one was.
#[derive(Drop)]
pub(crate) struct DiskRanges {
    ranges: BTreeMap<u64, RangeValues>,
}

impl Model for DiskRanges {
    ghost use Rattle.dm_replay.specs.Base.{ℕ, List};
    ghost use Rattle.dm_replay.specs.declared.range_values.RangeValues.{RangeValues};
    ghost use Rattle.dm_replay.specs.Stored.{AreApart};

    ghost Value = { List (ℕ × RangeValues) };

    ghost view = { λ all. all.ranges.entries };

    ghost invariant = { λ all. AreApart all.ranges };
}

impl DiskRanges {
    /// A `DiskRanges` in which nothing is stored. Allocates nothing.
    pub(crate) fn new(alloc: Global) -> DiskRanges
        ensures { result ≡ [] }
    {
        DiskRanges {
            ranges: BTreeMap::new(alloc),
        }
    }

    /// The longest front of the `len` sectors from `start` on whose values count up from the first sector's value. It
    /// ends at the end of a stored range, or where the next stored range begins.
    ///
    /// Cost: about `log n` steps if `n` ranges are stored. Allocates nothing.
    pub(crate) fn first_values(&self, disk: DiskId, start: u64, len: u64) -> RangeValues
        requires some { 1 ≤ len }
        requires small { start + len < 2 ^ 64 }
        ensures { AreFirst (λ (on sector : ℕ). held on (stored_in self.now sector) sector) disk start len result }
    {
        if let Some((from, range)) = range_with(&self.ranges, start) {
            return range.rest(start - from, len);
        }
        RangeValues {
            first: Value::Old {
                disk,
                sector: start,
            },
            len: bare_len(&self.ranges, start, len),
        }
    }

    /// Stores a range of values in the sectors from `start` on.
    ///
    /// Cost: about `log n` steps for each stored range that is overwritten or joined, if there are `n` of them.
    ///
    /// # Errors
    ///
    /// `AllocError` when out of memory; part of what was stored in these sectors may be lost.
    pub(crate) fn store(&mut self, start: u64, range: RangeValues) -> Result<(), AllocError>
        requires { start + range.len < 2 ^ 64 }
        ensures { OnOk result
            ((sector : ℕ) → stored_in self.new sector
            ≡ spanned (stored_in self.old) start range.len range.first sector) }
    {
        store_in(&mut self.ranges, start, range)?;
        Ok(())
    }
}

/// Stores a range of values in the sectors from `start` on.
fn store_in(
    ranges: &mut BTreeMap<u64, RangeValues>,
    start: u64,
    range: RangeValues,
) -> Result<(), AllocError>
    requires small { start + range.len < 2 ^ 64 }
    requires apart { AreApart ranges.old }
    ensures apart { AreApart ranges.new }
    ensures stored { OnOk result
        ((stored : Stored) → Shows ranges.old stored
        → Shows ranges.new (spanned stored start range.len range.first)) }
{
    if range.len == 0 {
        return Ok(());
    }
    let first: Value = range.first;
    let len = range.len;
    let end = start + len;
    let goes_on = make_room(ranges, start, end, &range)?;
    ranges.insert(start, RangeValues { first, len })?;
    join_front(ranges, start, goes_on)?;
    join_at(ranges, end)?;
    Ok(())
}

/// Removes what is stored in the sectors from `start` to before `end`, for a new range there. Returns whether the new
/// range may continue the one before it. A single search suffices if nothing was stored in these sectors.
fn make_room(
    ranges: &mut BTreeMap<u64, RangeValues>,
    start: u64,
    end: u64,
    values: &RangeValues,
) -> Result<bool, AllocError>
    requires order { start < end }
    requires apart { AreApart ranges.old }
    ensures apart { AreApart ranges.new }
    ensures none { OnOk result (NoneFrom ranges.new start end) }
    ensures made { OnOk result (IsRoomMade ranges.old ranges.new start end) }
{
    match last_before(ranges, end) {
        None => return Ok(false),
        Some((at, range)) => {
            if at < start && range.len <= start - at {
                return Ok(range.joins(values));
            }
            cut(ranges, Some((at, range)), end)?;
        }
    }
    let before = last_before(ranges, start);
    cut(ranges, before, start)?;
    clear(ranges, start, end);
    Ok(true)
}

/// The last range that begins before `sector`, with the sector where it begins.
fn last_before(ranges: &BTreeMap<u64, RangeValues>, sector: u64) -> Option<(u64, RangeValues)>
    ensures some { IfSome result (λ found. IsLastBefore ranges.now sector found.0 found.1) }
    ensures none { result ≡ None → NoneFrom ranges.now 0 sector }
{
    match ranges.range(..sector).next_back() {
        Some((start, range)) => Some((*start, *range)),
        None => None,
    }
}

/// The first sector where a range begins, from `start` to before `end`.
fn first_from(ranges: &BTreeMap<u64, RangeValues>, start: u64, end: u64) -> Option<u64>
    requires { start ≤ end }
    ensures some { IfSome result (IsFirstFrom ranges.now start end) }
    ensures none { result ≡ None → NoneFrom ranges.now start end }
{
    match ranges.range(start..end).next() {
        Some((first, _)) => Some(*first),
        None => None,
    }
}

/// The range that contains `sector`, with the sector where it begins.
fn range_with(ranges: &BTreeMap<u64, RangeValues>, sector: u64) -> Option<(u64, RangeValues)>
    requires small { sector + 1 < 2 ^ 64 }
    requires apart { AreApart ranges.now }
    ensures some { IfSome result (λ found. Has ranges.now sector found.0 found.1) }
    ensures none { result ≡ None → IsBare ranges.now sector }
{
    let (start, range) = last_before(ranges, sector + 1)?;
    if sector - start < range.len {
        Some((start, range))
    } else {
        None
    }
}

/// How many of the `len` sectors from `start` on come before the next range. No range contains the first of them.
fn bare_len(ranges: &BTreeMap<u64, RangeValues>, start: u64, len: u64) -> u64
    requires some { 1 ≤ len }
    requires small { start + len < 2 ^ 64 }
    requires apart { AreApart ranges.now }
    requires bare { IsBare ranges.now start }
    ensures some { 1 ≤ result }
    ensures most { result ≤ len }
    ensures bare { (i : ℕ) → i < result → IsBare ranges.now (start + i) }
{
    match first_from(ranges, start, start + len) {
        Some(next) => next - start,
        None => len,
    }
}

/// Splits `last`, the last range that begins before `sector`, in two at `sector`, if it contains that sector.
fn cut(
    ranges: &mut BTreeMap<u64, RangeValues>,
    last: Option<(u64, RangeValues)>,
    sector: u64,
) -> Result<(), AllocError>
    requires apart { AreApart ranges.old }
    requires some { IfSome last (λ found. IsLastBefore ranges.old sector found.0 found.1) }
    requires none { last ≡ None → NoneFrom ranges.old 0 sector }
    ensures apart { AreApart ranges.new }
    ensures same { OnOk result (KeepsStored ranges.old ranges.new) }
    ensures cuts { OnOk result (KeepsCuts ranges.old ranges.new) }
    ensures cut { OnOk result (IsCut ranges.new sector) }
{
    let Some((start, range)) = last else {
        return Ok(());
    };
    let front = sector - start;
    if front >= range.len {
        return Ok(());
    }
    ranges.insert(start, range.with_len(front))?;
    ranges.insert(sector, range.rest(front, range.len - front))?;
    Ok(())
}

/// Removes all ranges that begin in the sectors from `start` to before `end`.
fn clear(ranges: &mut BTreeMap<u64, RangeValues>, start: u64, end: u64)
    requires order { start ≤ end }
    requires apart { AreApart ranges.old }
    ensures apart { AreApart ranges.new }
    ensures none { NoneFrom ranges.new start end }
    ensures cleared { IsCleared ranges.old ranges.new start end }
{
    while let Some(at) = first_from(ranges, start, end) {
        ranges.remove(&at);
    }
}

/// Calls `join_at` if `goes_on` is true: the range that begins at `sector` may continue the one before.
fn join_front(
    ranges: &mut BTreeMap<u64, RangeValues>,
    sector: u64,
    goes_on: bool,
) -> Result<(), AllocError>
    requires { AreApart ranges.old }
    ensures apart { AreApart ranges.new }
    ensures same { OnOk result (KeepsStored ranges.old ranges.new) }
{
    if goes_on {
        join_at(ranges, sector)
    } else {
        Ok(())
    }
}

/// Joins the range that begins at `sector` to the range that ends there, if it continues that range.
fn join_at(ranges: &mut BTreeMap<u64, RangeValues>, sector: u64) -> Result<(), AllocError>
    requires { AreApart ranges.old }
    ensures apart { AreApart ranges.new }
    ensures same { OnOk result (KeepsStored ranges.old ranges.new) }
{
    let Some(after) = ranges.get(&sector).copied() else {
        return Ok(());
    };
    let Some((start, range)) = last_before(ranges, sector) else {
        return Ok(());
    };
    if start + range.len != sector || !range.joins(&after) {
        return Ok(());
    }
    ranges.remove(&sector);
    ranges.insert(start, range.with_len(range.len + after.len))?;
    Ok(())
}
