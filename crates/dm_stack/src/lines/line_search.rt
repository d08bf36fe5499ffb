//! Finding the line of a sector by binary search over the starts of a device's lines.
//!
//! No other module finds lines, and each comparison of a start with the sector is counted by `starts_by`. A
//! search covers the lines of the sector's bucket (`resolved_table`); the first of these is never compared, since
//! it starts at the sector or before. In a device of more than three lines, the line found last is remembered,
//! with its end. If the next sector looked for is that end, as in a range over many lines, the sector is in the
//! next line. This is tested once for each search, on the sector alone, without reading a line or counting a
//! comparison.
//!
//! The branch-free search among few lines, and remembering the last line, are here for speed alone: `search`
//! finds any line. RESULTS.md lists the requests that gain as *through 8 levels of stripes and lines*. If there
//! is no last line, its end must be past every device. If you change these, measure those requests, and random
//! ones on 65,536 lines, before and after.

ghost use Rattle.dm_stack.specs.Prelude.{length, nat_le, EndsAt, Finds, EndsAreSmall, StartsAfter, StartsBy};
ghost use Rattle.std.specs.Prelude.{◌≡◌, ◌⊎◌, ◌<◌, ◌≤◌, ◌+◌, ◌^◌};

use crate::id::DeviceId;
use crate::lines::resolved_line::ResolvedLine;
use crate::lines::resolved_table::ResolvedTable;

/// The line that was found last: its device, its index in the device, and its end, the sector after its last one.
#[derive(Clone, Copy)]
pub(crate) struct LastLine {
    device: DeviceId,
    index: usize,
    end: u64,
}

impl LastLine {
    /// The value before any search, whose end is past every device, so that no sector equals the end.
    pub(crate) fn none() -> LastLine
        ensures { result.end + 1 ≡ 2 ^ 64 }
    {
        LastLine {
            device: DeviceId::new(0),
            index: 0,
            end: u64::MAX,
        }
    }
}

/// Finds the last line of a device that starts at the sector or before. Returns its index, and how many starts
/// were compared with the sector.
///
/// Records the line as the one found last, unless the device has at most three lines.
pub(crate) fn find(
    table: &ResolvedTable,
    device: DeviceId,
    last: &mut LastLine,
    sector: u64,
) -> (usize, u64)
    requires first { StartsBy table.now 0 sector }
    requires small { EndsAreSmall table.now }
    requires follows { last.old.device ≡ device → last.old.end ≡ sector
        → StartsBy table.now (last.old.index + 1) sector × StartsAfter table.now (last.old.index + 2) sector }
    ensures found { Finds table.now sector result }
    ensures last { (last.new ≡ last.old)
        ⊎ (last.new.device ≡ device × EndsAt table.now last.new.index last.new.end) }
{
    let lines = table.lines();
    if lines.len() < 4 {
        find_of_few(lines, sector)
    } else {
        find_among(table, device, last, sector)
    }
}

/// Finds the line of a sector among at most three lines, without a branch that depends on the sector, because
/// among few lines it would be hard to predict.
#[inline(always)]
fn find_of_few(lines: &[ResolvedLine], sector: u64) -> (usize, u64)
    requires first { StartsBy lines.now 0 sector }
    requires few { length lines.now < 4 }
    ensures { Finds lines.now sector result }
{
    let mut comparisons = 0;
    if lines.len() == 2 {
        let is_past_first = starts_by(lines[1].start, sector, &mut comparisons);
        return (usize::from(is_past_first), comparisons);
    }
    if lines.len() == 3 {
        let is_past_first = starts_by(lines[1].start, sector, &mut comparisons);
        let is_past_second = is_past_first & starts_by(lines[2].start, sector, &mut comparisons);
        return (
            usize::from(is_past_first) + usize::from(is_past_second),
            comparisons,
        );
    }
    (0, comparisons)
}

/// Whether a line with this start starts at the sector or before. Counts one comparison.
#[inline(always)]
fn starts_by(start: u64, sector: u64, comparisons: &mut u64) -> bool
    requires { comparisons.old + 1 < 2 ^ 64 }
    ensures starts { result ≡ nat_le start sector }
    ensures counted { comparisons.new ≡ comparisons.old + 1 }
{
    *comparisons += 1;
    start <= sector
}

/// Finds the line of a sector among many lines. Not inlined, so that look-ups among few lines stay fast.
#[inline(never)]
fn find_among(
    table: &ResolvedTable,
    device: DeviceId,
    last: &mut LastLine,
    sector: u64,
) -> (usize, u64)
    requires first { StartsBy table.now 0 sector }
    requires small { EndsAreSmall table.now }
    requires follows { last.old.device ≡ device → last.old.end ≡ sector
        → StartsBy table.now (last.old.index + 1) sector × StartsAfter table.now (last.old.index + 2) sector }
    ensures found { Finds table.now sector result }
    ensures device { last.new.device ≡ device }
    ensures end { EndsAt table.now last.new.index last.new.end }
{
    let (index, comparisons) = after_last(table, device, last, sector);
    let lines = table.lines();
    let line = &lines[index];
    *last = LastLine {
        device,
        index,
        end: line.start + line.len,
    };
    (index, comparisons)
}

/// The line after the one found last, if the sector is the end of the latter; else the line that a search finds.
fn after_last(table: &ResolvedTable, device: DeviceId, last: &LastLine, sector: u64) -> (usize, u64)
    requires first { StartsBy table.now 0 sector }
    requires follows { last.now.device ≡ device → last.now.end ≡ sector
        → StartsBy table.now (last.now.index + 1) sector × StartsAfter table.now (last.now.index + 2) sector }
    ensures { Finds table.now sector result }
{
    if last.end == sector && last.device == device {
        // The line found last is in the table, so adding 1 to its index can't overflow.
        let lines = table.lines();
        prove!(last.index < lines.len());
        return (last.index + 1, 0);
    }
    search(table.lines(), table.range_of(sector), sector)
}

/// Finds the line of a sector within a range of lines, given as the index of the first and their number.
fn search(lines: &[ResolvedLine], range: (usize, usize), sector: u64) -> (usize, u64)
    requires some { 0 < range.1 }
    requires within { range.0 + range.1 ≤ length lines.now }
    requires from { StartsBy lines.now range.0 sector }
    requires next { StartsAfter lines.now (range.0 + range.1) sector }
    ensures { Finds lines.now sector result }
{
    let (mut index, mut count) = range;
    let mut comparisons = 0;
    while count > 1 {
        let half = count / 2;
        if starts_by(lines[index + half].start, sector, &mut comparisons) {
            index += half;
            count -= half;
        } else {
            count = half;
        }
    }
    (index, comparisons)
}
