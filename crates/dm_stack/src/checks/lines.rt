//! The checks of lines, all in one walk over the lines of all devices.
//!
//! By definition, each check goes over all lines after the check before has passed. Because so many lines don't
//! fit into a cache, each line is read only once: the first fault of each check is recorded, and `load` reports
//! these faults in the order of the checks. To add a check of lines, add a field to `BadLines` and a clause in
//! `specs/checks/BadLines.antt`.

ghost use Rattle.dm_stack.specs.Prelude.{All, map, nat_lt, Gap, Overlap, HaveSmallEnds, resolved_line, AreFirst, noted_device, noted_line, or_bad};
ghost use Rattle.dm_stack.specs.declared.checks.limits.TheConstants.{MOST_LENGTH};
ghost use Rattle.std.specs.Prelude.{◌≡◌, ◌+◌, ◌≤◌, if◌then◌else◌};

use crate::checks::faults::Placed;
use crate::checks::ranges::{names_missing, passes_end};
use crate::checks::snapshots::is_bad_snapshot;
use crate::checks::stripes::has_bad_stripes;
use crate::lines::resolved::Resolved;
use crate::lines::resolved_line::ResolvedLine;
use dm_table::{DeviceSpec, Line, LoadFault, LoadKind};

/// The first fault that each check of lines has found so far.
#[derive(Clone, Copy, Drop)]
pub(crate) struct BadLines {
    pub empty: Option<LoadFault>,
    pub misplaced: Option<LoadFault>,
    pub unknown: Option<LoadFault>,
    pub stripe: Option<LoadFault>,
    pub range: Option<LoadFault>,
    pub snapshot: Option<LoadFault>,
}

/// Finds the first fault of each check of lines.
///
/// Ends of lines must be within the limit. Cost: a walk over the lines and their columns.
pub(crate) fn bad_lines(stack: &Resolved) -> BadLines
    requires { All (λ device. HaveSmallEnds device.lines) stack.now.devices }
    ensures { AreFirst stack.now result }
{
    let mut found = BadLines {
        empty: None,
        misplaced: None,
        unknown: None,
        stripe: None,
        range: None,
        snapshot: None,
    };
    let by_ids = stack.by_ids();
    for (id, device) in stack.devices().iter().enumerate() {
        note_device(&mut found, stack, device, by_ids[id].table.lines());
    }
    found
}

/// Records the faults of one device: a fault if the device has no lines, else the faults of its lines.
fn note_device(found: &mut BadLines, stack: &Resolved, device: &DeviceSpec, by_ids: &[ResolvedLine])
    requires by_ids { by_ids.now ≡ map (resolved_line stack.now) device.now.lines }
    requires small { HaveSmallEnds device.now.lines }
    ensures { found.new ≡ noted_device stack.now found.old device.now }
{
    let lines = device.lines.as_slice();
    note(&mut found.empty, LoadKind::Empty, device, lines.is_empty());
    let mut end = 0;
    for (index, line) in by_ids.iter().enumerate() {
        end = note_line(found, stack, lines.len(), end, &lines[index], line);
    }
}

/// Records the faults of a line of a device with `count` lines, where the line before ends at `end`; returns the
/// end of this line.
fn note_line(
    found: &mut BadLines,
    stack: &Resolved,
    count: usize,
    end: u64,
    line: &Line,
    by_ids: &ResolvedLine,
) -> u64
    requires by_ids { by_ids.now ≡ resolved_line stack.now line.now }
    requires small { line.now.start + line.now.len ≤ MOST_LENGTH }
    ensures found { found.new ≡ noted_line stack.now count end found.old line.now }
    ensures end { result ≡ line.now.start + line.now.len }
{
    let kind = misplaced_kind(end, by_ids.start);
    note(&mut found.empty, LoadKind::Empty, line, by_ids.len == 0);
    note(&mut found.misplaced, kind, line, by_ids.start != end);
    note(
        &mut found.unknown,
        LoadKind::Unknown,
        line,
        names_missing(stack, by_ids),
    );
    note(
        &mut found.stripe,
        LoadKind::Stripe,
        line,
        has_bad_stripes(line, &by_ids.target),
    );
    note(
        &mut found.range,
        LoadKind::Range,
        line,
        passes_end(stack, by_ids),
    );
    let snapshot = is_bad_snapshot(stack, count, line, &by_ids.target);
    note(&mut found.snapshot, LoadKind::Snapshot, line, snapshot);
    by_ids.start + by_ids.len
}

/// The kind of fault of a line that doesn't start where the line before ends: a gap, or an overlap.
fn misplaced_kind(end: u64, start: u64) -> LoadKind
    ensures { result ≡ (if nat_lt end start then Gap else Overlap) }
{
    if end < start {
        LoadKind::Gap
    } else {
        LoadKind::Overlap
    }
}

/// Records a fault at this element, if the element is bad and the check has no fault yet.
fn note<T: Placed>(first: &mut Option<LoadFault>, kind: LoadKind, item: &T, bad: bool)
    ensures { first.new ≡ or_bad first.old kind (T.place_of item.now) bad }
{
    if bad && first.is_none() {
        *first = Some(LoadFault {
            kind,
            at: item.place(),
        });
    }
}
