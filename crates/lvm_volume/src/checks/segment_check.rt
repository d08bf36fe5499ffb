//! Checks what segments refer to: each stripe names a physical volume of the group, and each snapshot names two of its
//! logical volumes, of which one can be its origin and the other its own store.
//!
//! The first segment in the text that the check refuses is at fault. A text may contain segments in any order, so the
//! first one is the one on the least line, not the one with the least number.

ghost use Rattle.lvm_volume.specs.Prelude.{None, length, not, nat_lt, result_err, list_any, Unknown, IsChecked, first_of, at_line, is_unknown, least_line, least_line_of, snapshot_faults_in, test_of, is_bad_snapshot, is_bad_target};
ghost use Rattle.std.specs.Prelude.{◌≡◌, ◌==◌};
ghost use Rattle.lvm_volume.specs.checks.Extents as spec;

use crate::fields::source_line::{memory_fault, source_fault};
use crate::group::physical::Physical;
use crate::group::roles::{Role, extents_of, role_at, roles_of, segments_at};
use crate::group::segment::{Segment, SegmentType, Stripe};
use crate::group::volume::Volume;
use dm_table::{LoadFault, LoadKind};
use std::alloc::Global;

/// A check of one segment.
#[derive(Drop)]
enum SegmentCheck<'g> {
    /// The segment refers to a volume that doesn't exist; `physicals` and `volumes` count those that do.
    Unknown {
        physicals: usize,
        volumes: usize,
    },
    /// The segment is a snapshot that doesn't fit these volumes and their roles.
    Snapshot {
        volumes: &'g [Volume],
        roles: &'g [Role],
    },
}

/// Fails at the first segment in the text that refers to a physical or logical volume that doesn't exist.
pub(crate) fn check_targets(physicals: &[Physical], volumes: &[Volume]) -> Result<(), LoadFault>
    ensures { result_err result ≡ first_of (at_line Unknown
        (least_line_of (λ alone. is_unknown (length physicals.now) (length volumes.now)) volumes.now)) }
{
    let check = SegmentCheck::Unknown {
        physicals: physicals.len(),
        volumes: volumes.len(),
    };
    check_least(LoadKind::Unknown, least_line_of(&check, volumes))
}

/// Fails at the first segment in the text that is a snapshot which doesn't fit the other volumes.
///
/// Cost: linear in the volumes and their segments.
pub(crate) fn check_snapshots(alloc: Global, volumes: &[Volume]) -> Result<(), LoadFault>
    ensures { IsChecked result (first_of (snapshot_faults_in volumes.now)) }
{
    let Ok(roles) = roles_of(alloc, volumes) else {
        return Err(memory_fault());
    };
    let check = SegmentCheck::Snapshot {
        volumes,
        roles: &roles,
    };
    check_least(LoadKind::Snapshot, least_line_of(&check, volumes))
}

/// Fails with a fault of this kind on the line, if there is a line.
fn check_least(kind: LoadKind, line: Option<u64>) -> Result<(), LoadFault>
    ensures { result_err result ≡ first_of (at_line kind line) }
{
    match line {
        Some(line) => Err(source_fault(kind, line)),
        None => Ok(()),
    }
}

/// The least line of a segment, in any volume, that the check refuses.
fn least_line_of(check: &SegmentCheck<'_>, volumes: &[Volume]) -> Option<u64>
    ensures { result ≡ least_line_of (test_of check.now) volumes.now }
{
    let mut least = None;
    let mut at = volumes.len();
    while at > 0 {
        at -= 1;
        least = least_line(check, volumes[at].segments.as_slice(), least);
    }
    least
}

/// The least line among `others`, if there is one, and the lines of this volume's segments that the check refuses.
fn least_line(check: &SegmentCheck<'_>, segments: &[Segment], others: Option<u64>) -> Option<u64>
    ensures { result ≡ least_line (test_of check.now (length segments.now == 1)) segments.now others }
{
    let alone = segments.len() == 1;
    let mut least = others;
    let mut at = segments.len();
    while at > 0 {
        at -= 1;
        if is_hit(check, alone, &segments[at]) {
            least = Some(lesser(segments[at].line, least));
        }
    }
    least
}

/// The lesser of two lines, or the first one if there is no other.
fn lesser(line: u64, other: Option<u64>) -> u64
    ensures { result ≡ spec.lesser line other }
{
    match other {
        Some(other) => line.min(other),
        None => line,
    }
}

/// Whether the check refuses a segment; `alone` is true if the segment is the only one of its volume.
fn is_hit(check: &SegmentCheck<'_>, alone: bool, segment: &Segment) -> bool
    ensures { result ≡ test_of check.now alone segment.now }
{
    match check {
        SegmentCheck::Unknown { physicals, volumes } => is_unknown(*physicals, *volumes, segment),
        SegmentCheck::Snapshot { volumes, roles } => is_bad_snapshot(
            volumes, roles, alone, segment,
        ),
    }
}

/// Whether a segment refers to a physical or logical volume that doesn't exist.
fn is_unknown(physicals: usize, volumes: usize, segment: &Segment) -> bool
    ensures { result ≡ is_unknown physicals volumes segment.now }
{
    match &segment.target {
        SegmentType::Striped { stripes, .. } => has_unknown(physicals, stripes.as_slice()),
        SegmentType::Snapshot { origin, store, .. } => !(*origin < volumes) || !(*store < volumes),
        SegmentType::Zero | SegmentType::Error => false,
    }
}

/// Whether one of the stripes is on a physical volume that doesn't exist.
fn has_unknown(physicals: usize, stripes: &[Stripe]) -> bool
    ensures { result ≡ list_any (λ stripe. not (nat_lt stripe.physical physicals)) stripes.now }
{
    stripes.iter().any(|stripe| !(stripe.physical < physicals))
}

/// Whether a segment is a snapshot that doesn't fit these volumes; `alone` is true if it is the only one of its volume.
fn is_bad_snapshot(volumes: &[Volume], roles: &[Role], alone: bool, segment: &Segment) -> bool
    ensures { result ≡ is_bad_snapshot volumes.now roles.now alone segment.now }
{
    match &segment.target {
        SegmentType::Snapshot { origin, store, .. } => {
            !alone
                || role_at(roles, *origin).is_record()
                || !role_at(roles, *store).is_store()
                || extents_of(segments_at(volumes, *origin)) != u128::from(segment.count)
        }
        SegmentType::Striped { .. } | SegmentType::Zero | SegmentType::Error => false,
    }
}
