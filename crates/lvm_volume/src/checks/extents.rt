//! Checks how extents are used: physical volumes fit their devices, the segments of a volume follow each other, and no
//! two stripes use the same extent of a physical volume.
//!
//! The module `used` keeps the ranges in use on each physical volume, over all logical volumes in text order.

ghost use Rattle.lvm_volume.specs.Prelude.{[], List, None, Some, true, false, not, nat_lt, length, IfOk, OnOk, result_err, list_any, IsChecked, first_of, Claim, claim_on, extents_at, is_misplaced, is_too_long, meets, segment_faults, size_faults, used_after, used_by, Claimed, Holds, claims_by};
ghost use Rattle.lvm_volume.specs.checks.Extents as spec;
ghost use Rattle.lvm_volume.specs.checks.Extents.{volume_faults};
ghost use Rattle.std.specs.Prelude.{◌≡◌, ◌==◌, ◌+◌, ◌*◌, ◌/◌, ◌%◌, ◌^◌, ◌<◌, ◌∷◌, ◌||◌};

use crate::checks::used::take;
use crate::fields::source_line::{memory_fault, source_fault};
use crate::group::physical::Physical;
use crate::group::segment::{Segment, SegmentType, Stripe};
use crate::group::volume::Volume;
use dm_table::{LoadFault, LoadKind};
use std::alloc::{AllocError, Global};
use std::collections::BTreeMap;

/// Fails at the first physical volume that is longer than its device.
pub(crate) fn check_sizes(extent_size: u64, physicals: &[Physical]) -> Result<(), LoadFault>
    ensures { result_err result ≡ first_of (size_faults extent_size physicals.now) }
{
    for physical in physicals {
        if is_too_long(extent_size, physical) {
            return Err(source_fault(LoadKind::Extents, physical.line));
        }
    }
    Ok(())
}

/// Whether a physical volume is longer than its device. Computes with 128 bits, because the end may not fit 64.
fn is_too_long(extent_size: u64, physical: &Physical) -> bool
    ensures { result ≡ is_too_long extent_size physical.now }
{
    u128::from(physical.size) < end_of(physical.start, physical.count, extent_size)
}

/// The sector after the last of `count` extents, the first of which starts at sector `start`.
fn end_of(start: u64, count: u64, extent_size: u64) -> u128
    ensures { result ≡ start + count * extent_size }
{
    u128::from(start) + u128::from(count) * u128::from(extent_size)
}

/// Fails at the first segment that is misplaced, or that uses an extent which another stripe uses.
///
/// Cost: near-linear in segments and stripes.
pub(crate) fn check_extents(
    alloc: Global,
    physicals: &[Physical],
    volumes: &[Volume],
) -> Result<(), LoadFault>
    ensures { IsChecked result (first_of (volume_faults physicals.now [] volumes.now)) }
{
    let Ok(mut maps) = maps_of(alloc, physicals.len()) else {
        return Err(memory_fault());
    };
    check_volumes(physicals, &mut maps, volumes)
}

/// Fails at the first misplaced segment; no extents are in use before the first volume.
fn check_volumes(
    physicals: &[Physical],
    maps: &mut [BTreeMap<u64, u64>],
    volumes: &[Volume],
) -> Result<(), LoadFault>
    requires len { length maps.old ≡ length physicals.now }
    requires held { Holds maps.old [] }
    ensures { IsChecked result (first_of (volume_faults physicals.now [] volumes.now)) }
{
    for volume in volumes {
        check_segments(physicals, maps, volume.segments.as_slice())?;
    }
    Ok(())
}

/// An empty map of ranges in use for each physical volume.
fn maps_of(alloc: Global, physicals: usize) -> Result<Vec<BTreeMap<u64, u64>>, AllocError>
    ensures held { IfOk result (λ maps. Holds maps.items []) }
    ensures len { IfOk result (λ maps. length maps.items ≡ physicals) }
{
    let mut maps = Vec::new(alloc);
    for made in 0..physicals {
        maps.push(BTreeMap::new(alloc))?;
    }
    Ok(maps)
}

/// Fails at the first misplaced segment of one volume, given the ranges that earlier volumes use.
fn check_segments(
    physicals: &[Physical],
    maps: &mut [BTreeMap<u64, u64>],
    segments: &[Segment],
) -> Result<(), LoadFault>
    requires { length maps.old ≡ length physicals.now }
    ensures checked { (used : List Claim) → Holds maps.old used
        → IsChecked result (first_of (segment_faults physicals.now used 0 segments.now)) }
    ensures held { (used : List Claim) → Holds maps.old used
        → OnOk result (Holds maps.new (used_after used segments.now)) }
    ensures len { length maps.new ≡ length maps.old }
{
    let mut end = 0;
    for segment in segments {
        let Ok(misplaced) = is_misplaced(physicals, maps, end, segment) else {
            return Err(memory_fault());
        };
        if misplaced {
            return Err(source_fault(LoadKind::Extents, segment.line));
        }
        end = segment.end();
    }
    Ok(())
}

/// Whether a segment doesn't start at extent `end`, is badly divided, or clashes. If not, it claims its extents.
fn is_misplaced(
    physicals: &[Physical],
    maps: &mut [BTreeMap<u64, u64>],
    end: u128,
    segment: &Segment,
) -> Result<bool, AllocError>
    requires { length maps.old ≡ length physicals.now }
    ensures value { (used : List Claim) → Holds maps.old used
        → IfOk result (λ misplaced. misplaced ≡ is_misplaced physicals.now used end segment.now) }
    ensures held { (used : List Claim) → Holds maps.old used
        → IfOk result (λ misplaced. misplaced ≡ false
        → Holds maps.new (used_by used (spec.claims_of segment.now))) }
    ensures len { length maps.new ≡ length maps.old }
{
    if u128::from(segment.start) != end || segment.count == 0 {
        return Ok(true);
    }
    match &segment.target {
        SegmentType::Striped { stripes, .. } => {
            let stripes = stripes.as_slice();
            let parts = stripes.len() as u64;
            if parts == 0 || segment.count % parts != 0 {
                return Ok(true);
            }
            claim_all(physicals, maps, segment.count / parts, stripes)
        }
        SegmentType::Zero | SegmentType::Error | SegmentType::Snapshot { .. } => Ok(false),
    }
}

/// Whether one of the stripes clashes. The stripes claim extents in order, up to the first that clashes.
fn claim_all(
    physicals: &[Physical],
    maps: &mut [BTreeMap<u64, u64>],
    share: u64,
    stripes: &[Stripe],
) -> Result<bool, AllocError>
    requires len { length maps.old ≡ length physicals.now }
    requires some { 0 < share }
    ensures claimed { (used : List Claim) → Holds maps.old used
        → IfOk result (Claimed physicals.now maps.new (claims_by share stripes.now) used) }
    ensures len { length maps.new ≡ length maps.old }
{
    for stripe in stripes {
        if passes_physical_end(physicals, stripe, share) {
            return Ok(true);
        }
        if !claim_extents(maps, stripe.physical, stripe.extent, stripe.extent + share)? {
            return Ok(true);
        }
    }
    Ok(false)
}

/// Whether the `share` extents of a stripe extend beyond the end of its physical volume. Subtracts instead of adding,
/// so that nothing can overflow.
fn passes_physical_end(physicals: &[Physical], stripe: &Stripe, share: u64) -> bool
    requires { 0 < share }
    ensures value { result
        ≡ nat_lt (extents_at physicals.now stripe.now.physical) (stripe.now.extent + share) }
    ensures within { result ≡ false → stripe.now.physical < length physicals.now }
    ensures fits { result ≡ false → stripe.now.extent + share < 2 ^ 64 }
{
    match physicals.get(stripe.physical) {
        Some(physical) => physical.count < share || physical.count - share < stripe.extent,
        None => true,
    }
}

/// Claims a range of extents on a physical volume, unless one of them is in use; returns whether all were free.
fn claim_extents(
    maps: &mut [BTreeMap<u64, u64>],
    physical: usize,
    first: u64,
    end: u64,
) -> Result<bool, AllocError>
    requires within { physical < length maps.old }
    requires some { first < end }
    ensures free { (used : List Claim) → Holds maps.old used
        → IfOk result (λ free. free ≡ not (list_any (meets (claim_on physical first end)) used)) }
    ensures held { (used : List Claim) → Holds maps.old used
        → IfOk result (λ free. free ≡ true → Holds maps.new (claim_on physical first end ∷ used)) }
    ensures len { length maps.new ≡ length maps.old }
{
    take(&mut maps[physical], first, end)
}
