//! The extents of a physical volume that are in use, as ranges that don't overlap.
//!
//! A map contains the ranges by their first extents. Among the ranges that begin before the end of a new one, only the
//! last can overlap it, so one look-up is enough, and the check of all extents is near-linear.

ghost use Rattle.lvm_volume.specs.Prelude.{List, ℕ, true, not, IfOk, list_any, HasRanges, reaches};
ghost use Rattle.std.specs.Prelude.{◌≡◌, ◌<◌, ◌∷◌};

use std::alloc::{AllocError, Global};
use std::collections::BTreeMap;

/// Claims the extents from `first` up to but not including `end`, and returns whether all of them were free. If one was
/// in use, nothing changes.
///
/// Cost: about `log n` steps if there are `n` ranges.
pub(crate) fn take(used: &mut BTreeMap<u64, u64>, first: u64, end: u64) -> Result<bool, AllocError>
    requires { first < end }
    ensures free { (ranges : List (ℕ × ℕ)) → HasRanges used.old ranges
        → IfOk result (λ free. free ≡ not (list_any (reaches first end) ranges)) }
    ensures taken { (ranges : List (ℕ × ℕ)) → HasRanges used.old ranges
        → IfOk result (λ free. free ≡ true → HasRanges used.new ((first, end) ∷ ranges)) }
{
    if is_used(used, first, end) {
        return Ok(false);
    }
    used.insert(first, end)?;
    Ok(true)
}

/// Whether an extent from `first` up to but not including `end` is in use.
fn is_used(used: &BTreeMap<u64, u64>, first: u64, end: u64) -> bool
    requires { first < end }
    ensures { (ranges : List (ℕ × ℕ)) → HasRanges used.now ranges
        → result ≡ list_any (reaches first end) ranges }
{
    match used.range(..end).next_back() {
        Some((_, last)) => first < *last,
        None => false,
    }
}
