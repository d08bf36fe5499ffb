//! The first clash of a stack's claims: the first claim that clashes with an earlier one.
//!
//! The claims are sorted by their starts once. A walk in that order then finds out whether any of the first n
//! claims clash, and a binary search finds the greatest n for which none do. The next claim is the first that
//! clashes with an earlier one.

ghost use Rattle.dm_stack.specs.Prelude.{IfOk, Some, false, length, slice_get, take, true, All, IsNonDecreasingBy, IsPermutation, IsFirstClash, is_same_lower, Claim, IsCounted, clash_with, is_tidy_to, meets, numbered};
ghost use Rattle.std.specs.Prelude.{◌≡◌, ◌+◌, ◌<◌};

use crate::claims::claim::{Claim, may_share};
use crate::claims::clash::Clash;
use crate::claims::reach::Reaches;
use crate::id::Lower;
use std::alloc::{AllocError, Global};

/// A claim and its number in the list of the stack's claims.
#[derive(Clone, Copy, Drop)]
pub(crate) struct Numbered {
    number: usize,
    claim: Claim,
}

/// Finds the first clash of these claims, on devices and disks with ids below these counts; None exactly if no
/// two claims clash.
///
/// Fails only when out of memory. Cost: sorting the claims, and a walk over them for each binary digit of their
/// number, with memory for a copy of each.
pub(crate) fn first_clash(
    alloc: Global,
    claims: &[Claim],
    devices: usize,
    disks: usize,
) -> Result<Option<Clash>, AllocError>
    requires { All (λ claim. IsCounted devices disks claim.to) claims.now }
    ensures { IfOk result (λ found. IsFirstClash claims.now found) }
{
    let order = in_order(alloc, claims)?;
    if is_tidy_to(alloc, &order, claims.len(), devices, disks)? {
        return Ok(None);
    }
    let tidy = tidy_len(alloc, &order, devices, disks)?;
    Ok(clash_at(claims, tidy))
}

/// The claims with their numbers, sorted by the starts of the claims.
fn in_order(alloc: Global, claims: &[Claim]) -> Result<Vec<Numbered>, AllocError>
    ensures same { IfOk result (λ order. IsPermutation (numbered 0 claims.now) order.items) }
    ensures sorted { IfOk result (λ order. IsNonDecreasingBy (λ next. next.claim.start) order.items) }
{
    let mut order = Vec::new(alloc);
    for (number, claim) in claims.iter().enumerate() {
        let claim = *claim;
        order.push(Numbered { number, claim })?;
    }
    order.sort_unstable_by_key(|next| next.claim.start);
    Ok(order)
}

/// Whether no two claims with numbers below `count` clash.
fn is_tidy_to(
    alloc: Global,
    order: &[Numbered],
    count: usize,
    devices: usize,
    disks: usize,
) -> Result<bool, AllocError>
    requires counted { All (λ next. IsCounted devices disks next.claim.to) order.now }
    requires sorted { IsNonDecreasingBy (λ next. next.claim.start) order.now }
    ensures { IfOk result (λ tidy. tidy ≡ is_tidy_to count order.now) }
{
    let mut reaches = Reaches::new(alloc, devices, disks)?;
    for next in order {
        if next.number < count {
            if reaches.at(next.claim.to).meets(&next.claim) {
                return Ok(false);
            }
            reaches.add(&next.claim);
        }
    }
    Ok(true)
}

/// The greatest count for which no two claims with numbers below the count clash. Some two claims must clash.
fn tidy_len(
    alloc: Global,
    order: &[Numbered],
    devices: usize,
    disks: usize,
) -> Result<usize, AllocError>
    requires counted { All (λ next. IsCounted devices disks next.claim.to) order.now }
    requires sorted { IsNonDecreasingBy (λ next. next.claim.start) order.now }
    requires clash { is_tidy_to (length order.now) order.now ≡ false }
    ensures within { IfOk result (λ tidy. tidy < length order.now) }
    ensures tidy { IfOk result (λ tidy. is_tidy_to tidy order.now ≡ true) }
    ensures next { IfOk result (λ tidy. is_tidy_to (tidy + 1) order.now ≡ false) }
{
    let mut tidy = 0;
    let mut clashing = order.len();
    while tidy + 1 < clashing {
        let middle = tidy + (clashing - tidy) / 2;
        if is_tidy_to(alloc, order, middle, devices, disks)? {
            tidy = middle;
        } else {
            clashing = middle;
        }
    }
    Ok(tidy)
}

/// The clash of the claim at this index with the first claim that it clashes with.
fn clash_at(claims: &[Claim], index: usize) -> Option<Clash>
    requires { index < length claims.now }
    ensures { (later : Claim) → slice_get claims.now index ≡ Some later
        → result ≡ clash_with (take index claims.now) later }
{
    let later = &claims[index];
    for earlier in &claims[..index] {
        if meets(earlier, later) {
            return Some(Clash {
                lower: later.to,
                sector: earlier.start.max(later.start),
                first: earlier.device,
                second: later.device,
            });
        }
    }
    None
}

/// Whether two claims clash at any sector.
fn meets(one: &Claim, other: &Claim) -> bool
    ensures { result ≡ meets one.now other.now }
{
    is_same_lower(one.to, other.to)
        && one.start.max(other.start) < one.end.min(other.end)
        && !may_share(one.kind, other.kind)
}

/// Whether both are the same device, or both the same disk.
fn is_same_lower(one: Lower, other: Lower) -> bool
    ensures { result ≡ is_same_lower one other }
{
    one == other
}
