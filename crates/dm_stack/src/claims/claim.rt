//! Claims: the lower sectors that each line of a stack relies on.
//!
//! A line claims its spans, so a new target needs no code for claims except for its spans. If a new target shares
//! sectors in another way, add a variant to `Use` (`dm_table`), and arms in `may_share` and in the functions of
//! `reach`.

ghost use Rattle.dm_stack.specs.Prelude.{[], ℕ, IfOk, OnOk, false, length, map, not, All, flat_map, list_any, slice_index_or, resolved_device, claims, may_share, is_device, is_named, line_names, is_past, line_claims};
ghost use Rattle.dm_stack.specs.lines.Span.{passes_end, span_claim};
ghost use Rattle.std.specs.Prelude.{◌≡◌, ◌<◌, ◌∷◌, ◌++◌, ◌&&◌};

use crate::id::{DeviceId, Lower};
use crate::lines::resolved::Resolved;
use crate::lines::resolved_line::ResolvedLine;
use crate::lines::span::{Span, Spans};
use dm_table::Use;
use std::alloc::{AllocError, Global};

/// The range of sectors of a lower device or disk that a device claims; `end` is the sector after the last.
#[derive(Clone, Copy, Drop)]
pub(crate) struct Claim {
    pub device: DeviceId,
    pub to: Lower,
    pub start: u64,
    pub end: u64,
    pub kind: Use,
}

/// Whether claims of these two kinds may have sectors in common.
pub(crate) fn may_share(one: Use, other: Use) -> bool
    ensures { result ≡ may_share one other }
{
    match (one, other) {
        (Use::Reading, Use::Reading | Use::Serving) | (Use::Serving, Use::Reading) => true,
        _ => false,
    }
}

/// Collects all claims of a stack, in the order of devices and lines, and then of columns, or store before
/// origin.
///
/// No line may pass the end of a device or disk that it names. Fails only when out of memory. Cost: linear in the
/// lines and their columns.
pub(crate) fn claims(alloc: Global, stack: &Resolved) -> Result<Vec<Claim>, AllocError>
    requires { All (λ device. All (λ line. passes_end stack.now line ≡ false) device.table)
        (map (resolved_device stack.now) stack.now.devices) }
    ensures { IfOk result (λ all. all.items ≡ claims stack.now) }
{
    let mut claims = Vec::new(alloc);
    for (id, device) in stack.by_ids().iter().enumerate() {
        add_lines(&mut claims, stack, DeviceId::new(id), device.table.lines())?;
    }
    Ok(claims)
}

/// Adds the claims of the lines of a device.
fn add_lines(
    claims: &mut Vec<Claim>,
    stack: &Resolved,
    device: DeviceId,
    lines: &[ResolvedLine],
) -> Result<(), AllocError>
    requires { All (λ line. passes_end stack.now line ≡ false) lines.now }
    ensures { OnOk result
        (claims.new.items ≡ claims.old.items ++ flat_map (line_claims stack.now device) lines.now) }
{
    for line in lines {
        add_line(claims, stack, device, line)?;
    }
    Ok(())
}

/// Adds the claims of one line of a device, one for each of its spans.
fn add_line(
    claims: &mut Vec<Claim>,
    stack: &Resolved,
    device: DeviceId,
    line: &ResolvedLine,
) -> Result<(), AllocError>
    requires { passes_end stack.now line.now ≡ false }
    ensures { OnOk result (claims.new.items ≡ claims.old.items ++ line_claims stack.now device line.now) }
{
    for span in Spans::of(line) {
        add_claim(claims, stack, device, span)?;
    }
    Ok(())
}

/// Adds the claim of a device for one span, which must lie within its lower device or disk.
fn add_claim(
    claims: &mut Vec<Claim>,
    stack: &Resolved,
    device: DeviceId,
    span: Span,
) -> Result<(), AllocError>
    requires { is_past stack.now span ≡ false }
    ensures { OnOk result (claims.new.items ≡ claims.old.items ++ span_claim stack.now device span ∷ []) }
{
    let whole = stack.len_of(span.to);
    let claim = Claim {
        device,
        to: span.to,
        start: span.offset,
        end: match span.len {
            Some(len) => span.offset + len,
            None => whole,
        },
        kind: span.kind,
    };
    claims.push(claim)?;
    Ok(())
}

/// For each device with an id below `devices`, whether no claim is on the device.
///
/// Fails only when out of memory. Cost: linear in the claims and in `devices`.
pub(crate) fn unclaimed(
    alloc: Global,
    claims: &[Claim],
    devices: usize,
) -> Result<Vec<bool>, AllocError>
    ensures count { IfOk result (λ free. length free.items ≡ devices) }
    ensures each { IfOk result (λ free. (device : ℕ) → device < devices
        → slice_index_or free.items device false
        ≡ not (list_any (λ claim. is_device device claim.to) claims.now)) }
{
    let mut free = vec![in alloc; true; devices]?;
    for claim in claims {
        note_claim(&mut free, claim.to);
    }
    Ok(free)
}

/// Marks a device as claimed, if the claim is on a device with an entry in `free`.
fn note_claim(free: &mut [bool], to: Lower)
    ensures each { (device : ℕ) → slice_index_or free.new device false
        ≡ (slice_index_or free.old device false && not (is_device device to)) }
{
    if let Lower::Device(id) = to
        && id.index() < free.len()
    {
        free[id.index()] = false;
    }
}

/// Whether any line of the stack names the device with this id.
///
/// Cost: linear in the lines and their columns.
pub(crate) fn is_named(stack: &Resolved, device: DeviceId) -> bool
    ensures { result ≡ is_named stack.now device }
{
    stack
        .by_ids()
        .iter()
        .any(|other| lines_name(other.table.lines(), device))
}

/// Whether one of these lines names the device.
fn lines_name(lines: &[ResolvedLine], device: DeviceId) -> bool
    ensures { result ≡ list_any (line_names device) lines.now }
{
    lines.iter().any(|line| line_names(line, device))
}

/// Whether the line names the device.
fn line_names(line: &ResolvedLine, device: DeviceId) -> bool
    ensures { result ≡ line_names device line.now }
{
    for span in Spans::of(line) {
        if is_device(span.to, device) {
            return true;
        }
    }
    false
}

/// Whether `to` is the device with the id `device`.
fn is_device(to: Lower, device: DeviceId) -> bool
    ensures { result ≡ is_device device to }
{
    match to {
        Lower::Device(id) => id == device,
        Lower::Disk(_) => false,
    }
}
