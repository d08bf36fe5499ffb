//! Device names of logical volumes: a group, a volume and perhaps a layer, with each hyphen inside a part doubled,
//! joined by single hyphens. A hyphen that ends a part thus differs from the hyphens inside it, and a name can be split
//! in only one way, as a clause of `split_name` says. To change which parts are valid, change `specs/Names` first.

ghost use Rattle.lvm_volume.specs.Prelude.{ℕ, List, IfOk, IfSome, IfNone, OnOk, length, option_map, IsTrue, list_all, string_bytes, NameParts, name_parts, is_letter, begins_with, part_fault, layer_fault, or_later, doubled, undoubled, fault_of, joined, built, Returns, with_hyphen, Builds, IsSplit, IsSpaced, parts_view, spaced, undoubled_parts, slice_length, first_slice, later_slices, slices_of};
ghost use Rattle.std.specs.Prelude.{◌≡◌, ◌++◌, ◌<◌, ◌^◌};

use crate::fault::NameFault;
use dm_table::{CheckFault, Name};
use std::alloc::{AllocError, Global};

/// The parts of a name as slices of the name, with hyphens still doubled.
#[derive(Clone, Copy, Debug, PartialEq, Eq)]
pub struct Parts<'a> {
    pub vg: &'a str,
    pub lv: &'a str,
    pub layer: Option<&'a str>,
}

/// Whether a byte is allowed in a part of a name.
fn is_letter(byte: u8) -> bool
    ensures { result ≡ is_letter byte }
{
    byte.is_ascii_alphanumeric() || matches!(byte, b'+' | b'_' | b'.' | b'-')
}

/// Whether a part begins with this byte.
fn begins_with(part: &[u8], byte: u8) -> bool
    ensures { result ≡ begins_with byte part.now }
{
    !part.is_empty() && part[0] == byte
}

/// Whether all bytes are allowed in a part of a name.
fn are_letters(part: &[u8]) -> bool
    ensures { result ≡ list_all is_letter part.now }
{
    part.iter().all(|byte| is_letter(*byte))
}

/// The fault of a volume group's or logical volume's name, if it has one.
fn part_fault(part: &[u8]) -> Option<NameFault>
    ensures { result ≡ part_fault part.now }
{
    if part.is_empty() {
        return Some(NameFault::Empty);
    }
    if !are_letters(part) {
        return Some(NameFault::Letter);
    }
    if begins_with(part, b'-') {
        Some(NameFault::HyphenFirst)
    } else {
        None
    }
}

/// The fault of a layer's name, if it has one.
fn layer_fault(layer: Option<&str>) -> Option<NameFault>
    ensures { result ≡ layer_fault (option_map (λ l. l.now) layer.entry) }
{
    let bytes = layer?.as_bytes();
    if begins_with(bytes, b'_') {
        Some(NameFault::Letter)
    } else {
        part_fault(bytes)
    }
}

/// The first fault of the parts, in order.
fn parts_fault(vg: &str, lv: &str, layer: Option<&str>) -> Option<NameFault>
    ensures { result ≡ or_later (part_fault vg.now) (or_later (part_fault lv.now)
        (layer_fault (option_map (λ l. l.now) layer.entry))) }
{
    if let Some(fault) = part_fault(vg.as_bytes()) {
        return Some(fault);
    }
    if let Some(fault) = part_fault(lv.as_bytes()) {
        return Some(fault);
    }
    layer_fault(layer)
}

/// The length in bytes of a part with each hyphen doubled.
#[tactic(auto, using(crate::proofs::NameLengths::length_doubled))]
fn doubled_length(part: &str) -> u128
    ensures len { result ≡ length (doubled part.now) }
    ensures small { result < 2 ^ 65 }
{
    let hyphens = part.as_bytes().iter().filter(|byte| **byte == b'-').count();
    u128::from(part.len() as u64) + u128::from(hyphens as u64)
}

/// The length in bytes of a layer with each hyphen doubled, plus one for the hyphen before it; 0 without a layer.
fn layer_length(layer: Option<&str>) -> u128
    ensures len { result ≡ length (with_hyphen (option_map doubled (option_map (λ l. l.now) layer.entry))) }
    ensures small { result < 2 ^ 66 }
{
    match layer {
        Some(layer) => doubled_length(layer) + 1,
        None => 0,
    }
}

/// Why no name can be built from these parts; `None` if one can. Allocates nothing.
pub(crate) fn name_fault(vg: &str, lv: &str, layer: Option<&str>) -> Option<NameFault>
    ensures { result ≡ fault_of (name_parts vg.now lv.now layer.entry) }
{
    if let Some(fault) = parts_fault(vg, lv, layer) {
        return Some(fault);
    }
    if doubled_length(vg) + 1 + doubled_length(lv) + layer_length(layer) <= 127 {
        None
    } else {
        Some(NameFault::Long)
    }
}

/// Appends a part with each hyphen doubled.
fn push_doubled(text: &mut String, part: &str) -> Result<(), AllocError>
    requires { IsTrue (list_all is_letter part.now) }
    ensures { OnOk result (string_bytes text.new ≡ string_bytes text.old ++ doubled part.now) }
{
    for byte in part.as_bytes() {
        text.push(*byte as char)?;
        if *byte == b'-' {
            text.push('-')?;
        }
    }
    Ok(())
}

/// The name that consists of the parts with each hyphen doubled, joined by single hyphens.
fn joined(alloc: Global, vg: &str, lv: &str, layer: Option<&str>) -> Result<String, AllocError>
    requires vg { IsTrue (list_all is_letter vg.now) }
    requires lv { IsTrue (list_all is_letter lv.now) }
    requires layer { IfSome layer (λ l. IsTrue (list_all is_letter l.now)) }
    ensures { IfOk result (λ text. string_bytes text ≡ joined (name_parts vg.now lv.now layer.entry)) }
{
    let mut text = String::new(alloc);
    push_doubled(&mut text, vg)?;
    text.push('-')?;
    push_doubled(&mut text, lv)?;
    if let Some(layer) = layer {
        text.push('-')?;
        push_doubled(&mut text, layer)?;
    }
    Ok(text)
}

/// Builds the device-mapper name of a logical volume, or of a layer of it.
///
/// The parts are checked in order: a part may not be empty (`Empty`), contain a byte that isn't allowed (`Letter`, also
/// if a layer begins with an underscore) or begin with a hyphen (`HyphenFirst`). Then the whole name may not have more
/// than 127 bytes (`Long`). `Memory` is returned only if an allocation was refused. Source: lvm(8), "Valid names";
/// which bytes are allowed is this project's own selection.
pub fn build_name(alloc: Global, vg: &str, lv: &str, layer: Option<&str>) -> Result<Name, NameFault>
    ensures { Returns result (built (name_parts vg.now lv.now layer.entry)) }
{
    if let Some(fault) = parts_fault(vg, lv, layer) {
        return Err(fault);
    }
    let Ok(text) = joined(alloc, vg, lv, layer) else {
        return Err(NameFault::Memory);
    };
    // All of these bytes may occur in a device name, so only the length can be wrong.
    match Name::new(alloc, text.as_str()) {
        Ok(name) => Ok(name),
        Err(CheckFault::Form) => Err(NameFault::Long),
        Err(CheckFault::Memory) => Err(NameFault::Memory),
    }
}

/// How many bytes of a name come before its first single hyphen.
fn slice_length(bytes: &[u8]) -> usize
    ensures { result ≡ slice_length bytes.now }
{
    let mut at = 0;
    while at < bytes.len() {
        if bytes[at] != b'-' {
            at += 1;
        } else if at + 1 < bytes.len() && bytes[at + 1] == b'-' {
            at += 2;
        } else {
            return at;
        }
    }
    at
}

/// The part of a name before its first single hyphen, and the text after this hyphen, if there is one.
fn cut(name: &str) -> (&str, Option<&str>)
    ensures first { result.0.now ≡ first_slice name.now }
    ensures later { option_map (λ later. later.now) result.1 ≡ later_slices name.now }
{
    let (first, rest) = name.split_at(slice_length(name.as_bytes()));
    (first, rest.strip_prefix('-'))
}

/// The slices of a name between its single hyphens, valid or not; `None` unless there are two or three.
fn slices_of(name: &str) -> Option<Parts<'_>>
    ensures { option_map parts_view result ≡ slices_of name.now }
{
    let (vg, rest) = cut(name);
    let (lv, rest) = cut(rest?);
    let Some(rest) = rest else {
        return Some(Parts {
            vg,
            lv,
            layer: None,
        });
    };
    let (layer, more) = cut(rest);
    if more.is_some() {
        return None;
    }
    Some(Parts {
        vg,
        lv,
        layer: Some(layer),
    })
}

/// Splits a name into its parts, as slices with hyphens still doubled; `None` exactly if no parts build this name.
/// `undouble` turns such a slice into the part. Allocates nothing.
///
/// Source: dmsetup(8), splitname.
pub fn split_name(name: &str) -> Option<Parts<'_>>
    ensures some { IfSome result (λ slices. IsSplit name.now (parts_view slices)) }
    ensures none { IfNone result ((p : NameParts) → ¬ (Builds p name.now)) }
    // A name can be split in only one way.
    ensures one { (p q : NameParts) → Builds p name.now → Builds q name.now → p ≡ q }
{
    let parts = slices_of(name)?;
    if name.len() <= 127 && parts_fault(parts.vg, parts.lv, parts.layer).is_none() {
        Some(parts)
    } else {
        None
    }
}

/// A text with each pair of hyphens, taken from the left, replaced by one hyphen; turns a slice of a name into the
/// part. Fails only if memory runs out.
pub fn undouble(alloc: Global, text: &str) -> Result<String, AllocError>
    ensures text { IfOk result (λ s. string_bytes s ≡ undoubled text.now) }
    ensures part { (part : List ℕ) → text.now ≡ doubled part → IfOk result (λ s. string_bytes s ≡ part) }
{
    let mut whole = String::new(alloc);
    let mut rest = text;
    while let Some((before, after)) = rest.split_once("--") {
        whole.push_str(before)?;
        whole.push('-')?;
        rest = after;
    }
    whole.push_str(rest)?;
    Ok(whole)
}

/// The parts of a name, given its slices, separated by single spaces.
fn spaced(alloc: Global, slices: Parts<'_>) -> Result<String, AllocError>
    ensures { IfOk result (λ text. string_bytes text ≡ spaced (undoubled_parts (parts_view slices.entry))) }
{
    let mut text = undouble(alloc, slices.vg)?;
    text.push(' ')?;
    text.push_str(undouble(alloc, slices.lv)?.as_str())?;
    if let Some(layer) = slices.layer {
        text.push(' ')?;
        text.push_str(undouble(alloc, layer)?.as_str())?;
    }
    Ok(text)
}

/// The parts of a name, separated by single spaces; `None` exactly if no parts build this name. Fails only if memory
/// runs out.
///
/// Source: dmsetup(8), splitname.
pub fn spaced_parts(alloc: Global, name: &str) -> Result<Option<String>, AllocError>
    ensures some { IfOk result (λ found. IfSome found (λ text. IsSpaced name.now (string_bytes text))) }
    ensures none { IfOk result (λ found. IfNone found ((p : NameParts) → ¬ (Builds p name.now))) }
{
    let Some(slices) = split_name(name) else {
        return Ok(None);
    };
    Ok(Some(spaced(alloc, slices)?))
}
