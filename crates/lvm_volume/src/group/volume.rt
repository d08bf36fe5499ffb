//! Logical volumes as their sections describe them.

ghost use Rattle.lvm_volume.specs.Prelude.{codes, decimal, map, IfOk, OnOk, result_err, flat_map, list_any, range_with_len, string_bytes, item_view, scalar_view, scalar_views, fields_faults, items_at, number_at, section_at, section_view, volume_faults, volume_fields, volumes_faults, IsPlainStep, IsStep, numbers_faults, is_text_of, is_writable, lists, volume_of};
ghost use Rattle.std.specs.Prelude.{◌≡◌, ◌++◌, ◌+◌, ◌||◌};

use crate::fields::reader::{FieldReader, NumberKind, section_at, texts_at};
use crate::fields::source_line::memory_fault;
use crate::fields::value::items_if_given;
use crate::group::key::Key;
use crate::group::positions::GroupPositions;
use crate::group::segment::{Segments, segments_in};
use dm_table::LoadFault;
use lvm_text::{Scalar, Section};
use std::alloc::{AllocError, Global};

/// A logical volume: its key, whether it is read-only, its segments, and the line of its key.
#[derive(Debug, Drop)]
pub(crate) struct Volume {
    pub name: Key,
    pub ro: bool,
    pub segments: Segments,
    pub line: u64,
}

/// Reads the logical volumes in these sections.
pub(crate) fn volumes_in(
    alloc: Global,
    reader: &mut FieldReader,
    positions: &GroupPositions<'_>,
    sections: &[(&str, &Section<'_>)],
) -> Result<Vec<Volume>, LoadFault>
    ensures step { IsStep (λ check. volumes_faults check (map item_view sections.now)) reader.old reader.new
        (result_err result) }
    ensures value { IfOk result
        (λ v. v.items ≡ map (volume_of positions.now) (map item_view sections.now)) }
{
    let Ok(mut volumes) = Vec::with_capacity(alloc, sections.len()) else {
        return Err(memory_fault());
    };
    for section in sections {
        let volume = volume_of(alloc, reader, positions, *section)?;
        let Ok(()) = volumes.push(volume) else {
            return Err(memory_fault());
        };
    }
    Ok(volumes)
}

/// Reads the logical volume in a section with its key.
fn volume_of(
    alloc: Global,
    reader: &mut FieldReader,
    positions: &GroupPositions<'_>,
    section: (&str, &Section<'_>),
) -> Result<Volume, LoadFault>
    ensures step { IsStep (λ check. volume_faults check (item_view section.entry).1) reader.old reader.new
        (result_err result) }
    ensures value { IfOk result (λ volume. volume ≡ volume_of positions.now (item_view section.entry)) }
{
    let (key, volume) = section;
    let head = head_of(reader, volume)?;
    let sections = segment_sections(alloc, volume, head.segment_count)?;
    let segments = segments_in(alloc, reader, positions, &sections)?;
    let Ok(name) = Key::new(alloc, key) else {
        return Err(memory_fault());
    };
    Ok(Volume {
        name,
        ro: !head.is_writable,
        segments,
        line: volume.line(),
    })
}

/// A logical volume's own fields, without its segments.
#[derive(Clone, Copy)]
struct VolumeHead {
    is_writable: bool,
    segment_count: u64,
}

/// Reads a logical volume's own fields, without its segments.
fn head_of(reader: &mut FieldReader, volume: &Section<'_>) -> Result<VolumeHead, LoadFault>
    ensures step { IsStep (λ check. fields_faults check volume.now volume_fields) reader.old reader.new
        (result_err result) }
    ensures ro { IfOk result (λ head. head.is_writable ≡ is_writable volume.now) }
    ensures count { IfOk result (λ head. head.segment_count ≡ number_at (codes "segment_count") volume.now) }
{
    let status = texts_at(volume, "status")?;
    let segment_count = reader.number(volume, "segment_count", NumberKind::Any)?;
    Ok(VolumeHead {
        is_writable: is_writable(status, volume),
        segment_count,
    })
}

/// The sections of a volume's segments, from segment1 on. Stops at the first key that is missing or has no section, so
/// that a large count in the text costs nothing.
fn segment_sections<'s, 'a>(
    alloc: Global,
    volume: &'s Section<'a>,
    count: u64,
) -> Result<Vec<&'s Section<'a>>, LoadFault>
    ensures step { IsPlainStep (numbers_faults volume.now count) (result_err result) }
    ensures value { IfOk result (λ v. map section_view v.items
        ≡ flat_map (λ i. section_at (codes "segment" ++ decimal i) volume.now) (range_with_len 1 count)) }
{
    let mut sections = Vec::new(alloc);
    let mut key = String::new(alloc);
    for i in 0..count {
        let Ok(()) = put_segment_key(&mut key, i + 1) else {
            return Err(memory_fault());
        };
        let section = section_at(volume, key.as_str())?;
        let Ok(()) = sections.push(section) else {
            return Err(memory_fault());
        };
    }
    Ok(sections)
}

/// Replaces the text of `key` with the key of segment number `i`, so that one string serves all segments.
fn put_segment_key(key: &mut String, i: u64) -> Result<(), AllocError>
    ensures { OnOk result (string_bytes key.new ≡ codes "segment" ++ decimal i) }
{
    key.clear();
    write!(key, "segment{i}")
}

/// Whether a volume with this status may be written. lvm2 can write the permission as WRITE_LOCKED, among the status or
/// the flags, as it does for all volumes of a group that has a system id.
fn is_writable(status: &[Scalar<'_>], volume: &Section<'_>) -> bool
    requires { scalar_views status.now ≡ items_at (codes "status") volume.now }
    ensures { result ≡ is_writable volume.now }
{
    has_text(status, "WRITE")
        || has_text(status, "WRITE_LOCKED")
        || lists(volume, "flags", "WRITE_LOCKED")
}

/// Whether the list under a key contains this string; false if the key is missing or has other content.
pub(crate) fn lists(section: &Section<'_>, key: &str, word: &str) -> bool
    ensures { result ≡ lists key.now word.now section.now }
{
    match items_if_given(section, key) {
        Some(items) => has_text(items, word),
        None => false,
    }
}

/// Whether a list contains this string.
fn has_text(items: &[Scalar<'_>], word: &str) -> bool
    ensures { result ≡ list_any (is_text_of word.now) (scalar_views items.now) }
{
    for item in items {
        if is_text_of(item, word) {
            return true;
        }
    }
    false
}

/// Whether a scalar is this string.
fn is_text_of(item: &Scalar<'_>, word: &str) -> bool
    ensures { result ≡ is_text_of word.now (scalar_view item.now) }
{
    match item {
        Scalar::Text(text) => *text == word,
        Scalar::Int(_) => false,
    }
}
