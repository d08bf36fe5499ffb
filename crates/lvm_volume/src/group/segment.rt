//! Segments of a logical volume as their sections describe them; a segment refers to volumes by their positions.
//!
//! Whether the positions exist is not checked here. A new type of segment is a variant of `SegmentType`, a word of the
//! field `type`, and an arm where segments are checked and where they become lines.

ghost use Rattle.lvm_volume.specs.Prelude.{[], ℕ, List, MatchOption, IfOk, codes, map, result_err, scalar_view, scalar_views, field, field_faults, fields_faults, items_at, number_at, section_view, segment_fields, text_at, IsPlainStep, IsStep, at_key, later_fields, segments_faults, type_fields, named_type, type_text, segment_of, snapshot_in, striped_in, stripes_in, target_of};
ghost use Rattle.std.specs.Prelude.{◌≡◌, ◌+◌, ◌∷◌};
ghost use Rattle.lvm_text.specs.Tree as tree;
ghost use Rattle.lvm_volume.specs.fields.Kinds as kinds;
ghost use Rattle.lvm_volume.specs.declared.group.segment.TypeName.TheVariants as types;

use crate::fields::fits::{are_pairs, has_far, is_half};
use crate::fields::reader::{FieldReader, NumberKind, items_of, node_at, text_at, text_of, wrong};
use crate::fields::source_line::memory_fault;
use crate::fields::value::number_if_given;
use crate::group::positions::{GroupPositions, Positions};
use dm_table::{Listed, LoadFault};
use lvm_text::{Scalar, Section};
use std::alloc::{AllocError, Global};

/// A stripe: the position of its physical volume in the group, and its first extent on that volume. The position is the
/// number of physical volumes if the stripe names none of them.
#[derive(Clone, Copy, Debug)]
pub(crate) struct Stripe {
    pub physical: usize,
    pub extent: u64,
}

/// The stripes of a segment, in order.
pub(crate) type Stripes = Listed<Stripe>;

/// A segment's type, with the stripes or volumes that the segment refers to. The `stripe_size` of a striped segment and
/// the `chunk_size` of a snapshot are in sectors.
#[derive(Debug, Drop)]
pub(crate) enum SegmentType {
    Zero,
    Error,
    Striped {
        stripe_size: u64,
        stripes: Stripes,
    },
    /// A snapshot: the positions of its origin and its store among the volumes of the group. A position is the number
    /// of volumes if the snapshot names none of them.
    Snapshot {
        chunk_size: u64,
        origin: usize,
        store: usize,
    },
}

/// A segment: its first extent in the volume, the number of its extents, and the line of its key.
#[derive(Debug, Drop)]
pub(crate) struct Segment {
    pub start: u64,
    pub count: u64,
    pub target: SegmentType,
    pub line: u64,
}

impl Segment {
    /// The extent of the volume after the last one of the segment.
    pub(crate) fn end(&self) -> u128
        ensures { result ≡ self.now.start + self.now.count }
    {
        u128::from(self.start) + u128::from(self.count)
    }
}

/// The segments of a volume, in the order of their numbers.
pub(crate) type Segments = Listed<Segment>;

/// The stripes that a list of pairs describes. Makes one pass, with one look-up per stripe.
fn stripes_of(
    alloc: Global,
    positions: &Positions<'_>,
    items: &[Scalar<'_>],
) -> Result<Vec<Stripe>, AllocError>
    ensures { IfOk result (λ v. v.items ≡ stripes_in positions.now (scalar_views items.now)) }
{
    let mut stripes = Vec::new(alloc);
    let mut rest = items;
    while let [first, second, more @ ..] = rest {
        let Some((key, extent)) = pair(first, second) else {
            return Ok(stripes);
        };
        stripes.push(Stripe {
            physical: positions.position_of(key),
            extent,
        })?;
        rest = more;
    }
    Ok(stripes)
}

/// The string and the integer of a pair, or `None` if the two scalars aren't a string and an integer.
fn pair<'a>(first: &Scalar<'a>, second: &Scalar<'a>) -> Option<(&'a str, u64)>
    ensures { MatchOption result
        ((keys : List (List ℕ)) (items : List tree.Scalar)
        → stripes_in keys (scalar_view first.now ∷ scalar_view second.now ∷ items) ≡ [])
        (λ pair. (scalar_view first.now ≡ tree.Text pair.0.now)
        × (scalar_view second.now ≡ tree.Int pair.1)) }
{
    match (first, second) {
        (Scalar::Text(key), Scalar::Int(extent)) => Some((*key, *extent)),
        _ => None,
    }
}

/// The types of segments that are supported.
#[derive(Clone, Copy)]
pub(crate) enum TypeName {
    Striped,
    Zero,
    Error,
    Snapshot,
}

/// The type of segment that a word names; `None` if no supported type has this name.
fn type_named(word: &str) -> Option<TypeName>
    ensures { result ≡ named_type word.now }
{
    if word == "striped" {
        Some(TypeName::Striped)
    } else if word == "zero" {
        Some(TypeName::Zero)
    } else if word == "error" {
        Some(TypeName::Error)
    } else if word == "snapshot" {
        Some(TypeName::Snapshot)
    } else {
        None
    }
}

/// The type of the segment in a section.
fn type_at(segment: &Section<'_>) -> Result<TypeName, LoadFault>
    ensures step { IsPlainStep (at_key kinds.TypeWord (codes "type") segment.now) (result_err result) }
    ensures name { IfOk result (λ name. text_at (codes "type") segment.now ≡ type_text name) }
{
    let node = node_at(segment, "type")?;
    let word = text_of(node)?;
    match type_named(word) {
        Some(name) => Ok(name),
        None => Err(wrong(node)),
    }
}

/// Reads the fields that follow the type of a segment and depend on the type.
fn target_at(
    alloc: Global,
    reader: &mut FieldReader,
    positions: &GroupPositions<'_>,
    segment: &Section<'_>,
) -> Result<SegmentType, LoadFault>
    ensures step { IsStep (λ check. fields_faults check segment.now type_fields) reader.old reader.new
        (result_err result) }
    ensures value { IfOk result (λ target. target ≡ target_of positions.now segment.now) }
{
    match type_at(segment)? {
        TypeName::Striped => striped(alloc, reader, &positions.physicals, segment),
        TypeName::Snapshot => snapshot(reader, &positions.volumes, segment),
        TypeName::Zero => Ok(SegmentType::Zero),
        TypeName::Error => Ok(SegmentType::Error),
    }
}

/// Reads a striped segment: its stripes, and the stripe size.
fn striped(
    alloc: Global,
    reader: &mut FieldReader,
    positions: &Positions<'_>,
    segment: &Section<'_>,
) -> Result<SegmentType, LoadFault>
    requires { text_at (codes "type") segment.now ≡ type_text types.Striped }
    ensures step { IsStep (λ check. fields_faults check segment.now later_fields) reader.old reader.new
        (result_err result) }
    ensures value { IfOk result (λ target. target ≡ striped_in positions.now segment.now) }
{
    let parts = reader.number(segment, "stripe_count", NumberKind::Positive)?;
    let stripes = stripes_at(alloc, reader, positions, segment, parts)?;
    let stripe_size = stripe_size_at(reader, segment, parts)?;
    Ok(SegmentType::Striped {
        stripe_size,
        stripes: Stripes::from_vec(stripes),
    })
}

/// Reads the stripes of a segment, of which there must be `parts`.
fn stripes_at(
    alloc: Global,
    reader: &mut FieldReader,
    positions: &Positions<'_>,
    segment: &Section<'_>,
    parts: u64,
) -> Result<Vec<Stripe>, LoadFault>
    requires { parts ≡ number_at (codes "stripe_count") segment.now }
    ensures step { IsStep (at_key kinds.Stripes (codes "stripes") segment.now) reader.old reader.new
        (result_err result) }
    ensures value { IfOk result (λ v. v.items
        ≡ stripes_in positions.now (items_at (codes "stripes") segment.now)) }
{
    let node = node_at(segment, "stripes")?;
    let items = items_of(node)?;
    if !are_pairs(items) || !is_half(parts, items.len()) {
        return Err(wrong(node));
    }
    reader.note(has_far(items), node.line());
    match stripes_of(alloc, positions, items) {
        Ok(stripes) => Ok(stripes),
        Err(_) => Err(memory_fault()),
    }
}

/// Reads the stripe size of a segment with `parts` stripes; returns 0 for a single stripe without a stripe size.
fn stripe_size_at(
    reader: &mut FieldReader,
    segment: &Section<'_>,
    parts: u64,
) -> Result<u64, LoadFault>
    requires striped { text_at (codes "type") segment.now ≡ type_text types.Striped }
    requires parts { parts ≡ number_at (codes "stripe_count") segment.now }
    ensures step { IsStep (λ check. field_faults check segment.now
        (field (codes "stripe_size") kinds.Number kinds.Several)) reader.old reader.new (result_err result) }
    ensures value { IfOk result (λ size. size ≡ number_at (codes "stripe_size") segment.now) }
{
    if 1 < parts {
        reader.number(segment, "stripe_size", NumberKind::Any)
    } else {
        Ok(number_if_given(segment, "stripe_size").unwrap_or(0))
    }
}

/// Reads a snapshot segment, which names its origin and its store by their keys.
fn snapshot(
    reader: &mut FieldReader,
    positions: &Positions<'_>,
    segment: &Section<'_>,
) -> Result<SegmentType, LoadFault>
    requires { text_at (codes "type") segment.now ≡ type_text types.Snapshot }
    ensures step { IsStep (λ check. fields_faults check segment.now later_fields) reader.old reader.new
        (result_err result) }
    ensures value { IfOk result (λ target. target ≡ snapshot_in positions.now segment.now) }
{
    let chunk_size = reader.number(segment, "chunk_size", NumberKind::Any)?;
    let origin = text_at(segment, "origin")?;
    let store = text_at(segment, "cow_store")?;
    Ok(SegmentType::Snapshot {
        chunk_size,
        origin: positions.position_of(origin),
        store: positions.position_of(store),
    })
}

/// Reads the segment in a section.
fn segment_of(
    alloc: Global,
    reader: &mut FieldReader,
    positions: &GroupPositions<'_>,
    segment: &Section<'_>,
) -> Result<Segment, LoadFault>
    ensures step { IsStep (λ check. fields_faults check segment.now segment_fields) reader.old reader.new
        (result_err result) }
    ensures value { IfOk result (λ said. said ≡ segment_of positions.now segment.now) }
{
    let start = reader.number(segment, "start_extent", NumberKind::Extents)?;
    let count = reader.number(segment, "extent_count", NumberKind::Extents)?;
    let target = target_at(alloc, reader, positions, segment)?;
    Ok(Segment {
        start,
        count,
        target,
        line: segment.line(),
    })
}

/// Reads the segments in these sections.
pub(crate) fn segments_in(
    alloc: Global,
    reader: &mut FieldReader,
    positions: &GroupPositions<'_>,
    sections: &[&Section<'_>],
) -> Result<Segments, LoadFault>
    ensures step { IsStep (segments_faults (map section_view sections.now)) reader.old reader.new
        (result_err result) }
    ensures value { IfOk result
        (λ made. made ≡ map (segment_of positions.now) (map section_view sections.now)) }
{
    let Ok(mut segments) = Vec::with_capacity(alloc, sections.len()) else {
        return Err(memory_fault());
    };
    for section in sections {
        let segment = segment_of(alloc, reader, positions, *section)?;
        let Ok(()) = segments.push(segment) else {
            return Err(memory_fault());
        };
    }
    Ok(Segments::from_vec(segments))
}
