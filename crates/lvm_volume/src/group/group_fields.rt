//! Reads the fields of a volume group's metadata, and runs both checks of fields.

ghost use Rattle.lvm_volume.specs.Prelude.{None, Some, MatchResult, map, IfOk, codes, result_err, item_view, sections_of, first_or, Fields, Limits, IsChecked, faults_of_fields, fields_faults, first_of, group_faults, group_fields, inner_sections, number_at, physicals_faults, sections_at, top_fields, volumes_faults, IsPlainStep, IsStep, at_key, FieldReader, first_section, group_of, IsSaid, volumes_said, fields_of, fields_view};
ghost use Rattle.std.specs.Prelude.{◌≡◌};
ghost use Rattle.lvm_text.specs.Tree as tree;
ghost use Rattle.lvm_volume.specs.fields.Kinds as kinds;

use crate::fields::reader::{
    FieldReader, integer_of, missing, node_at, section_at, section_if_given, text_of, wrong,
};
use crate::fields::source_line::memory_fault;
use crate::fields::value::sections_of;
use crate::group::physical::{PhysicalFields, fields_in};
use crate::group::positions::GroupPositions;
use crate::group::volume::{Volume, volumes_in};
use dm_table::LoadFault;
use lvm_text::Section;
use std::alloc::Global;

/// A volume group as its text describes it: its key, the extent size in sectors, the physical volumes, whose disks have
/// no names yet, and the logical volumes.
#[derive(Drop)]
pub(crate) struct GroupFields<'a> {
    pub name: &'a str,
    pub extent_size: u64,
    pub physicals: Vec<PhysicalFields<'a>>,
    pub volumes: Vec<Volume>,
}

/// Reads the fields of the volume group in a text, or returns the first fault of the first check that finds any.
///
/// Cost: near-linear in the number of values in the sections that are read.
pub(crate) fn read_fields<'a>(
    alloc: Global,
    top: &Section<'a>,
) -> Result<GroupFields<'a>, LoadFault>
    ensures checked { IsChecked result (first_or (faults_of_fields Fields top.now)
        (first_of (faults_of_fields (Limits (group_of top.now).extent_size) top.now))) }
    ensures value { IfOk result (IsSaid (first_section (sections_of top.now.values))) }
{
    check_head(top)?;
    let Ok(sections) = sections_of(alloc, top) else {
        return Err(memory_fault());
    };
    match sections.as_slice() {
        [] => Err(missing(top.line())),
        [group] => group_fields(alloc, *group),
        [_, second, ..] => Err(missing(second.1.line())),
    }
}

/// Fails unless the text is the metadata of a volume group, in the known version.
fn check_head(top: &Section<'_>) -> Result<(), LoadFault>
    ensures { IsPlainStep (λ check. fields_faults check top.now top_fields) (result_err result) }
{
    check_title_field(top)?;
    check_version(top)
}

/// Fails unless the title of the text says that it is the metadata of a volume group.
fn check_title_field(top: &Section<'_>) -> Result<(), LoadFault>
    ensures { IsPlainStep (at_key kinds.Title (codes "contents") top.now) (result_err result) }
{
    let node = node_at(top, "contents")?;
    if text_of(node)? == "Text Format Volume Group" {
        Ok(())
    } else {
        Err(wrong(node))
    }
}

/// Fails unless the version of the text is 1, the only known one.
fn check_version(top: &Section<'_>) -> Result<(), LoadFault>
    ensures { IsPlainStep (at_key kinds.Version (codes "version") top.now) (result_err result) }
{
    let node = node_at(top, "version")?;
    if integer_of(node)? == 1 {
        Ok(())
    } else {
        Err(wrong(node))
    }
}

/// The fields of a group itself: a reader that has the extent size, and the sections of the physical volumes and of the
/// logical volumes.
#[derive(Clone, Copy, Drop)]
struct GroupHead<'s, 'a> {
    reader: FieldReader,
    physicals: &'s Section<'a>,
    volumes: Option<&'s Section<'a>>,
}

/// Reads the fields of a group itself, without those of its physical and logical volumes.
fn head_of<'s, 'a>(group: &'s Section<'a>) -> Result<GroupHead<'s, 'a>, LoadFault>
    ensures step { (old new : FieldReader) → MatchResult result
        (λ head. IsStep (λ check. fields_faults check group.now group_fields)
        (record { extent_size = head.reader.extent_size; excess = None }) head.reader None)
        (λ fault. IsStep (λ check. fields_faults check group.now group_fields) old new (Some fault)) }
    ensures size { IfOk result (λ head. head.reader.extent_size ≡ number_at (codes "extent_size") group.now) }
    ensures physicals { IfOk result (λ head. sections_at (codes "physical_volumes") group.now
        ≡ tree.sections_of head.physicals.now.values) }
    ensures volumes { IfOk result (λ head. sections_at (codes "logical_volumes") group.now
        ≡ inner_sections head.volumes) }
{
    let reader = FieldReader::of_group(group)?;
    let physicals = section_at(group, "physical_volumes")?;
    let volumes = section_if_given(group, "logical_volumes")?;
    Ok(GroupHead {
        reader,
        physicals,
        volumes,
    })
}

/// Reads all fields in the section of a group; `group` is the section with its key.
#[tactic(auto, unfolding(crate::specs::fields::Fields::group_faults))]
fn group_fields<'a>(
    alloc: Global,
    group: (&'a str, &Section<'a>),
) -> Result<GroupFields<'a>, LoadFault>
    ensures checked { let section = (item_view group.entry).1 in
        IsChecked result (first_or (group_faults Fields section)
        (first_of (group_faults (Limits (number_at (codes "extent_size") section)) section))) }
    ensures value { IfOk result (IsSaid (item_view group.entry)) }
{
    let head = head_of(group.1)?;
    let mut reader = head.reader;
    let physicals = physicals_of(alloc, &mut reader, head.physicals)?;
    let volumes = volumes_of(alloc, &mut reader, head.physicals, head.volumes)?;
    match reader.excess {
        Some(fault) => Err(fault),
        None => Ok(GroupFields {
            name: group.0,
            extent_size: reader.extent_size,
            physicals,
            volumes,
        }),
    }
}

/// Reads the fields of all physical volumes in a section.
fn physicals_of<'a>(
    alloc: Global,
    reader: &mut FieldReader,
    section: &Section<'a>,
) -> Result<Vec<PhysicalFields<'a>>, LoadFault>
    ensures step { IsStep (λ check. physicals_faults check (tree.sections_of section.now.values))
        reader.old reader.new (result_err result) }
    ensures value { IfOk result
        (λ v. map fields_view v.items ≡ map fields_of (tree.sections_of section.now.values)) }
{
    let Ok(sections) = sections_of(alloc, section) else {
        return Err(memory_fault());
    };
    fields_in(alloc, reader, &sections)
}

/// Reads all logical volumes in a section, or none if there is no section; their stripes refer to `physicals` by key.
fn volumes_of<'a>(
    alloc: Global,
    reader: &mut FieldReader,
    physicals: &Section<'a>,
    volumes: Option<&Section<'a>>,
) -> Result<Vec<Volume>, LoadFault>
    ensures step { IsStep (λ check. volumes_faults check (inner_sections volumes.entry))
        reader.old reader.new (result_err result) }
    ensures value { IfOk result (λ v. v.items
        ≡ volumes_said (tree.sections_of physicals.now.values) (inner_sections volumes.entry)) }
{
    let Some(section) = volumes else {
        return Ok(Vec::new(alloc));
    };
    let Ok(positions) = GroupPositions::new(alloc, physicals, section) else {
        return Err(memory_fault());
    };
    let Ok(sections) = sections_of(alloc, section) else {
        return Err(memory_fault());
    };
    volumes_in(alloc, reader, &positions, &sections)
}
