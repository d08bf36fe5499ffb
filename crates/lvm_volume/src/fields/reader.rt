//! Reads the fields of a metadata text: looks each field up once, and returns its content if that is valid.
//!
//! There are two checks of fields, each of which is defined over the whole text: whether fields are present and valid,
//! and whether their integers are within the limits. One pass runs both: it stops at the first invalid field, and keeps
//! the fault of the first integer above its limit until the end (`IsStep` in `specs/fields/Steps.antt`).

ghost use Rattle.lvm_volume.specs.Prelude.{[], ℕ, Bool, List, false, None, Some, IfErr, IfOk, MatchResult, codes, result_err, Tree, node_of, content_view, node_view, scalar_views, Source, fault_at, field, field_faults, inner_sections, is_far, number_at, text_at, items_at, section_at, sections_at, source_faults, FieldReader, IsPlainStep, IsStep, after, at_key, number_kind};
ghost use Rattle.std.specs.Prelude.{◌≡◌, ◌∷◌, if◌then◌else◌};
ghost use Rattle.lvm_text.specs.Tree as tree;
ghost use Rattle.dm_table.specs.declared.load.load_fault.LoadKind.TheVariants as loads;
ghost use Rattle.lvm_volume.specs.fields.Kinds as kinds;
ghost use Rattle.lvm_volume.specs.fields.Fields as spec;

use crate::fields::fits::{MOST, are_texts, is_far_product};
use crate::fields::source_line::source_fault;
use dm_table::{LoadFault, LoadKind};
use lvm_text::{Node, Scalar, Section, Value};

/// Which numbers a field may have.
#[derive(Clone, Copy)]
pub(crate) enum NumberKind {
    /// Any integer.
    Any,
    /// An integer of 1 or more.
    Positive,
    /// A number of extents: any integer. The limit applies to it, and also to its size in sectors.
    Extents,
}

impl NumberKind {
    /// Whether a number is valid for a field of this kind.
    fn has(self, number: u64) -> bool
        ensures { (section : Tree) → result ≡ spec.fits (number_kind self) section (tree.Whole (tree.Int number)) }
    {
        match self {
            NumberKind::Positive => 0 < number,
            NumberKind::Any | NumberKind::Extents => true,
        }
    }

    /// Whether a number is above 2^50; a number of extents also if it is above 2^50 when counted in sectors.
    fn is_far(self, extent_size: u64, number: u64) -> bool
        ensures { result ≡ is_far extent_size (number_kind self) (tree.Whole (tree.Int number)) }
    {
        match self {
            NumberKind::Extents => MOST < number || is_far_product(number, extent_size),
            NumberKind::Any | NumberKind::Positive => MOST < number,
        }
    }
}

/// The state while a group's fields are read: its extent size in sectors, and the first fault of exceeding a limit.
#[derive(Clone, Copy, Drop)]
pub(crate) struct FieldReader {
    pub extent_size: u64,
    pub excess: Option<LoadFault>,
}

impl FieldReader {
    /// A reader that has read a group's extent size, and no other field.
    pub(crate) fn of_group(group: &Section<'_>) -> Result<FieldReader, LoadFault>
        ensures passed { IfOk result (λ reader. (reader.extent_size ≡ number_at (codes "extent_size") group.now)
            × IsStep (at_key kinds.Positive (codes "extent_size") group.now)
            (record { extent_size = reader.extent_size; excess = None }) reader None) }
        ensures failed { (old new : FieldReader) → IfErr result (λ fault.
            IsStep (at_key kinds.Positive (codes "extent_size") group.now) old new (Some fault)) }
    {
        let mut reader = FieldReader {
            extent_size: 0,
            excess: None,
        };
        let extent_size = reader.number(group, "extent_size", NumberKind::Positive)?;
        Ok(FieldReader {
            extent_size,
            excess: reader.excess,
        })
    }

    /// The number under a required key. If the number is above its limit, the reader keeps a fault for it.
    pub(crate) fn number(
        &mut self,
        section: &Section<'_>,
        key: &str,
        kind: NumberKind,
    ) -> Result<u64, LoadFault>
        ensures step { IsStep (at_key (number_kind kind) key.now section.now) self.old self.new (result_err result) }
        ensures value { IfOk result (λ number. number ≡ number_at key.now section.now) }
    {
        let node = node_at(section, key)?;
        let number = integer_of(node)?;
        if !kind.has(number) {
            return Err(wrong(node));
        }
        self.note(kind.is_far(self.extent_size, number), node.line());
        Ok(number)
    }

    /// Keeps a fault on this line if an integer there is above its limit, unless the reader already has a fault.
    pub(crate) fn note(&mut self, is_far: bool, line: u64)
        ensures { self.new ≡ after self.old (if is_far then source_faults loads.Limit line else []) }
    {
        if is_far && self.excess.is_none() {
            self.excess = Some(source_fault(LoadKind::Limit, line));
        }
    }
}

/// The node under a key, or a fault if the key is missing.
pub(crate) fn node_at<'s, 'a>(
    section: &'s Section<'a>,
    key: &str,
) -> Result<&'s Node<'a>, LoadFault>
    ensures { MatchResult result
        (λ node. node_of key.now section.now.values ≡ Some (node_view node.now))
        (λ fault. (node_of key.now section.now.values ≡ None)
        × (fault ≡ fault_at Source loads.Field section.now.line)) }
{
    match section.get(key) {
        Some(node) => Ok(node),
        None => Err(missing(section.line())),
    }
}

/// The fault of a field that is missing from the section on this line.
pub(crate) fn missing(line: u64) -> LoadFault
    ensures { result ≡ fault_at Source loads.Field line }
{
    source_fault(LoadKind::Field, line)
}

/// The fault of a field whose content is invalid.
pub(crate) fn wrong(node: &Node<'_>) -> LoadFault
    ensures { result ≡ fault_at Source loads.Field (node_view node.now).line }
{
    source_fault(LoadKind::Field, node.line())
}

/// The integer in a field, or a fault if the field contains something else.
pub(crate) fn integer_of(node: &Node<'_>) -> Result<u64, LoadFault>
    ensures { MatchResult result
        (λ number. content_view node.now.value ≡ tree.Whole (tree.Int number))
        (λ fault. ((test : ℕ → Bool) → spec.is_number_with test (content_view node.now.value) ≡ false)
        × (fault ≡ fault_at Source loads.Field (node_view node.now).line)) }
{
    match &node.value {
        Value::Int(number) => Ok(*number),
        Value::Text(_) | Value::List(_) | Value::Section(_) => Err(wrong(node)),
    }
}

/// The string in a field, or a fault if the field contains something else.
pub(crate) fn text_of<'a>(node: &Node<'a>) -> Result<&'a str, LoadFault>
    ensures { MatchResult result
        (λ text. content_view node.now.value ≡ tree.Whole (tree.Text text.now))
        (λ fault. ((test : List ℕ → Bool) → spec.is_text_with test (content_view node.now.value) ≡ false)
        × (fault ≡ fault_at Source loads.Field (node_view node.now).line)) }
{
    match &node.value {
        Value::Text(text) => Ok(*text),
        Value::Int(_) | Value::List(_) | Value::Section(_) => Err(wrong(node)),
    }
}

/// The list in a field, or a fault if the field contains something else.
pub(crate) fn items_of<'s, 'a>(node: &'s Node<'a>) -> Result<&'s [Scalar<'a>], LoadFault>
    ensures { MatchResult result
        (λ items. content_view node.now.value ≡ tree.Items (scalar_views items.now))
        (λ fault. ((test : List tree.Scalar → Bool) → spec.is_list_with test (content_view node.now.value) ≡ false)
        × (fault ≡ fault_at Source loads.Field (node_view node.now).line)) }
{
    match &node.value {
        Value::List(items) => Ok(items.as_slice()),
        Value::Int(_) | Value::Text(_) | Value::Section(_) => Err(wrong(node)),
    }
}

/// The section in a field, or a fault if the field contains something else.
fn section_of<'s, 'a>(node: &'s Node<'a>) -> Result<&'s Section<'a>, LoadFault>
    ensures { MatchResult result
        (λ section. content_view node.now.value ≡ tree.Inner section.now)
        (λ fault. (spec.is_section (content_view node.now.value) ≡ false)
        × (fault ≡ fault_at Source loads.Field (node_view node.now).line)) }
{
    match &node.value {
        Value::Section(section) => Ok(section),
        Value::Int(_) | Value::Text(_) | Value::List(_) => Err(wrong(node)),
    }
}

/// The string under a required key.
pub(crate) fn text_at<'a>(section: &Section<'a>, key: &str) -> Result<&'a str, LoadFault>
    ensures step { IsPlainStep (at_key kinds.Text key.now section.now) (result_err result) }
    ensures value { IfOk result (λ text. text.now ≡ text_at key.now section.now) }
{
    text_of(node_at(section, key)?)
}

/// The list of strings under a required key.
#[tactic(auto, using(crate::proofs::fields::TextLemmas::none_far))]
pub(crate) fn texts_at<'s, 'a>(
    section: &'s Section<'a>,
    key: &str,
) -> Result<&'s [Scalar<'a>], LoadFault>
    ensures step { IsPlainStep (at_key kinds.Texts key.now section.now) (result_err result) }
    ensures value { IfOk result (λ items. scalar_views items.now ≡ items_at key.now section.now) }
{
    let node = node_at(section, key)?;
    let items = items_of(node)?;
    if !are_texts(items) {
        return Err(wrong(node));
    }
    Ok(items)
}

/// The section under a required key.
pub(crate) fn section_at<'s, 'a>(
    section: &'s Section<'a>,
    key: &str,
) -> Result<&'s Section<'a>, LoadFault>
    ensures step { IsPlainStep (at_key kinds.Section key.now section.now) (result_err result) }
    ensures one { IfOk result (λ inner. section_at key.now section.now ≡ inner.now ∷ []) }
    ensures inside { IfOk result (λ inner. sections_at key.now section.now ≡ tree.sections_of inner.now.values) }
{
    section_of(node_at(section, key)?)
}

/// The section under a key, or `None` if the key is missing.
#[tactic(auto, unfolding(crate::specs::fields::Fields::field_faults))]
pub(crate) fn section_if_given<'s, 'a>(
    section: &'s Section<'a>,
    key: &str,
) -> Result<Option<&'s Section<'a>>, LoadFault>
    ensures step { IsPlainStep
        (λ check. field_faults check section.now (field key.now kinds.Section kinds.Given)) (result_err result) }
    ensures inside { IfOk result (λ inner. sections_at key.now section.now ≡ inner_sections inner) }
{
    match section.get(key) {
        Some(node) => match section_of(node) {
            Ok(inner) => Ok(Some(inner)),
            Err(fault) => Err(fault),
        },
        None => Ok(None),
    }
}
