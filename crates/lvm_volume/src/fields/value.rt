//! Content of a section that may be missing, and the sections inside a section.

ghost use Rattle.lvm_volume.specs.Prelude.{map, unwrap_or, IfOk, item_view, inner_sections, items_at, items_view, number_at, sections_at, text_at};
ghost use Rattle.std.specs.Prelude.{◌≡◌};
ghost use Rattle.lvm_text.specs.Tree as spec;

use lvm_text::{Scalar, Section, Value};
use std::alloc::{AllocError, Global};

/// The integer under a key, or `None` if the key is missing or has other content.
pub(crate) fn number_if_given(section: &Section<'_>, key: &str) -> Option<u64>
    ensures { unwrap_or result 0 ≡ number_at key.now section.now }
{
    match section.get(key) {
        Some(node) => match &node.value {
            Value::Int(number) => Some(*number),
            _ => None,
        },
        None => None,
    }
}

/// The list under a key, or `None` if the key is missing or has other content.
pub(crate) fn items_if_given<'s, 'a>(
    section: &'s Section<'a>,
    key: &str,
) -> Option<&'s [Scalar<'a>]>
    ensures { items_view result ≡ items_at key.now section.now }
{
    match section.get(key) {
        Some(node) => match &node.value {
            Value::List(items) => Some(items.as_slice()),
            _ => None,
        },
        None => None,
    }
}

/// The string under a key, or an empty one if the key is missing or has other content.
pub(crate) fn text_or_empty<'a>(section: &Section<'a>, key: &str) -> &'a str
    ensures { result.now ≡ text_at key.now section.now }
{
    match section.get(key) {
        Some(node) => match &node.value {
            Value::Text(text) => *text,
            _ => "",
        },
        None => "",
    }
}

/// The section under a key, or `None` if the key is missing or has other content.
pub(crate) fn section_if_there<'s, 'a>(
    section: &'s Section<'a>,
    key: &str,
) -> Option<&'s Section<'a>>
    ensures { sections_at key.now section.now ≡ inner_sections result }
{
    match section.get(key) {
        Some(node) => match &node.value {
            Value::Section(inner) => Some(inner),
            _ => None,
        },
        None => None,
    }
}

/// The sections inside a section, with their keys, in the order of the text.
pub(crate) fn sections_of<'s, 'a>(
    alloc: Global,
    section: &'s Section<'a>,
) -> Result<Vec<(&'a str, &'s Section<'a>)>, AllocError>
    ensures { IfOk result (λ v. map item_view v.items ≡ spec.sections_of section.now.values) }
{
    let mut all = Vec::new(alloc);
    for item in section.sections() {
        all.push(item)?;
    }
    Ok(all)
}
