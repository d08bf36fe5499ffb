//! Finds the position of a key among the entries of a section.
//! The first few entries are compared one by one, and an index gives the positions of the others in about
//! `log n` steps. Metadata has mostly small sections, and an index of all their keys would use most of the memory.
//! `Finds` in `specs/Positions` defines what an index contains; change that definition first.

ghost use Rattle.lvm_text.specs.Prelude.{None, [], OnOk, Finds, position_of};
ghost use Rattle.std.specs.Prelude.{◌≡◌, ◌∷◌, ◌++◌};

use crate::tree::Entry;
use std::alloc::AllocError;
use std::collections::BTreeMap;

/// How many entries at the front of a section are left out of the section's index.
pub(crate) const FEW: usize = 8;

/// The position of the first entry that has this key, or `None` if no entry has it.
fn position_among(entries: &[Entry<'_>], key: &str) -> Option<usize>
    ensures { result ≡ position_of key.now 0 entries.now }
{
    for (at, entry) in entries.iter().enumerate() {
        if entry.key == key {
            return Some(at);
        }
    }
    None
}

/// The position of a key in a section, or `None` if the section doesn't contain the key.
pub(crate) fn position_of(
    entries: &[Entry<'_>],
    index: &BTreeMap<&str, usize>,
    key: &str,
) -> Option<usize>
    requires { Finds index.now entries.now }
    ensures { result ≡ position_of key.now 0 entries.now }
{
    match position_among(&entries[..entries.len().min(FEW)], key) {
        Some(at) => Some(at),
        None => index.get(key).copied(),
    }
}

/// Appends an entry, whose key must be new in the section.
pub(crate) fn add_entry<'a>(
    entries: &mut Vec<Entry<'a>>,
    index: &mut BTreeMap<&'a str, usize>,
    entry: Entry<'a>,
) -> Result<(), AllocError>
    requires finds { Finds index.old entries.old.items }
    requires fresh { position_of entry.key.now 0 entries.old.items ≡ None }
    ensures added { OnOk result (entries.new.items ≡ entries.old.items ++ entry.entry ∷ []) }
    ensures finds { OnOk result (Finds index.new entries.new.items) }
{
    if entries.len() >= FEW {
        index.insert(entry.key, entries.len())?;
    }
    entries.push(entry)?;
    Ok(())
}
