//! The positions of physical and logical volumes by their keys. Resolving a reference costs about the same however many
//! volumes there are.
//!
//! No two keys in a section are the same, so each is new when it is added. A contract sees the keys in text order.

ghost use Rattle.lvm_volume.specs.Prelude.{[], false, IfOk, OnOk, bytes_eq, list_any, sections_of, keys_in, position_of, texts};
ghost use Rattle.std.specs.Prelude.{◌≡◌, ◌++◌, ◌∷◌};

use indexmap::IndexSet;
use lvm_text::Section;
use std::alloc::{AllocError, Global};
use std::marker::Model;

/// The keys in a section, with their positions.
#[derive(Drop)]
pub(crate) struct Positions<'a> {
    keys: IndexSet<&'a str>,
}

/// The positions of a group's physical volumes, and of its logical volumes.
#[derive(Drop)]
pub(crate) struct GroupPositions<'a> {
    pub physicals: Positions<'a>,
    pub volumes: Positions<'a>,
}

impl<'a> Model for Positions<'a> {
    ghost use Rattle.lvm_volume.specs.Base.{List, ℕ};
    ghost use Rattle.lvm_volume.specs.group.GroupCode.{texts};

    ghost Value = { List (List ℕ) };

    ghost view = { λ positions. texts positions.keys.keys };
}

impl<'a> Positions<'a> {
    /// The positions of the sections inside a section, by their keys.
    fn new(alloc: Global, section: &Section<'a>) -> Result<Positions<'a>, AllocError>
        ensures { IfOk result (λ positions. positions ≡ keys_in (sections_of section.now.values)) }
    {
        let mut keys = IndexSet::new(alloc);
        for item in section.sections() {
            add_key(&mut keys, item.0)?;
        }
        Ok(Positions { keys })
    }

    /// The position of a key, or the number of keys if the key isn't among them.
    pub(crate) fn position_of(&self, key: &str) -> usize
        ensures { result ≡ position_of self.now key.now }
    {
        match self.keys.get_index_of(key) {
            Some(position) => position,
            None => self.keys.len(),
        }
    }
}

impl<'a> GroupPositions<'a> {
    /// The positions of a group's physical and logical volumes, from the two sections that contain them.
    pub(crate) fn new(
        alloc: Global,
        physicals: &Section<'a>,
        volumes: &Section<'a>,
    ) -> Result<GroupPositions<'a>, AllocError>
        ensures physicals { IfOk result
            (λ positions. positions.physicals ≡ keys_in (sections_of physicals.now.values)) }
        ensures volumes { IfOk result
            (λ positions. positions.volumes ≡ keys_in (sections_of volumes.now.values)) }
    {
        Ok(GroupPositions {
            physicals: Positions::new(alloc, physicals)?,
            volumes: Positions::new(alloc, volumes)?,
        })
    }
}

/// Appends a key, which must differ from all keys before it.
fn add_key<'a>(keys: &mut IndexSet<&'a str>, key: &'a str) -> Result<(), AllocError>
    requires { list_any (bytes_eq key.now) (texts keys.old.keys) ≡ false }
    ensures { OnOk result (texts keys.new.keys ≡ texts keys.old.keys ++ key.now ∷ []) }
{
    match keys.insert(key) {
        Ok(_) => Ok(()),
        Err(_) => Err(AllocError),
    }
}
