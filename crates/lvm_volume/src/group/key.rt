//! A copy of a section's key, which outlives the text. To a contract, the copy is the bytes of the key.

ghost use Rattle.lvm_volume.specs.Prelude.{IfOk};
ghost use Rattle.std.specs.Prelude.{◌≡◌};

use std::alloc::{AllocError, Global};
use std::marker::Model;

/// A copy of a section's key.
#[derive(Debug, Drop)]
pub(crate) struct Key {
    text: String,
}

impl Model for Key {
    ghost use Rattle.lvm_volume.specs.Base.{List, ℕ, string_bytes};

    ghost Value = { List ℕ };

    ghost view = { λ key. string_bytes key.text };
}

impl Key {
    /// Copies a key; makes one allocation.
    pub(crate) fn new(alloc: Global, key: &str) -> Result<Key, AllocError>
        ensures { IfOk result (λ copy. copy ≡ key.now) }
    {
        Ok(Key {
            text: String::from_str(alloc, key)?,
        })
    }

    /// The key as a `str`.
    pub(crate) fn as_str(&self) -> &str
        ensures { result.now ≡ self.now }
    {
        self.text.as_str()
    }
}
