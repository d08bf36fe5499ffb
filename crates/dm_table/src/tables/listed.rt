//! A vector that a contract sees as a list of values.
//!
//! A contract can compare lists, but not where a `Vec` is in memory; so types that own vectors use `Listed`
//! instead of `Vec`.

ghost use Rattle.dm_table.specs.Prelude.{[], OnOk};
ghost use Rattle.std.specs.Prelude.{◌≡◌, ◌++◌, ◌∷◌};

use crate::reserved::Reserved;
use std::alloc::{AllocError, Global};
use std::marker::Model;

/// A vector of values in order, which a contract sees as a list.
#[derive(Debug, Drop)]
pub struct Listed<T> {
    items: Reserved<T>,
}

impl<T> Model for Listed<T> {
    ghost use Rattle.dm_table.specs.Base.{List};

    ghost Value = { List T };

    ghost view = { λ listed. listed.items.items };
}

impl<T> Listed<T> {
    /// Wraps a vector. Allocates nothing.
    pub fn from_vec(items: Vec<T>) -> Listed<T>
        ensures { result ≡ items.items }
    {
        Listed {
            items: Reserved::from_vec(items),
        }
    }

    /// Returns the values as a vector. Allocates nothing.
    pub fn into_vec(self) -> Vec<T>
        ensures { result.items ≡ self }
    {
        self.items.into_vec()
    }

    /// The values in order.
    pub fn as_slice(&self) -> &[T]
        ensures { result.now ≡ self.now }
    {
        self.items.as_slice()
    }
}

impl<T: Drop> Listed<T> {
    /// Appends a value, and may allocate, which is why the call needs an allocator.
    #[inline(always)]
    pub(crate) fn push(&mut self, alloc: Global, value: T) -> Result<(), AllocError>
        ensures { OnOk result (self.new ≡ self.old ++ value ∷ []) }
    {
        self.items.grow(alloc, value)
    }
}
