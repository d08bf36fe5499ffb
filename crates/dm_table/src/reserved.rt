//! Types for memory that is allocated while loading, and afterwards only read and filled.
//!
//! A `Vec` keeps its allocator, so whoever holds a `Vec` can allocate: by cloning it, growing it, or asking it for the
//! allocator. The types in this module hide their allocators: a caller with an allocator makes their content, they
//! can't be cloned, and every call that allocates takes an allocator as an argument. So a function that has no
//! allocator, and holds no vectors but these types, allocates nothing. No contract says so: this module must never
//! hand out an allocator.

ghost use Rattle.dm_table.specs.Prelude.{[], IfOk, OnOk, length, slice_index_or, vec_capacity, sem, insert, string_bytes};
ghost use Rattle.std.specs.Prelude.{◌≡◌, ◌<◌, ◌≤◌, ◌++◌, ◌∷◌};

use std::alloc::{AllocError, Global};
use std::marker::Model;
use std::ops::{Index, IndexMut};

/// A vector with spare capacity that hides its allocator. A contract sees the values as a list, and the
/// capacity.
#[derive(Debug, Drop)]
pub struct Reserved<T> {
    items: Vec<T>,
}

impl<T> Model for Reserved<T> {
    ghost use Rattle.dm_table.specs.Base.{vec_capacity};
    ghost use Rattle.dm_table.specs.Reserved.{Reservation};

    ghost Value = { Reservation T };

    ghost view = { λ reserved. record { items = reserved.items.items; room = vec_capacity reserved.items } };
}

impl<T> Reserved<T> {
    /// Wraps a vector, keeping its capacity. Allocates nothing.
    pub fn from_vec(items: Vec<T>) -> Reserved<T>
        ensures items { result.items ≡ items.items }
        ensures room { result.room ≡ vec_capacity items }
    {
        Reserved { items }
    }

    /// Returns the values as a vector, which can grow, so that only the owner may call this. Allocates nothing.
    pub(crate) fn into_vec(self) -> Vec<T>
        ensures { result.items ≡ self.items }
    {
        self.items
    }

    /// How many values there are.
    #[inline(always)]
    pub fn len(&self) -> usize
        ensures { result ≡ length self.now.items }
    {
        self.items.len()
    }

    /// The values in order.
    #[inline(always)]
    pub fn as_slice(&self) -> &[T]
        ensures { result.now ≡ self.now.items }
    {
        self.items.as_slice()
    }

    /// Appends a value; the capacity must suffice. Allocates nothing.
    #[inline(always)]
    pub fn push(&mut self, value: T)
        requires { length self.old.items < self.old.room }
        ensures items { self.new.items ≡ self.old.items ++ value ∷ [] }
        ensures room { self.new.room ≡ self.old.room }
    {
        self.items.push_reserved(value);
    }
}

impl<T: Drop> Reserved<T> {
    /// Inserts a value before the one at `index`, or at the end; the capacity must suffice. Allocates nothing.
    pub fn insert(&mut self, index: usize, value: T)
        requires within { index ≤ length self.old.items }
        requires room { length self.old.items < self.old.room }
        ensures items { self.new.items ≡ insert self.old.items index value }
        ensures room { self.new.room ≡ self.old.room }
    {
        let Ok(()) = self.items.insert(index, value) else {
            unreachable!()
        };
    }

    /// Appends a value, and allocates if the capacity doesn't suffice, which is why the call needs an allocator.
    #[inline(always)]
    pub(crate) fn grow(&mut self, _alloc: Global, value: T) -> Result<(), AllocError>
        ensures { OnOk result (self.new.items ≡ self.old.items ++ value ∷ []) }
    {
        self.items.push(value)?;
        Ok(())
    }
}

impl<T> Index<usize> for Reserved<T> {
    type Output = T;

    ghost can_index = { λ reserved index. index < length reserved.items };

    ghost index_gives = { λ reserved index value. value ≡ slice_index_or reserved.items index value };

    #[inline(always)]
    fn index(&self, index: usize) -> &T
        requires { index < length self.now.items }
        ensures { result.now ≡ slice_index_or self.now.items index result.now }
    {
        &self.items[index]
    }
}

impl<T> IndexMut<usize> for Reserved<T> {
    ghost use Rattle.dm_table.specs.ReservedLends.{lends_item};

    #[inline(always)]
    fn index_mut(&mut self, index: usize) -> &mut T
        requires { index < length self.old.items }
        ensures* writes_back { sem 𝓛 (lends_item T.row self.entry index result) }
        ensures value { result.now ≡ slice_index_or self.old.items index result.now }
    {
        &mut self.items[index]
    }
}

/// A text that hides its allocator. A contract sees its bytes.
#[derive(Debug, Drop)]
pub struct ReservedText {
    text: String,
}

impl Model for ReservedText {
    ghost use Rattle.dm_table.specs.Base.{List, ℕ, string_bytes};

    ghost Value = { List ℕ };

    ghost view = { λ reserved. string_bytes reserved.text };
}

impl ReservedText {
    /// Wraps a string. Allocates nothing.
    pub(crate) fn from_string(text: String) -> ReservedText
        ensures { result ≡ string_bytes text }
    {
        ReservedText { text }
    }

    /// Returns the text as a string. Allocates nothing.
    pub(crate) fn into_string(self) -> String
        ensures { string_bytes result ≡ self }
    {
        self.text
    }

    /// The text as a `str`.
    #[inline(always)]
    pub fn as_str(&self) -> &str
        ensures { result.now ≡ self.now }
    {
        self.text.as_str()
    }
}

/// A value in a heap allocation of its own that hides its allocator. A contract sees the value.
#[derive(Debug, Drop)]
pub struct ReservedBox<T> {
    boxed: Box<T>,
}

impl<T> Model for ReservedBox<T> {
    ghost use Rattle.std.specs.Box.{box_value};

    ghost Value = { T };

    ghost view = { λ reserved. box_value reserved.boxed };
}

impl<T: Drop> ReservedBox<T> {
    /// Moves a value into a heap allocation of its own. Fails only if memory runs out.
    pub fn new(alloc: Global, value: T) -> Result<ReservedBox<T>, AllocError>
        ensures { IfOk result (λ reserved. reserved ≡ value) }
    {
        let boxed = Box::new(alloc, value)?;
        Ok(ReservedBox { boxed })
    }

    /// The value inside.
    #[inline(always)]
    pub fn as_ref(&self) -> &T
        ensures { result.now ≡ self.now }
    {
        self.boxed.as_ref()
    }
}
