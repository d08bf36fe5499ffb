//! The tree of a text: sections of keys, and what each key holds, as slices of the text.
//! A section has entries in source order, and an index of their keys; contracts see only the section's line and
//! values. `IsSection` in `specs/Sound` is the invariant of sections: change it first.

ghost use Rattle.std.specs.Prelude.{◌≡◌};

use std::collections::BTreeMap;
use std::marker::Model;

/// A scalar: an integer, or the raw text of a string.
#[derive(Debug, Drop)]
pub enum Scalar<'a> {
    Int(u64),
    Text(&'a str),
}

/// What a key holds: a section, an integer, a string, or a list of scalars.
#[cycle(tree)]
#[derive(Debug, Drop)]
pub enum Value<'a> {
    Section(Section<'a>),
    Int(u64),
    Text(&'a str),
    List(Vec<Scalar<'a>>),
}

/// What a key holds, and the line of the key.
#[cycle(tree)]
#[derive(Debug, Drop)]
pub struct Node<'a> {
    pub value: Value<'a>,
    pub(crate) line: u64,
}

#[cycle(tree)]
#[derive(Debug, Drop)]
pub(crate) struct Entry<'a> {
    pub(crate) key: &'a str,
    pub(crate) node: Node<'a>,
}

/// A section of a text: its keys and what they hold, in source order.
#[cycle(tree)]
#[derive(Debug, Drop)]
pub struct Section<'a> {
    pub(crate) line: u64,
    pub(crate) entries: Vec<Entry<'a>>,
    pub(crate) index: BTreeMap<&'a str, usize>,
}

impl<'a> Model for Section<'a> {
    ghost use Rattle.lvm_text.specs.Tree.{Tree, size_of};
    ghost use Rattle.lvm_text.specs.laws.TreeCode.{tree_code};

    ghost Value = { Tree };

    ghost coded = { tree_code };

    ghost use Rattle.lvm_text.specs.View.{values_of};

    ghost view = { λ s. record { line = s.line; values = values_of s.entries.items } };

    ghost use Rattle.lvm_text.specs.Sound.{IsSection};

    ghost invariant = { λ s. IsSection s.entries.items s.index };

    ghost size = { λ t. size_of t.values };

    ghost use Rattle.lvm_text.specs.laws.TreeFalls.{most_le-size_of};

    ghost size_decreases = { λ a h. most_le-size_of a.entries.items };
}

impl Node<'_> {
    ghost use Rattle.lvm_text.specs.View.{node_view};

    /// The line of the node's key, counted from 1.
    pub fn line(&self) -> u64
        ensures { result ≡ (node_view self.now).line }
    {
        self.line
    }
}
