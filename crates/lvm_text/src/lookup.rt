//! Lookups in a section: the section's line, the node of a key, and the inner sections.
//! A key is found through `index::position_of`; inner sections are found by iterating over the entries.

ghost use Rattle.lvm_text.specs.Prelude.{option_map};
ghost use Rattle.std.specs.Prelude.{◌≡◌};

use crate::index::position_of;
use crate::tree::{Entry, Node, Section, Value};

impl<'a> Section<'a> {
    ghost use Rattle.lvm_text.specs.Base.{All, AllPairs};
    ghost use Rattle.lvm_text.specs.Tree.{keys_of, node_of, sections_of, IsFound};
    ghost use Rattle.lvm_text.specs.View.{node_view};
    ghost use Rattle.lvm_text.specs.Iterate.{sections_left};
    ghost use Rattle.std.specs.Prelude.{◌≢◌};

    /// The line of the section's key, counted from 1; 1 for the top of the text.
    pub fn line(&self) -> u64
        ensures { result ≡ self.now.line }
    {
        self.line
    }

    /// The node of a key, or `None` if the section doesn't contain the key.
    ///
    /// Cost: at most 8 comparisons with the first keys, and about `log n` comparisons with the `n` others.
    pub fn get(&self, key: &str) -> Option<&Node<'a>>
        ensures { option_map (λ n. node_view n.now) result ≡ node_of key.now self.now.values }
    {
        let at = position_of(self.entries.as_slice(), &self.index, key)?;
        Some(&self.entries[at].node)
    }

    /// An iterator over the keys that hold sections, each with its section, in source order. Each step skips the
    /// keys before the next section.
    pub fn sections(&self) -> Sections<'_, 'a>
        ensures sections { sections_left result ≡ sections_of self.now.values }
        // The keys of a section all differ, so the section that the iterator returns with a key is the one that
        // `get` finds for that key.
        ensures differ { AllPairs (λ j k. j ≢ k) (keys_of self.now.values) }
        ensures found { All (IsFound self.now.values) (sections_of self.now.values) }
    {
        Sections {
            entries: &self.entries,
            at: 0,
        }
    }
}

/// An iterator over the keys of a section that hold sections, each with its section, in source order.
#[derive(Drop)]
pub struct Sections<'s, 'a> {
    entries: &'s [Entry<'a>],
    at: usize,
}

impl<'s, 'a> Iterator for Sections<'s, 'a> {
    ghost use Rattle.std.specs.Iterator.{YieldsFirstBy, item_count};
    ghost use Rattle.lvm_text.specs.Iterate.{item_view, sections_left};

    type Item = (&'a str, &'s Section<'a>);

    ghost next_gives = { YieldsFirstBy item_view sections_left };

    ghost remaining = { item_count sections_left };

    fn next(&mut self) -> Option<(&'a str, &'s Section<'a>)> {
        while self.at < self.entries.len() {
            let entry = &self.entries[self.at];
            self.at += 1;
            if let Value::Section(section) = &entry.node.value {
                return Some((entry.key, section));
            }
        }
        None
    }
}
