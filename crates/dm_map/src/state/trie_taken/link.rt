//! A link of a trie, packed into 32 bits.
//!
//! The whole table of links is written when a snapshot is loaded, so links are as short as possible.

ghost use Rattle.dm_map.specs.Prelude.{Empty, Number, Fork};
ghost use Rattle.std.specs.Prelude.{◌≡◌, ◌<◌, ◌+◌, ◌^◌};

use std::marker::Model;

/// The node that a link leads to.
#[derive(Drop)]
pub(crate) enum Node {
    /// No chunk.
    Empty,
    /// A taken chunk, by its number in the order of taking.
    Number(u32),
    /// A test of a bit, and the index of the link for the bit's value 0; the link for 1 comes next.
    Fork(u32, u32),
}

/// The smallest code of a link that leads to a fork.
const FIRST_FORK: u32 = 1 << 31;

/// How many different indexes a fork can hold.
const INDICES: u32 = 1 << 25;

/// A node as a 32-bit code: 0 for no chunk, a chunk's number plus 1, or, from 2³¹ on, a fork's bit and index.
#[derive(Drop)]
pub(crate) struct Link {
    code: u32,
}

impl Model for Link {
    ghost use Rattle.dm_map.specs.Base.{Node};

    ghost Value = { Node };

    ghost use Rattle.dm_map.specs.state.Links.{node_of};

    ghost view = { λ link. node_of link.code };
}

impl Link {
    /// The link to no chunk.
    pub(super) fn empty() -> Link
        ensures { result ≡ Empty }
    {
        Link { code: 0 }
    }

    /// The link to a chunk's number.
    pub(super) fn number(number: u32) -> Link
        requires { number + 1 < 2 ^ 31 }
        ensures { result ≡ Number number }
    {
        Link { code: number + 1 }
    }

    /// The link to a fork that tests this bit, with its two links from index `pair` on.
    pub(super) fn fork(bit: u32, pair: u32) -> Link
        requires bit { bit < 64 }
        requires pair { pair < 2 ^ 25 }
        ensures { result ≡ Fork bit pair }
    {
        Link {
            code: FIRST_FORK + bit * INDICES + pair,
        }
    }

    /// The 32-bit code of the link.
    pub(super) fn code(&self) -> u64 {
        self.code as u64
    }

    /// The node that the link leads to.
    #[inline(always)]
    pub(super) fn node(&self) -> Node
        ensures { result ≡ self.now }
    {
        if self.code >= FIRST_FORK {
            let fork = self.code - FIRST_FORK;
            Node::Fork(fork / INDICES, fork % INDICES)
        } else if self.code == 0 {
            Node::Empty
        } else {
            Node::Number(self.code - 1)
        }
    }
}
