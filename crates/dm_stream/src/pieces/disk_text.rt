//! A disk's name as lines write it: followed by a space and, in lines of reads and writes, preceded by a letter and a
//! space.
//!
//! Names are mostly short. For a short name, an array of fixed size is copied, which is longer than the name.
//!
//! This module only saves time: RESULTS.md has its gain as *letter and disk's name in one array* and *texts kept
//! ready*. The array is longer than a short text, and the block must have room behind the text. Change the module
//! only if you measure small requests, and large ones over 16 columns, before and after.

ghost use Rattle.dm_stream.specs.Prelude.{length, take, IsPut, code, disk_text, line_head};
ghost use Rattle.std.specs.Prelude.{◌≡◌, ◌∷◌, ◌+◌, ◌≤◌};

use crate::pieces::letter::Letter;
use dm_table::{DiskName, put_array, put_bytes};
use std::marker::Model;

/// The length of the longest text: a name of 255 bytes and a space.
const TEXT_BYTES: usize = 256;

/// How many bytes are copied for a short text, including its letter.
const SHORT: usize = 32;

/// The letter of reads, then the letter of writes.
const LETTERS: [u8; 2] = [b'R', b'W'];

/// A disk's name and a space. In contracts, the value is the bytes of both.
#[derive(Drop)]
pub(crate) struct DiskText {
    len: usize,
    /// A letter, a space and the text: first for reads, then for writes. Only spaces if the text isn't short.
    heads: [[u8; SHORT]; 2],
    text: [u8; TEXT_BYTES],
}

impl Model for DiskText {
    ghost use Rattle.dm_stream.specs.Base.{List, ℕ, take};
    ghost use Rattle.dm_stream.specs.pieces.DiskText.{AreHeads};
    ghost use Rattle.std.specs.Prelude.{◌≤◌};

    ghost Value = { List ℕ };

    ghost view = { λ disk. take disk.len disk.text };

    ghost invariant = { λ disk. (disk.len ≤ 256)
        × (disk.len ≤ 30 → AreHeads disk.heads (take disk.len disk.text)) };
}

impl DiskText {
    /// The text for a disk's name.
    pub(crate) fn new(name: &DiskName) -> DiskText
        ensures { result ≡ disk_text name.now }
    {
        let mut text = [b' '; TEXT_BYTES];
        let end = put_bytes(&mut text, 0, name.as_str().as_bytes());
        let len = put_bytes(&mut text, end, b" ");
        let heads = [
            short_head(LETTERS[0], &text[..len]),
            short_head(LETTERS[1], &text[..len]),
        ];
        DiskText { len, heads, text }
    }

    /// Puts the name and the space at offset `at` of a block, and returns the offset after them. The block needs 256
    /// bytes from `at` on.
    #[inline(always)]
    pub(crate) fn put_into(&self, block: &mut [u8], at: usize) -> usize
        requires { at + TEXT_BYTES ≤ length block.old }
        ensures put { IsPut self.now at block.old block.new result }
        ensures few { result ≤ at + TEXT_BYTES }
    {
        if self.len > SHORT {
            return put_long(block, at, &self.text, self.len);
        }
        let Some(array) = self.text.first_chunk::<SHORT>() else {
            unreachable!()
        };
        put_array(block, at, array, self.len)
    }

    /// Puts a letter, a space, the name and a space at offset `at` of a block, as in lines of reads and writes.
    /// Returns the offset after them. The block needs 258 bytes from `at` on.
    #[inline(always)]
    pub(crate) fn put_head(&self, block: &mut [u8], at: usize, letter: Letter) -> usize
        requires { at + TEXT_BYTES + 2 ≤ length block.old }
        ensures put { IsPut (line_head letter self.now) at block.old block.new result }
        ensures few { result ≤ at + TEXT_BYTES + 2 }
    {
        if self.len > SHORT - 2 {
            return put_long_head(block, at, letter, &self.text, self.len);
        }
        put_array(block, at, &self.heads[letter.index()], self.len + 2)
    }
}

/// A letter, a space and a text at the front of an array; only spaces if they don't fit into it.
fn short_head(letter: u8, text: &[u8]) -> [u8; SHORT]
    ensures { length text.now ≤ 30
        → take (length text.now + 2) result ≡ letter ∷ code " " ∷ text.now }
{
    let mut head = [b' '; SHORT];
    if text.len() <= SHORT - 2 {
        let at = put_bytes(&mut head, 0, &[letter, b' ']);
        let _end = put_bytes(&mut head, at, text);
    }
    head
}

/// Puts the first `len` bytes of a text at an offset of a block. Never inlined, because long names are rare.
#[cold]
#[inline(never)]
fn put_long(block: &mut [u8], at: usize, text: &[u8], len: usize) -> usize
    requires within { len ≤ length text.now }
    requires room { at + len ≤ length block.old }
    ensures { IsPut (take len text.now) at block.old block.new result }
{
    put_bytes(block, at, &text[..len])
}

/// Puts a letter, a space and the first `len` bytes of a text at an offset of a block. Never inlined, because long
/// names are rare.
#[cold]
#[inline(never)]
fn put_long_head(block: &mut [u8], at: usize, letter: Letter, text: &[u8], len: usize) -> usize
    requires within { len ≤ length text.now }
    requires room { at + 2 + len ≤ length block.old }
    ensures { IsPut (line_head letter (take len text.now)) at block.old block.new result }
{
    let at = put_bytes(block, at, &[LETTERS[letter.index()], b' ']);
    put_bytes(block, at, &text[..len])
}
