//! The trait `Text`, for texts that write themselves into a block of bytes.
//!
//! A text is written directly into the buffer of an output that has one, so that no byte is copied twice. An
//! array of a fixed size is copied whole, even the bytes after its text: that is the cheapest copy, and the
//! bytes after a text in a block are never read.

ghost use Rattle.dm_table.specs.Prelude.{ℕ, List, length, IsPut};
ghost use Rattle.std.specs.Prelude.{◌≡◌, ◌+◌, ◌≤◌};

/// How many bytes of a block a text may overwrite, counted from the offset where the text begins.
pub const TEXT_ROOM: usize = 1024;

/// A text that can be written into a block.
pub trait Text {
    /// The text's bytes.
    ghost text: { Self → List ℕ };

    /// Writes the text into a block at offset `at`, and returns the offset after the text. Bytes of the block
    /// after the text may change too.
    fn put_into(&self, block: &mut [u8], at: usize) -> usize
        requires room { at + TEXT_ROOM ≤ length block.old }
        ensures put { IsPut (text self.now) at block.old block.new result }
        ensures short { length (text self.now) ≤ TEXT_ROOM }
        ensures len { length block.new ≡ length block.old };
}
