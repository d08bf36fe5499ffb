//! The slots of a trie's table, which are the links that look-ups start at.

ghost use Rattle.dm_map.specs.Prelude.{slot_of};
ghost use Rattle.std.specs.Prelude.{◌≡◌, ◌+◌, ◌<◌, ◌≤◌};

/// An odd multiplier without a pattern in its bits: 2³² minus 2³² divided by the golden ratio.
const SPREAD: u64 = 0x61C8_8647;

/// How chunks are spread over the slots of a table; the number of slots is a power of two.
///
/// A chunk below the number of slots has the slot with its own number. For any other chunk, the high bits are
/// multiplied, and the product's bits from bit 28 on are mixed into the low bits. So chunks or runs of chunks
/// that are a power of two apart share few slots.
#[derive(Drop)]
pub(crate) struct Slots {
    /// The index of the last slot, in which all bits of a slot's index are set.
    mask: u64,
    /// A mask of all bits above those of a slot's index.
    above: u64,
}

impl Slots {
    /// Makes this many slots; the number must be a power of two.
    pub(super) fn with_count(count: usize) -> Slots
        requires { 1 ≤ count }
        ensures { result.mask + 1 ≡ count }
    {
        let mask = count as u64 - 1;
        Slots { mask, above: !mask }
    }

    /// The slot at which the chunk's look-up starts.
    #[inline(always)]
    pub(super) fn of(&self, chunk: u64) -> usize
        ensures slot { result ≡ slot_of self.now chunk }
        ensures within { result ≤ self.now.mask }
    {
        if chunk <= self.mask {
            return chunk as usize;
        }
        let spread = (chunk & self.above).wrapping_mul(SPREAD) >> 28;
        ((chunk ^ spread) & self.mask) as usize
    }
}
