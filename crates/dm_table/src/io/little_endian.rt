//! Little-endian numbers: the least significant byte comes first.

ghost use Rattle.dm_table.specs.Base.{length};
ghost use Rattle.dm_table.specs.io.LittleEndian.{eight_at, four_at};
ghost use Rattle.std.specs.Prelude.{◌≡◌, ◌+◌, ◌≤◌};

use byteorder::{ByteOrder, LittleEndian};

/// The little-endian number in the four bytes from offset `at` on.
#[inline(always)]
#[tactic(auto, unfolding(crate::specs::io::LittleEndian::four_at))]
pub fn four_at(bytes: &[u8], at: usize) -> u32
    requires { at + 4 ≤ length bytes.now }
    ensures { result ≡ four_at bytes.now at }
{
    LittleEndian::read_u32(&bytes[at..])
}

/// The little-endian number in the eight bytes from offset `at` on.
#[inline(always)]
#[tactic(auto, unfolding(crate::specs::io::LittleEndian::eight_at))]
pub fn eight_at(bytes: &[u8], at: usize) -> u64
    requires { at + 8 ≤ length bytes.now }
    ensures { result ≡ eight_at bytes.now at }
{
    LittleEndian::read_u64(&bytes[at..])
}
