//! Names packed into two words and a length, so that a comparison takes no loop.
//!
//! The two words of a short name, of at most 15 bytes, contain the whole name: sixteen bytes are read together,
//! and those after the name are set to zero. The words of a longer name mix its first sixteen bytes with its last
//! sixteen, and another name may have the same words.
//!
//! Keys are here for speed alone: RESULTS.md lists the gain as *short names compared at once*. If you change
//! them, measure small requests before and after.

ghost use Rattle.dm_stack.specs.Prelude.{IfSome, IsTrue, get_or, length, replicate, take, to_le_bytes, w64, code, IsKeyOf};
ghost use Rattle.dm_stack.specs.declared.names.name_key.TheConstants.{KEY_BYTES};
ghost use Rattle.std.specs.Prelude.{◌≡◌, ◌-◌, ◌<◌, ◌≤◌, ◌++◌, ◌↔◌};

use dm_table::{as_array, put_bytes};
use std::simd::prelude::*;

/// How many bytes are read together, which is one more than a short name can have.
pub(crate) const KEY_BYTES: usize = 16;

/// A name packed into two words, and its length in bytes.
#[derive(Clone, Copy)]
pub(crate) struct NameKey {
    pub first: u64,
    pub last: u64,
    pub len: usize,
}

impl NameKey {
    /// The key of a name of any length.
    pub(crate) fn of(name: &[u8]) -> NameKey
        ensures len { result.len ≡ length name.now }
        ensures key { length name.now < KEY_BYTES → IsKeyOf name.now result }
    {
        let len = name.len();
        if len >= KEY_BYTES {
            return NameKey::long(name);
        }
        let mut array = [0; KEY_BYTES];
        let _end = put_bytes(&mut array, 0, name);
        NameKey::short(&array, len)
    }

    /// The key of a short name, which is the first `len` bytes of an array.
    #[inline(always)]
    pub(crate) fn short(array: &[u8; KEY_BYTES], len: usize) -> NameKey
        requires { len < KEY_BYTES }
        ensures { IsKeyOf (take len array.now) result }
    {
        let kept = first_kept(array, len);
        NameKey {
            first: word_of(&kept[..8]),
            last: word_of(&kept[8..]),
            len,
        }
    }

    /// The key of a name of 16 bytes or more, which other names may share.
    fn long(name: &[u8]) -> NameKey
        requires { KEY_BYTES ≤ length name.now }
        ensures { result.len ≡ length name.now }
    {
        let len = name.len();
        let first = word_of(&name[..8]) ^ word_of(&name[len - 16..len - 8]).rotate_left(32);
        let last = word_of(&name[8..16]) ^ word_of(&name[len - 8..]).rotate_left(32);
        NameKey { first, last, len }
    }

    /// Whether two keys are equal.
    #[inline(always)]
    pub(crate) fn is(&self, other: &NameKey) -> bool
        ensures { IsTrue result ↔ self.now ≡ other.now }
    {
        self.first == other.first && self.last == other.last && self.len == other.len
    }
}

/// A mask for `and`: sixteen bytes that keep a byte as it is, and then sixteen that clear it.
static KEPT: [u8; 2 * KEY_BYTES] = [
    255, 255, 255, 255, 255, 255, 255, 255, 255, 255, 255, 255, 255, 255, 255, 255, 0, 0, 0, 0, 0,
    0, 0, 0, 0, 0, 0, 0, 0, 0, 0, 0,
];

/// The first `len` bytes of an array, followed by zeros.
#[inline(always)]
fn first_kept(array: &[u8; KEY_BYTES], len: usize) -> [u8; KEY_BYTES]
    requires { len < KEY_BYTES }
    ensures { result ≡ take len array.now ++ replicate (16 - len) 0 }
{
    let kept = as_array::<KEY_BYTES>(&KEPT[KEY_BYTES - len..2 * KEY_BYTES - len]);
    (u8x16::from_array(*array) & u8x16::from_array(*kept)).to_array()
}

/// Eight bytes as a little-endian word.
#[inline(always)]
fn word_of(bytes: &[u8]) -> u64
    requires { length bytes.now ≡ 8 }
    ensures { to_le_bytes w64 result ≡ bytes.now }
{
    u64::from_le_bytes(*as_array::<8>(bytes))
}

/// The index of the first space in an array of 16 bytes.
#[inline(always)]
pub(crate) fn first_space(array: &[u8; KEY_BYTES]) -> Option<usize>
    ensures within { IfSome result (λ at. at < KEY_BYTES) }
    ensures space { IfSome result (λ at. get_or array.now at 0 ≡ code " ") }
{
    let spaces = u8x16::from_array(*array)
        .simd_eq(u8x16::splat(b' '))
        .to_bitmask();
    if spaces == 0 {
        return None;
    }
    Some(spaces.trailing_zeros() as usize)
}
