//! Turns slices of a known length into arrays, which can be compared, copied or read as a number in
//! an instruction or two.

ghost use Rattle.dm_table.specs.Prelude.{length};
ghost use Rattle.std.specs.Prelude.{◌≡◌};

/// A slice whose length is known to be `LEN`, as an array.
#[inline(always)]
pub fn as_array<const LEN: usize>(bytes: &[u8]) -> &[u8; LEN]
    requires { length bytes.now ≡ LEN }
    ensures { result.now ≡ bytes.now }
{
    bytes.first_chunk::<LEN>().unwrap()
}
