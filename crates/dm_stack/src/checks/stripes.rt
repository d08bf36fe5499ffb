//! The check that the length of each striped line divides evenly among its columns.
//!
//! The rules are those of the kernel's striped target (admin guide, device-mapper/striped): all columns have
//! equal shares of the length, in whole chunks. Mapping divides by the number of columns and by the chunk, so
//! neither may be 0. If you change a rule, change `is_bad_stripe` of the specs, too.

ghost use Rattle.dm_stack.specs.Prelude.{Description, has_bad_stripes, is_bad_stripe, resolved_target};
ghost use Rattle.std.specs.Prelude.{◌≡◌};

use crate::checks::limits::{MOST_CHUNK, MOST_STRIPES};
use crate::lines::resolved_line::ResolvedTarget;
use dm_table::{Line, Target};

/// Whether a line is striped and has no column or more than 128, a chunk of 0 or more than 2^32 - 1 sectors, or a
/// length that isn't a multiple of columns times chunk.
pub(crate) fn has_bad_stripes(line: &Line, target: &ResolvedTarget) -> bool
    ensures { (stack : Description) → target.now ≡ resolved_target stack line.now.target
        → result ≡ has_bad_stripes line.now line.now.target }
{
    match (target, &line.target) {
        (ResolvedTarget::Striped { .. }, Target::Striped { chunk, columns }) => {
            is_bad_stripe(line.len, *chunk, columns.as_slice().len())
        }
        _ => false,
    }
}

/// Whether the chunk or the number of columns is out of range, or the length isn't a multiple of columns times
/// chunk. Length and chunk are in sectors.
fn is_bad_stripe(len: u64, chunk: u64, columns: usize) -> bool
    ensures { result ≡ is_bad_stripe len chunk columns }
{
    columns == 0
        || MOST_STRIPES < columns
        || chunk == 0
        || MOST_CHUNK < chunk
        || len % columns as u64 != 0
        || len / columns as u64 % chunk != 0
}
