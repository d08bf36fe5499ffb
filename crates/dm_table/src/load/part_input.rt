//! Reads a part of a load into memory as a whole, before anything in it is checked.
//!
//! A part has a size limit, so that it fits in memory; a longer part is refused once more bytes than the
//! limit have been read, however long it is. `read_part` reads all parts: a new part is a new variant of
//! `Part` and needs no change in this module.

ghost use Rattle.dm_table.specs.Prelude.{IfOk, IfErr, delivery, IsMemoryFault, Refuses, TextOf, part_read, IsReadOn, Memory};
ghost use Rattle.std.specs.Prelude.{◌≡◌, ◌≢◌};

use crate::io::device_io::{InFault, Input};
use crate::load::load_fault::{LoadFault, LoadKind};
use crate::load::place::Part;
use std::alloc::Global;

/// The size limit for a part of a load, in bytes.
pub const MOST_PART_BYTES: usize = 1_048_576;

/// How many bytes each read requests.
const CHUNK: usize = 16384;

/// Reads a part of a load to its end.
///
/// | Fault | When |
/// |---|---|
/// | `Read` | a read failed |
/// | `Long` | the part has more than 1,048,576 bytes, which takes precedence over `Read` |
/// | `Memory` | an allocation was refused |
///
/// The input isn't read again after an end or a fault. Cost: linear in the number of bytes read, which
/// exceeds the limit by at most 16,384.
pub fn read_part<I: Input>(alloc: Global, part: Part, input: &mut I) -> Result<Vec<u8>, LoadFault>
    ensures text { IfOk result
        (λ text. part_read part (delivery (I.past input.old) (I.past input.new)) ≡ TextOf text.items) }
    ensures refused { IfErr result (λ fault. fault.kind ≢ Memory
        → part_read part (delivery (I.past input.old) (I.past input.new)) ≡ Refuses fault) }
    ensures memory { IfErr result (λ fault. fault.kind ≡ Memory → IsMemoryFault part fault) }
    ensures read_on { IsReadOn (I.past input.old) (I.past input.new) }
{
    let mut text = Vec::new(alloc);
    let mut chunk = [0; CHUNK];
    'chunks: while text.len() <= MOST_PART_BYTES {
        match input.read(&mut chunk) {
            Err(InFault) => return Err(LoadFault::at(part, LoadKind::Read, 0)),
            Ok(0) => return Ok(text),
            Ok(n) => {
                if text.extend_from_slice(&chunk[..n]).is_err() {
                    return Err(LoadFault::memory(part));
                }
            }
        }
    }
    Err(LoadFault::at(part, LoadKind::Long, 0))
}
