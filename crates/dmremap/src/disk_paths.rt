//! PATHS: the list that says which images hold the disks of a stack.
//!
//! PATHS is read and checked after the stack is loaded, because the names of the stack's disks are looked up in PATHS.

ghost use Rattle.dmremap.specs.Prelude.{Err, IfErr, IfOk, Ok, Some, delivery, IsReadOn, Memory, Paths, part_read, IsReadOnIf, delivered_if, AreSettled, places_in, images_in};
ghost use Rattle.std.specs.Prelude.{◌≡◌, ◌≢◌};

use crate::load::unread;
use dm_stack::Stack;
use dm_store::{DiskImages, listed_images};
use dm_table::{Input, LoadFault, Part, parse_paths, read_part};
use std::alloc::Global;

/// Reads a list of paths, and looks up which image holds each disk of a stack.
///
/// Returns `Memory` only if memory ran out; otherwise returns the first fault of the first check that finds any.
pub(crate) fn load_images<P: Input>(
    alloc: Global,
    stack: &Stack,
    paths: &mut P,
) -> Result<DiskImages, LoadFault>
    ensures given { IfOk result (λ images. images_in stack.now
        (part_read Paths (delivery (P.past paths.old) (P.past paths.new))) ≡ Some (Ok images)) }
    ensures refused { IfErr result (λ fault. fault.kind ≢ Memory → images_in stack.now
        (part_read Paths (delivery (P.past paths.old) (P.past paths.new))) ≡ Some (Err fault)) }
    ensures read_on { IsReadOn (P.past paths.old) (P.past paths.new) }
{
    let text = read_part(alloc, Part::Paths, paths)?;
    let listed = parse_paths(alloc, &text)?;
    listed_images(alloc, stack, &listed)
}

/// Reads from PATHS which images hold a stack's disks. A missing PATHS is refused like one that can't be read.
pub(crate) fn load_images_if<P: Input>(
    alloc: Global,
    stack: &Stack,
    paths: &mut Option<P>,
) -> Result<DiskImages, LoadFault>
    ensures settled { AreSettled (places_in (delivered_if P.past paths.old paths.new) stack.now) result }
    ensures read_on { IsReadOnIf P.past paths.old paths.new }
{
    match paths {
        Some(paths) => load_images(alloc, stack, paths),
        None => Err(unread(Part::Paths)),
    }
}
