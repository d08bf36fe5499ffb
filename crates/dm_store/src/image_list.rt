//! The images of a stack's disks, from a list of paths.

ghost use Rattle.dm_store.specs.Prelude.{IfErr, IfOk, Ok, Err, find, map, option_map, IsMemoryFault, is_same, image_in, images_of};
ghost use Rattle.dm_table.specs.declared.load.load_fault.LoadKind.TheVariants.{Memory};
ghost use Rattle.dm_table.specs.declared.load.place.Part.TheVariants.{Source};
ghost use Rattle.std.specs.Prelude.{◌≡◌, ◌≢◌};

use crate::disk_images::DiskImages;
use crate::image_place::ImagePlace;
use dm_stack::{Stack, check_paths};
use dm_table::{DiskPath, LoadFault, Part, are_same};
use std::alloc::{AllocError, Global};

/// Looks up the image of each disk in a list of paths. A disk without a path has no image.
///
/// Cost: near-linear in the number of paths, plus one comparison for each path and disk. Memory: a copy of each path.
///
/// # Errors
///
/// `Twice` at the first path whose disk already has a path; otherwise `Unknown` at the first path whose disk isn't in
/// the stack. `Memory`, with the number 0, if memory ran out.
pub fn listed_images(
    alloc: Global,
    stack: &Stack,
    paths: &[DiskPath],
) -> Result<DiskImages, LoadFault>
    ensures listed { IfOk result (λ images. images_of stack.now paths.now ≡ Ok images) }
    ensures refused { IfErr result (λ fault. fault.kind ≢ Memory → images_of stack.now paths.now ≡ Err fault) }
    ensures memory { IfErr result (λ fault. fault.kind ≡ Memory → IsMemoryFault Source fault) }
{
    check_paths(alloc, stack, paths)?;
    match places_in(alloc, stack, paths) {
        Ok(places) => Ok(DiskImages::of_places(places)),
        Err(_) => Err(LoadFault::memory(Part::Source)),
    }
}

/// The images of all disks, in the order of the stack's disks.
fn places_in(
    alloc: Global,
    stack: &Stack,
    paths: &[DiskPath],
) -> Result<Vec<Option<ImagePlace>>, AllocError>
    ensures { IfOk result (λ places. places.items ≡ map (λ disk. image_in paths.now disk.name) stack.now.disks) }
{
    let mut places = Vec::new(alloc);
    for disk in stack.disks() {
        places.push(image_in(alloc, paths, disk.name.as_str())?)?;
    }
    Ok(places)
}

/// The image of the disk with this name; None if the list has no path for the disk.
fn image_in(alloc: Global, paths: &[DiskPath], name: &str) -> Result<Option<ImagePlace>, AllocError>
    ensures { IfOk result (λ image. image ≡ image_in paths.now name.now) }
{
    match path_of(paths, name) {
        Some(path) => {
            let text = String::from_str(alloc, path.file.as_str())?;
            Ok(Some(ImagePlace::new(text, path.extent, path.at.number)))
        }
        None => Ok(None),
    }
}

/// The first path for the disk with this name.
fn path_of<'a>(paths: &'a [DiskPath], name: &str) -> Option<&'a DiskPath>
    ensures { option_map (λ path. path.now) result ≡ find (λ path. is_same path.disk name.now) paths.entry.now }
{
    for path in paths {
        if are_same(path.disk.as_str().as_bytes(), name.as_bytes()) {
            return Some(path);
        }
    }
    None
}
