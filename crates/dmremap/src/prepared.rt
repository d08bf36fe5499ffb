//! How a run of `map` starts over a stack: with a mapper in some state, and the texts of the disks' names.
//!
//! All memory of a run is allocated here, after the load and before a request is read. The snapshots are fresh, or as
//! the exception stores say, and earlier requests may have changed them.

ghost use Rattle.dmremap.specs.Prelude.{IfErr, IfOk, None, Some, IsErrAnd, start_state, CanMap, images_of, Contents, disk_contents, stored_state, IsOutOfMemory, IsReadOnIf, IsUnasked, delivered_if, AreImagesAsked, IsBegunAt, start_at, start_over, stored_start, ArePlayedIf, ArePlayedOver, Start, earlier_from, fresh_start};
ghost use Rattle.dm_stream.specs.runs.Earlier.{HasPlayed};
ghost use Rattle.std.specs.Prelude.{◌≡◌, ◌⊎◌};

use crate::disk_paths::load_images;
use crate::exit::Refusal;
use crate::listed_images::ListedImages;
use dm_map::{Mapper, TrieTaken};
use dm_stack::Stack;
use dm_store::{DiskImages, Images, listed_images, read_stores};
use dm_stream::{DiskTexts, EarlierFault, play_earlier};
use dm_table::{Input, LoadFault, Part};
use std::alloc::{AllocError, Global};
use std::mem::forget;

/// The mapper of a stack, and the texts of its disks' names.
#[derive(Drop)]
pub struct Prepared<'s> {
    pub mapper: Mapper<'s, TrieTaken>,
    pub texts: DiskTexts<'s>,
}

/// Starts a run with all snapshots fresh. Fails only when out of memory.
pub(crate) fn begin(alloc: Global, stack: &Stack) -> Result<Prepared<'_>, Refusal>
    ensures going { IfOk result (λ prepared. CanMap stack.now prepared.mapper) }
    ensures texts { IfOk result (λ prepared. prepared.texts ≡ stack.now) }
    ensures begun { IsBegunAt stack.now None (fresh_start stack.now) result }
    ensures state { IfOk result (λ prepared. prepared.mapper.state ≡ start_state stack.now) }
    ensures memory { IfErr result IsOutOfMemory }
{
    match prepare(alloc, stack) {
        Ok(prepared) => Ok(prepared),
        Err(_) => Err(Refusal::Load(LoadFault::memory(Part::Source))),
    }
}

/// Plays earlier requests, if there are any, after a run has started.
pub(crate) fn after_earlier<'s, B: Input>(
    stack: &'s Stack,
    begun: Result<Prepared<'s>, Refusal>,
    earlier: &mut Option<B>,
) -> Result<Prepared<'s>, Refusal>
    requires going { IfOk begun (λ prepared. CanMap stack.now prepared.mapper) }
    requires texts { IfOk begun (λ prepared. prepared.texts ≡ stack.now) }
    ensures going { IfOk result (λ prepared. CanMap stack.now prepared.mapper) }
    ensures texts { IfOk result (λ prepared. prepared.texts ≡ stack.now) }
    ensures begun { (start : Start) → IsBegunAt stack.now None start begun.entry
        → IsBegunAt stack.now (delivered_if B.past earlier.old earlier.new) start result }
    ensures asked { (start : Start) → IsBegunAt stack.now None start begun.entry → (earlier.new ≡ earlier.old)
        ⊎ ArePlayedOver B.past start stack.now earlier.old earlier.new }
    ensures memory { IfErr result (λ why. IsOutOfMemory why
        → IsErrAnd begun.entry IsOutOfMemory × IsUnasked B.past earlier.old earlier.new) }
    ensures earlier { IsReadOnIf B.past earlier.old earlier.new }
{
    match begun {
        Ok(mut prepared) => match play_if(stack, &mut prepared.mapper, earlier) {
            Ok(()) => Ok(prepared),
            Err(fault) => Err(Refusal::Earlier(fault)),
        },
        Err(unbegun) => Err(unbegun),
    }
}

/// Starts a run in the state that the stack's exception stores hold; a list says which images hold the stores.
pub(crate) fn begin_in<'s, I: Images>(
    alloc: Global,
    stack: &'s Stack,
    disks: &mut ListedImages<I>,
) -> Result<Prepared<'s>, Refusal>
    ensures going { IfOk result (λ prepared. CanMap stack.now prepared.mapper) }
    ensures texts { IfOk result (λ prepared. prepared.texts ≡ stack.now) }
    ensures begun { (held : Contents) → I.IsSeen disks.new.images held → IsBegunAt stack.now None
        (start_over held stack.now (Some (images_of stack.now disks.old.paths.items))) result }
    ensures images { (held : Contents) → I.IsSeen disks.new.images held → I.IsSeen disks.old.images held }
{
    match listed_images(alloc, stack, &disks.paths) {
        Ok(places) => {
            let begun = begin_stored(alloc, stack, &places, &mut disks.images);
            // The program ends soon, and then the system frees all memory at once.
            forget(places);
            begun
        }
        Err(fault) => Err(Refusal::Load(fault)),
    }
}

/// Starts a run in the state that the stack's exception stores hold, if a list of paths says which images hold them, or
/// else with all snapshots fresh.
pub(crate) fn begin_by<'s, P: Input, I: Images>(
    alloc: Global,
    stack: &'s Stack,
    paths: &mut Option<P>,
    images: &mut I,
) -> Result<Prepared<'s>, Refusal>
    ensures going { IfOk result (λ prepared. CanMap stack.now prepared.mapper) }
    ensures texts { IfOk result (λ prepared. prepared.texts ≡ stack.now) }
    ensures begun { (held : Contents) → I.IsSeen images.new held → IsBegunAt stack.now None
        (stored_start (delivered_if P.past paths.old paths.new) held stack.now) result }
    ensures memory { IfErr result (λ why. IsOutOfMemory why → images.new ≡ images.old) }
    ensures images { (held : Contents) → I.IsSeen images.new held → I.IsSeen images.old held }
    ensures asked { AreImagesAsked stack.now (delivered_if P.past paths.old paths.new) images.old images.new }
    ensures read_on { IsReadOnIf P.past paths.old paths.new }
{
    match paths {
        Some(paths) => match load_images(alloc, stack, paths) {
            Ok(places) => {
                let begun = begin_stored(alloc, stack, &places, images);
                // The program ends soon, and then the system frees all memory at once.
                forget(places);
                begun
            }
            Err(fault) => Err(Refusal::Load(fault)),
        },
        None => begin(alloc, stack),
    }
}

/// Starts a run in the state that the stack's exception stores hold, given the places of its disks in images.
pub(crate) fn begin_stored<'s, I: Images>(
    alloc: Global,
    stack: &'s Stack,
    places: &DiskImages,
    images: &mut I,
) -> Result<Prepared<'s>, Refusal>
    ensures going { IfOk result (λ prepared. CanMap stack.now prepared.mapper) }
    ensures texts { IfOk result (λ prepared. prepared.texts ≡ stack.now) }
    ensures begun { (held : Contents) → I.IsSeen images.new held → IsBegunAt stack.now None
        (start_at stack.now (stored_state stack.now (disk_contents places.now held))) result }
    ensures memory { IfErr result (λ why. IsOutOfMemory why → images.new ≡ images.old) }
    ensures images { (held : Contents) → I.IsSeen images.new held → I.IsSeen images.old held }
{
    let mut prepared = begin(alloc, stack)?;
    match read_stores(images, places, stack, &mut prepared.mapper) {
        Ok(()) => Ok(prepared),
        Err(refusal) => Err(Refusal::Store(refusal.message(stack))),
    }
}

/// Plays earlier requests, if there are any, which changes the mapper's state.
fn play_if<'s, B: Input>(
    stack: &'s Stack,
    mapper: &mut Mapper<'s, TrieTaken>,
    earlier: &mut Option<B>,
) -> Result<(), EarlierFault>
    requires { CanMap stack.now mapper.old }
    ensures going { CanMap stack.now mapper.new }
    ensures read_on { IsReadOnIf B.past earlier.old earlier.new }
    ensures asked { ArePlayedIf B.past mapper.old.state stack.now earlier.old earlier.new }
    ensures played { HasPlayed (earlier_from mapper.old.state stack.now
        (delivered_if B.past earlier.old earlier.new)) mapper.new.state result }
{
    match earlier {
        Some(earlier) => play_earlier(stack, mapper, earlier),
        None => Ok(()),
    }
}

/// Makes the mapper and the texts of the disks' names. Fails only when out of memory.
fn prepare(alloc: Global, stack: &Stack) -> Result<Prepared<'_>, AllocError>
    ensures going { IfOk result (λ prepared. CanMap stack.now prepared.mapper) }
    ensures state { IfOk result (λ prepared. prepared.mapper.state ≡ start_state stack.now) }
    ensures texts { IfOk result (λ prepared. prepared.texts ≡ stack.now) }
{
    let mapper = Mapper::new(alloc, stack.looker())?;
    let texts = DiskTexts::new(alloc, stack)?;
    Ok(Prepared { mapper, texts })
}
