//! Reads the state that a stack's exception stores hold into a mapper.

ghost use Rattle.dm_store.specs.Prelude.{IfErr, OnOk, length, with_looked, IsWithinPlaces, none_taken, put, start_state, taken_at, IsSnapshot, Contents, disk_contents, IsStoreIn, IsStoreOf, told, told_header, start_of, store_sectors, stored_state, taken_in, Stored, by_header, stored};
ghost use Rattle.std.specs.Prelude.{◌≡◌, ◌<◌};

use crate::disk_images::DiskImages;
use crate::fault::{StoreFault, StoreRefusal};
use crate::header::{Header, read_header};
use crate::images::{Images, SECTOR};
use crate::list::read_list;
use crate::snapshot_store::store_at;
use crate::store::Store;
use dm_map::{Mapper, Taken};
use dm_stack::{DeviceId, Stack};

#[cfg(test)]
mod tests;

/// Reads the header of a store.
fn header_of<I: Images, T: Taken>(
    images: &mut I,
    places: &DiskImages,
    mapper: &mut Mapper<'_, T>,
    store: &Store,
) -> Result<Header, StoreFault>
    requires { IsStoreIn mapper.old.stack store.now }
    ensures same { mapper.new ≡ with_looked mapper.old mapper.new.looked }
    ensures still { (held : Contents) → I.IsSeen images.new held → I.IsSeen images.old held }
    ensures header { (held : Contents) → I.IsSeen images.new held → (used : Stored)
        → told_header used result ≡ by_header used store.now.chunk
        (store_sectors mapper.old.stack (disk_contents places.now held) store.now 0) }
{
    let home = mapper.first_homes(store.lower, 0, 1);
    let mut sector = [0; SECTOR];
    match places.read(images, home.disk, home.start, &mut sector) {
        Ok(()) => read_header(&sector, store.chunk.sectors()),
        Err(fault) => Err(StoreFault::Unread(fault)),
    }
}

/// Reads a store into the mapper. The snapshot must not have taken any chunks yet.
fn read_store<I: Images, T: Taken>(
    images: &mut I,
    places: &DiskImages,
    mapper: &mut Mapper<'_, T>,
    device: DeviceId,
    store: &Store,
) -> Result<(), StoreFault>
    requires of { IsStoreOf mapper.old.stack device store.now }
    requires there { device < length mapper.old.state }
    requires none { taken_at mapper.old.state device ≡ none_taken }
    ensures still { (held : Contents) → I.IsSeen images.new held → I.IsSeen images.old held }
    ensures stored { (held : Contents) → I.IsSeen images.new held
        → told result (taken_at mapper.new.state device) ≡ taken_in (stored
        (store_sectors mapper.old.stack (disk_contents places.now held) store.now) store.now) }
    ensures state { OnOk result (mapper.new.state
        ≡ put mapper.old.state device (taken_at mapper.new.state device)) }
    ensures stack { mapper.new.stack ≡ mapper.old.stack }
    ensures failed { mapper.new.failed ≡ mapper.old.failed }
{
    match header_of(images, places, mapper, store)? {
        Header::Fresh => Ok(()),
        Header::Lost => {
            mapper.lose(device);
            Ok(())
        }
        Header::Used => read_list(images, places, mapper, device, store),
    }
}

/// Reads the store of a snapshot into the mapper, if the store keeps a list.
fn read_snapshot<I: Images, T: Taken>(
    images: &mut I,
    places: &DiskImages,
    stack: &Stack,
    mapper: &mut Mapper<'_, T>,
    device: DeviceId,
) -> Result<(), StoreFault>
    requires snapshot { IsSnapshot stack.now device }
    requires stack { mapper.old.stack ≡ stack.now }
    requires there { device < length mapper.old.state }
    requires none { taken_at mapper.old.state device ≡ none_taken }
    ensures still { (held : Contents) → I.IsSeen images.new held → I.IsSeen images.old held }
    ensures stored { (held : Contents) → I.IsSeen images.new held
        → told result (taken_at mapper.new.state device)
        ≡ start_of stack.now (disk_contents places.now held) device }
    ensures state { OnOk result (mapper.new.state
        ≡ put mapper.old.state device (taken_at mapper.new.state device)) }
    ensures stack { mapper.new.stack ≡ mapper.old.stack }
    ensures failed { mapper.new.failed ≡ mapper.old.failed }
{
    match store_at(stack, device) {
        Some(store) => read_store(images, places, mapper, device, &store),
        None => Ok(()),
    }
}

/// Reads the stores of all snapshots of a stack into a new mapper, which is then in the state that the stores hold.
/// Snapshots are read in the order of the tables, up to the first that is refused.
///
/// Reads the header of each store and its list, up to the end of the metadata area that has the first free pair, in
/// blocks of at most 64 KiB. Allocates nothing. Cost: linear in the number of pairs, with one look-up of a chunk for
/// each pair.
///
/// # Errors
///
/// The first snapshot whose store is refused, and why. The state of the mapper is then unspecified.
pub fn read_stores<I: Images, T: Taken>(
    images: &mut I,
    places: &DiskImages,
    stack: &Stack,
    mapper: &mut Mapper<'_, T>,
) -> Result<(), StoreRefusal>
    requires stack { mapper.old.stack ≡ stack.now }
    requires fresh { mapper.old.state ≡ start_state stack.now }
    ensures still { (held : Contents) → I.IsSeen images.new held → I.IsSeen images.old held }
    ensures stored { (held : Contents) → I.IsSeen images.new held
        → told result mapper.new.state ≡ stored_state stack.now (disk_contents places.now held) }
    ensures there { IfErr result (λ refusal. refusal.snapshot < length stack.now.devices) }
    ensures within { IsWithinPlaces stack.now mapper.new.state }
    ensures stack { mapper.new.stack ≡ mapper.old.stack }
    ensures failed { mapper.new.failed ≡ mapper.old.failed }
{
    let snapshots = stack.snapshots();
    for next in 0..snapshots.len() {
        let snapshot = snapshots[next];
        if let Err(fault) = read_snapshot(images, places, stack, mapper, snapshot) {
            mapper.recall_places();
            return Err(StoreRefusal { snapshot, fault });
        }
    }
    mapper.recall_places();
    Ok(())
}
