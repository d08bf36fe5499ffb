//! Reads the list of a store pair by pair, up to the first free pair, and then to the end of the metadata area.
//!
//! A list with a faulty pair is still read to its end, because a sector that can't be read is reported first. Of the
//! faults of pairs, `Order` is reported first, then `Range`, then `Again`.

ghost use Rattle.dm_store.specs.Prelude.{List, None, OnOk, is_some, length, true, ℕ, with_looked, number_in, none_taken, put, taken_at, with_chunk, Contents, disk_contents, pair_count, HasRows, IsStoreIn, IsStoreOf, next_fault, told_list, store_sectors, Holds, ended, is_near, is_placed, listed, of_list};
ghost use Rattle.dm_table.specs.declared.io.sectors.TheConstants.{MOST_BYTES};
ghost use Rattle.std.specs.Prelude.{◌≡◌, ◌<◌, ◌^◌};

use crate::disk_images::DiskImages;
use crate::fault::{ListFault, StoreFault};
use crate::images::{Images, MOST_BYTES};
use crate::layout::{pair_count, rest_count};
use crate::pair::Pair;
use crate::row_range::RowRange;
use crate::rows::read_pair;
use crate::store::Store;
use dm_map::{Mapper, Taken};
use dm_stack::{DeviceId, place};
use dm_table::StoreKind;

/// Takes the chunk of a pair, unless this or an earlier pair is faulty. Returns the fault of the list so far, if any.
fn take_listed<T: Taken>(
    mapper: &mut Mapper<'_, T>,
    device: DeviceId,
    store: &Store,
    fault: Option<ListFault>,
    number: u64,
    pair: Pair,
) -> Option<ListFault>
    requires of { IsStoreOf mapper.old.stack device store.now }
    requires valid { fault ≡ None → (taken_at mapper.old.state device).valid ≡ true }
    requires count { fault ≡ None → length (taken_at mapper.old.state device).chunks ≡ number }
    requires number { number < 2 ^ 60 }
    ensures fault { result ≡ next_fault (is_placed store.now number pair) (is_near store.now pair)
        (is_some (number_in pair.old (taken_at mapper.old.state device).chunks)) fault }
    ensures taken { result ≡ None → mapper.new.state
        ≡ put mapper.old.state device (with_chunk (taken_at mapper.old.state device) pair.old) }
    ensures stack { mapper.new.stack ≡ mapper.old.stack }
    ensures failed { mapper.new.failed ≡ mapper.old.failed }
{
    if number >= store.places || pair.new != place(StoreKind::Persistent, store.chunk, number) {
        return Some(ListFault::Order);
    }
    match fault {
        Some(ListFault::Order) => Some(ListFault::Order),
        _ if pair.old > store.last => Some(ListFault::Range),
        Some(fault) => Some(fault),
        None => {
            if mapper.restore(device, pair.old) {
                None
            } else {
                Some(ListFault::Again)
            }
        }
    }
}

/// The result for a list that was read to its end, given the fault of its pairs, if any.
fn list_result(fault: Option<ListFault>) -> Result<(), StoreFault>
    ensures list { (chunks : List ℕ) → told_list result (Holds chunks) ≡ of_list fault chunks }
    ensures none { OnOk result (fault ≡ None) }
{
    match fault {
        None => Ok(()),
        Some(fault) => Err(StoreFault::Listed(fault)),
    }
}

/// Checks the end of a list: the pair with this number and all later ones in its metadata area must be zero. `fault` is
/// the fault of the pairs before.
fn end_list<I: Images, T: Taken>(
    images: &mut I,
    places: &DiskImages,
    mapper: &mut Mapper<'_, T>,
    store: &Store,
    fault: Option<ListFault>,
    number: u64,
    rows: &mut RowRange,
    block: &mut [u8],
) -> Result<(), StoreFault>
    requires store { IsStoreIn mapper.old.stack store.now }
    requires number { number < pair_count store.now.chunk store.now.len }
    requires near { number < 2 ^ 51 }
    requires block { length block.old ≡ MOST_BYTES }
    ensures same { mapper.new ≡ with_looked mapper.old mapper.new.looked }
    ensures still { (held : Contents) → I.IsSeen images.new held → I.IsSeen images.old held }
    ensures ended { (held : Contents) → I.IsSeen images.new held
        → HasRows (store_sectors mapper.old.stack (disk_contents places.now held) store.now)
        store.now.chunk rows.old block.old
        → (chunks : List ℕ) → told_list result (Holds chunks)
        ≡ ended (store_sectors mapper.old.stack (disk_contents places.now held) store.now) store.now.chunk number
        (of_list fault chunks) }
    ensures none { OnOk result (fault ≡ None) }
{
    for next in 0..rest_count(store.chunk.sectors(), number) {
        match read_pair(images, places, mapper, store, number + next, rows, block) {
            Ok(pair) => {
                if !pair.are_zeros() {
                    return Err(StoreFault::Gap);
                }
            }
            Err(unread) => return Err(StoreFault::Unread(unread)),
        }
    }
    list_result(fault)
}

/// Reads the list of a store into the mapper. The snapshot must not have taken any chunks yet.
pub(crate) fn read_list<I: Images, T: Taken>(
    images: &mut I,
    places: &DiskImages,
    mapper: &mut Mapper<'_, T>,
    device: DeviceId,
    store: &Store,
) -> Result<(), StoreFault>
    requires of { IsStoreOf mapper.old.stack device store.now }
    requires there { device < length mapper.old.state }
    requires none { taken_at mapper.old.state device ≡ none_taken }
    ensures still { (held : Contents) → I.IsSeen images.new held → I.IsSeen images.old held }
    ensures list { (held : Contents) → I.IsSeen images.new held
        → told_list result (Holds (taken_at mapper.new.state device).chunks)
        ≡ listed (store_sectors mapper.old.stack (disk_contents places.now held) store.now) store.now }
    ensures state { OnOk result (mapper.new.state
        ≡ put mapper.old.state device (taken_at mapper.new.state device)) }
    ensures valid { OnOk result ((taken_at mapper.new.state device).valid ≡ true) }
    ensures stack { mapper.new.stack ≡ mapper.old.stack }
    ensures failed { mapper.new.failed ≡ mapper.old.failed }
{
    let mut block = [0; MOST_BYTES];
    let mut rows = RowRange::none();
    let mut fault = None;
    for number in 0..pair_count(store.chunk.sectors(), store.len) {
        let pair = match read_pair(images, places, mapper, store, number, &mut rows, &mut block) {
            Ok(pair) => pair,
            Err(unread) => return Err(StoreFault::Unread(unread)),
        };
        if pair.new == 0 {
            return end_list(
                images, places, mapper, store, fault, number, &mut rows, &mut block,
            );
        }
        fault = take_listed(mapper, device, store, fault, number, pair);
    }
    list_result(fault)
}
