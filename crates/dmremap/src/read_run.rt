//! Writes the bytes of a device's sectors, for an opened stack, from the images that hold the stack's disks.
//!
//! `specs/ReadWhole.antt` defines the answer, given the places of the disks in images and the contents of the images.

ghost use Rattle.dmremap.specs.Prelude.{IfErr, IfOk, IfSome, List, Ok, Option, Result, Some, InputPast, written_since, HasWritten, Contents, disk_contents, Place, Does, exit_status, failed_writes, range_words, AreSettled, IsExtentOf, count_in, extent_answer, extent_of, range_answer, written_exit, AskedBy, LoadFault};
ghost use Rattle.dmremap.specs.declared.status.TheConstants.{STATUS_MEMORY};
ghost use Rattle.std.specs.Prelude.{◌≡◌, ◌+◌, ◌≤◌};

use crate::exit::{Exit, Refusal};
use crate::job::SectorRange;
use crate::prepared::begin_stored;
use dm_read::{Stop, write_sectors};
use dm_stack::{DeviceId, Stack};
use dm_store::{DiskImages, Images};
use dm_stream::Ending;
use dm_table::{LoadFault, OutFault, Output};
use std::alloc::Global;
use std::mem::forget;

/// Consecutive sectors of a device.
#[derive(Clone, Copy)]
pub(crate) struct Extent {
    pub(crate) device: DeviceId,
    pub(crate) start: u64,
    pub(crate) len: u64,
}

/// How many sectors to read from sector `from` of a device with `len` sectors; None if one of them is past the end.
fn count_in(from: u64, count: Option<u64>, len: u64) -> Option<u64>
    ensures is { result ≡ count_in from count len }
    ensures inside { IfSome result (λ count. from + count ≤ len) }
{
    if from > len {
        return None;
    }
    let left = len - from;
    let asked = count.unwrap_or(left);
    if asked > left {
        return None;
    }
    Some(asked)
}

/// The extent of a stack that a range names, or a refusal.
fn extent_of(stack: &Stack, range: SectorRange<'_>) -> Result<Extent, Refusal>
    ensures is { result ≡ extent_of stack.now (range_words range.entry) }
    ensures inside { IfOk result (IsExtentOf stack.now) }
{
    let Some(device) = stack.device(range.device) else {
        return Err(Refusal::Device);
    };
    match count_in(range.from, range.count, stack.len(device)) {
        Some(len) => Ok(Extent {
            device,
            start: range.from,
            len,
        }),
        None => Err(Refusal::PastEnd),
    }
}

/// The exit of a command that wrote sectors: done, stopped at one that can't be read, or a write fault.
fn written_exit(written: Result<Option<Stop>, OutFault>) -> Exit
    ensures { result ≡ written_exit written }
{
    match written {
        Ok(None) => Exit::Ended(Ending::Done),
        Ok(Some(stop)) => Exit::Stopped(stop),
        Err(OutFault) => Exit::Ended(Ending::WriteFault),
    }
}

/// Writes the bytes of an extent of a stack, in the state that its exception stores hold, given the places of its disks
/// in images. Returns the exit that the command would have, and doesn't flush the output.
fn read_extent<I: Images, W: Output>(
    alloc: Global,
    stack: &Stack,
    extent: Extent,
    places: &DiskImages,
    images: &mut I,
    output: &mut W,
) -> Exit
    requires { IsExtentOf stack.now extent }
    ensures did { (held : Contents) → I.IsSeen images.new held → Does
        (λ answer. extent_answer stack.now (disk_contents places.now held) (Ok extent) ≡ Some answer)
        (written_since (W.past output.old) (W.past output.new)) result }
    ensures writes { HasWritten (W.past output.old) (W.past output.new) (failed_writes result) }
    ensures asked { (past : InputPast) → AskedBy past past result }
    ensures memory { exit_status result ≡ STATUS_MEMORY → images.new ≡ images.old }
    ensures images { (held : Contents) → I.IsSeen images.new held → I.IsSeen images.old held }
{
    match begin_stored(alloc, stack, places, images) {
        Ok(mut prepared) => written_exit(write_sectors(
            images,
            places,
            &mut prepared.mapper,
            extent.device,
            extent.start,
            extent.len,
            output,
        )),
        Err(refusal) => Exit::Refused(refusal),
    }
}

/// Writes the bytes of a range of a device's sectors, given the places of the stack's disks in images, and returns the
/// exit that the command would have. Doesn't flush the output.
pub(crate) fn read_range<I: Images, W: Output>(
    alloc: Global,
    stack: &Stack,
    range: SectorRange<'_>,
    places: Result<DiskImages, LoadFault>,
    images: &mut I,
    output: &mut W,
) -> Exit
    ensures did { (held : Contents) (at : Option (Result (List (Option Place)) LoadFault)) → AreSettled at places
        → I.IsSeen images.new held
        → Does (λ answer. range_answer held stack.now (range_words range.entry) at ≡ Some answer)
        (written_since (W.past output.old) (W.past output.new)) result }
    ensures writes { HasWritten (W.past output.old) (W.past output.new) (failed_writes result) }
    ensures asked { (past : InputPast) → AskedBy past past result }
    ensures memory { exit_status result ≡ STATUS_MEMORY → images.new ≡ images.old }
    ensures images { (held : Contents) → I.IsSeen images.new held → I.IsSeen images.old held }
    ensures used { IfErr places (λ fault. images.new ≡ images.old) }
{
    match places {
        Ok(places) => match extent_of(stack, range) {
            Ok(extent) => {
                let exit = read_extent(alloc, stack, extent, &places, images, output);
                // The program ends soon, and then the system frees all memory at once.
                forget(places);
                exit
            }
            Err(refusal) => Exit::Refused(refusal),
        },
        Err(fault) => Exit::Refused(Refusal::Load(fault)),
    }
}
