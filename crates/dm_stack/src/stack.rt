//! Checked stacks of devices and disks.
//!
//! Soundness is the invariant of `Stack`, so callers never check it again: only a load, with its checks, makes a
//! `Stack`. A load looks up all names; all later code uses ids.

ghost use Rattle.dm_stack.specs.Prelude.{ℕ, IfErr, IfOk, IfSome, IsTrue, OnOk, List, Option, Some, drop, is_none, length, position, take, true, Memory, Source, code, is_device_name, is_disk_name, IsMemoryFault, resolved_lines, IsLineOf, AreTops, IsFirstClash, IsThere, IsTidy, IsTop, claims, Description, described, device_len, disk_len, is_ro_at, is_same, name_at, disk_name_at, lines_at, IsDeeperByOne, IsLength, all_places, snapshots, stack_depth, AreSnapshots, IsLast, binary_digits, IsRefusedBy, IsSound, Claim, Clash, LoadFault};
ghost use Rattle.dm_stack.specs.declared.checks.graph.TheConstants.{MOST_DEPTH};
ghost use Rattle.dm_stack.specs.declared.checks.limits.TheConstants.{MOST_CHUNK, MOST_DEVICES, MOST_DISKS};
ghost use Rattle.dm_stack.specs.declared.checks.limits.TheConstants.{MOST_LENGTH, MOST_LINES, MOST_PLACES};
ghost use Rattle.dm_stack.specs.declared.checks.limits.TheConstants.{MOST_SNAPSHOT_CHUNK, MOST_STRIPES};
ghost use Rattle.std.specs.Prelude.{◌≡◌, ◌≢◌, ◌+◌, ◌<◌, ◌≤◌, ◌^◌, ◌↔◌, ◌∷◌, ◌++◌};

use crate::checks::load::check;
use crate::claims::claim::{claims, is_named, unclaimed};
use crate::claims::clash::Clash;
use crate::claims::tidy::first_clash;
use crate::id::{DeviceId, DiskId};
use crate::lines::line_search::{LastLine, find};
use crate::lines::resolved::Resolved;
use crate::lines::resolved_line::Found;
use crate::lines::resolved_table::ResolvedDevice;
use crate::names::name_index::NameIndex;
use dm_table::{DeviceSpec, Disk, Listed, LoadFault, Reserved};
use std::alloc::{AllocError, Global};
use std::marker::Model;

/// Devices and disks in which no check of a load finds a fault.
#[derive(Drop)]
pub struct Stack {
    devices: Listed<DeviceSpec>,
    disks: Listed<Disk>,
    device_names: NameIndex,
    disk_names: NameIndex,
    found: Reserved<ResolvedDevice>,
    depth: u32,
    snapshots: Reserved<DeviceId>,
}

impl Model for Stack {
    ghost use Rattle.dm_stack.specs.Description.{Description, described};
    ghost use Rattle.dm_stack.specs.Stack.{IsLoaded};

    ghost Value = { Description };

    ghost view = { λ stack. record { devices = stack.devices; disks = stack.disks } };

    ghost invariant = { λ stack. IsLoaded (described stack.devices stack.disks)
        stack.device_names stack.disk_names stack.found.items stack.depth stack.snapshots.items };
}

impl Stack {
    /// Loads a stack, or fails with the first fault of the first check that finds one.
    ///
    /// Lengths, starts and offsets are in sectors of 512 bytes. The ids of devices and disks are their indexes in
    /// these lists. The checks in order, each with the kind of its fault:
    ///
    /// 1. `Limit`: at most 1,024 devices, 1,024 disks, and 65,536 lines of all tables together, checked in this
    ///    order. The fault is at the first one too many.
    /// 2. `Limit`: no start, length, end or offset of a line is above 2^50, and then no length of a disk.
    /// 3. `Twice`: a device with the name of an earlier device, then a disk with the name of an earlier disk.
    /// 4. `Empty`: a device without lines, or a line of length 0, then a disk of length 0.
    /// 5. `Gap`, `Overlap`: a line that starts after the end of the line before, or before that end. The first
    ///    line must start at 0.
    /// 6. `Unknown`: a line that names a device or a disk that isn't in the lists.
    /// 7. `Cycle`: the first device that names itself, directly or through other devices.
    /// 8. `Deep`: a device whose depth is above 32. A device that names no device has depth 1; any other is one
    ///    deeper than the deepest device that it names.
    /// 9. `Stripe`: a striped line with fewer than 1 or more than 128 columns, a chunk below 1 or above 2^32 - 1
    ///    sectors, or a length that is not a multiple of the number of columns times the chunk.
    /// 10. `Range`: a line that passes the end of a device or disk that it names.
    /// 11. `Snapshot`: a snapshot or an origin that is not the only line of its table, or is not as long as the
    ///     origin that it names, or a snapshot whose chunk size isn't a power of two from 1 to 1,024 sectors.
    /// 12. `Store`: a snapshot whose store is, or is above, a device that is read-only or has a line that is
    ///     neither linear nor striped.
    /// 13. `Limit`: the first snapshot whose store, with all earlier stores, has room for more than 4,194,304
    ///     chunks.
    ///
    /// A check goes over the devices in order, and over the lines of each device; disks come last. `Memory`, with
    /// the number 0, means that memory ran out, and tells nothing about the lists.
    ///
    /// Cost: near-linear in the lines and their columns, the devices and the disks, with memory for a copy of
    /// each name and each line, 128 to 256 bytes more for each device and each disk, and 16 KiB. Each line of an
    /// origin costs a walk over the snapshots, with memory for those of the origin. Each device that is too deep
    /// costs a search of all devices that it reaches.
    pub fn load(
        alloc: Global,
        devices: Vec<DeviceSpec>,
        disks: Vec<Disk>,
    ) -> Result<Stack, LoadFault>
        ensures devices { IfOk result (λ stack. stack.devices ≡ devices.items) }
        ensures disks { IfOk result (λ stack. stack.disks ≡ disks.items) }
        ensures sound { OnOk result (IsSound (described devices.items disks.items)) }
        ensures fault { IfErr result (λ fault. fault.kind ≢ Memory
            → IsRefusedBy (described devices.items disks.items) fault) }
        ensures memory { IfErr result (λ fault. fault.kind ≡ Memory → IsMemoryFault Source fault) }
        ensures one { (stack : Description) (found other : LoadFault)
            → IsRefusedBy stack found → IsRefusedBy stack other → found ≡ other }
        ensures never { (stack : Description) (found : LoadFault)
            → IsSound stack → IsRefusedBy stack found → ⊥ }
        // The values of the limits as plain numbers.
        ensures limits { (MOST_DEVICES ≡ 1024) × (MOST_DISKS ≡ 1024) × (MOST_LINES ≡ 65536)
            × (MOST_DEPTH ≡ 32) × (MOST_LENGTH ≡ 2 ^ 50) × (MOST_STRIPES ≡ 128) × (MOST_CHUNK + 1 ≡ 2 ^ 32)
            × (MOST_SNAPSHOT_CHUNK ≡ 1024) × (MOST_PLACES ≡ 4194304) }
    {
        let checked = check(alloc, &devices, &disks)?;
        Ok(Stack {
            devices: Listed::from_vec(devices),
            disks: Listed::from_vec(disks),
            device_names: checked.names.devices,
            disk_names: checked.names.disks,
            found: Reserved::from_vec(checked.found),
            depth: checked.depth,
            snapshots: Reserved::from_vec(checked.snapshots),
        })
    }

    /// Returns the devices and disks that were loaded, in order. No memory is allocated.
    pub fn into_parts(self) -> (Vec<DeviceSpec>, Vec<Disk>)
        ensures devices { result.0.items ≡ self.devices }
        ensures disks { result.1.items ≡ self.disks }
    {
        (self.devices.into_vec(), self.disks.into_vec())
    }

    /// The id of the device with this name.
    pub fn device(&self, name: &str) -> Option<DeviceId>
        ensures { result ≡ position (λ device. is_same device.name name.now) self.now.devices }
    {
        match self.device_names.find(name) {
            Some(index) => Some(DeviceId::new(index)),
            None => None,
        }
    }

    /// The id of the disk with this name.
    pub fn disk(&self, name: &str) -> Option<DiskId>
        ensures { result ≡ position (λ disk. is_same disk.name name.now) self.now.disks }
    {
        match self.disk_names.find(name) {
            Some(index) => Some(DiskId::new(index)),
            None => None,
        }
    }

    /// The device whose name is at the front of a text and ends at a space, and the length of the name. This is
    /// the fast way to the device of a request. `None` tells nothing about the text, because near the text's end,
    /// or if another name is similar, the name may not be found.
    ///
    /// No memory is allocated. Cost: about the same for any number of devices, and for any name of up to 15
    /// bytes.
    #[inline(always)]
    pub fn device_at_front(&self, text: &[u8]) -> Option<(DeviceId, usize)>
        ensures device { IfSome result (λ found.
            position (λ device. is_same device.name (take found.1 text.now)) self.now.devices ≡ Some found.0) }
        ensures name { IfSome result (λ found. is_device_name (take found.1 text.now) ≡ true) }
        ensures space { IfSome result
            (λ found. text.now ≡ take found.1 text.now ++ code " " ∷ drop (found.1 + 1) text.now) }
    {
        let (index, len) = self.device_names.find_in_text(text)?;
        // The type of a device's name guarantees that it has the form of a device name.
        let _name = self.devices.as_slice()[index].name.as_str();
        Some((DeviceId::new(index), len))
    }

    /// Whether any device has its lines in buckets, which requires more than three lines. If none has,
    /// `starts_ahead` reads nothing. Cost: linear in the devices.
    pub fn has_buckets(&self) -> bool {
        self.found
            .as_slice()
            .iter()
            .any(|device| device.table.has_buckets())
    }

    /// A number computed from the starts of the lines that a look-up of this sector reads first, if the device's
    /// lines are in buckets. The call prefetches these lines.
    ///
    /// The number itself means nothing. The call reads the index of a bucket's first line, and up to four lines
    /// from that line on; it compares no line and counts nothing. No memory is allocated.
    #[inline(always)]
    pub fn starts_ahead(&self, device: DeviceId, sector: u64) -> Option<u64> {
        self.found
            .as_slice()
            .get(device.index())?
            .table
            .starts_ahead(sector)
    }

    /// The chunk that holds a sector, if the device is a snapshot.
    ///
    /// The call reads the device's only line, and counts nothing. No memory is allocated.
    #[inline(always)]
    pub fn chunk_ahead(&self, device: DeviceId, sector: u64) -> Option<u64> {
        self.found
            .as_slice()
            .get(device.index())?
            .table
            .chunk_ahead(sector)
    }

    /// The length of a device of the stack in sectors, from 1 to 2^50: the end of its last line.
    pub fn len(&self, device: DeviceId) -> u64
        requires { device < length self.now.devices }
        ensures len { result ≡ device_len self.now device }
        ensures size { IsLength result }
    {
        self.found(device).end
    }

    /// The length of a disk of the stack in sectors, from 1 to 2^50.
    pub fn disk_len(&self, disk: DiskId) -> u64
        requires { disk < length self.now.disks }
        ensures len { result ≡ disk_len self.now disk }
        ensures size { IsLength result }
    {
        self.disks.as_slice()[disk.index()].len
    }

    /// The number of devices, at most 1,024.
    pub fn device_count(&self) -> usize
        ensures { result ≡ length self.now.devices }
    {
        self.devices.as_slice().len()
    }

    /// The disks, in order.
    pub fn disks(&self) -> &[Disk]
        ensures { result.now ≡ self.now.disks }
    {
        self.disks.as_slice()
    }

    /// The number of disks, at most 1,024.
    pub fn disk_count(&self) -> usize
        ensures { result ≡ length self.now.disks }
    {
        self.disks.as_slice().len()
    }

    /// The greatest depth of any device, or 0 if there are none. A device is one deeper than the deepest device
    /// or disk that it names; a disk's depth is 0.
    pub fn depth(&self) -> u32
        ensures depth { result ≡ stack_depth self.now }
        // Every value of type `Stack` is sound.
        ensures sound { IsSound self.now }
        ensures rule { IsDeeperByOne self.now }
    {
        self.depth
    }

    /// The ids of the devices that are snapshots, in rising order: the only line of each is a snapshot line, and
    /// no other device has one at its first sector. Their stores have room for at most 4,194,304 chunks together.
    pub fn snapshots(&self) -> &[DeviceId]
        ensures ids { result.now ≡ snapshots self.now }
        ensures all { AreSnapshots self.now result.now }
        ensures places { all_places self.now ≤ MOST_PLACES }
    {
        self.snapshots.as_slice()
    }

    /// Whether a device of the stack is read-only.
    pub fn is_ro(&self, device: DeviceId) -> bool
        requires { device < length self.now.devices }
        ensures { result ≡ is_ro_at self.now device }
    {
        self.found(device).ro
    }

    /// Whether no line of the stack names the device, so that no claim is on it.
    ///
    /// No memory is allocated. Cost: linear in the lines of the stack and their columns.
    pub fn is_top(&self, device: DeviceId) -> bool
        requires { device < length self.now.devices }
        ensures { IsTrue result ↔ IsTop self.now device }
    {
        !is_named(&self.resolved(), device)
    }

    /// For each device of the stack, whether no line names it, as `is_top` returns.
    ///
    /// Fails only when out of memory. Cost: linear in the lines of the stack and their columns, with memory for
    /// the claims.
    pub fn tops(&self, alloc: Global) -> Result<Vec<bool>, AllocError>
        ensures { IfOk result (λ tops. AreTops self.now tops.items) }
    {
        let claims = claims(alloc, &self.resolved())?;
        unclaimed(alloc, &claims, self.device_count())
    }

    /// Finds the first claim that clashes with an earlier one; None exactly if the stack is tidy.
    ///
    /// A linear line claims the range below it, a striped line a range for each column. A snapshot claims all of
    /// its store and, for reading, all of its origin; an origin's line claims all of the device or disk that it
    /// names, for serving those that read it. Claims are in the order of devices, lines, and then columns, or
    /// store before origin. Two claims clash if they have a sector of one device or disk in common, unless both
    /// read, or one reads and the other serves. The result names the earliest claim that the found one clashes
    /// with, and the least sector that both include.
    ///
    /// Fails only when out of memory. Cost: sorting the claims, and a walk over them for each binary digit of
    /// their number, with memory for two copies of each.
    pub fn tidy(&self, alloc: Global) -> Result<Option<Clash>, AllocError>
        ensures clash { IfOk result (λ found. IsFirstClash (claims self.now) found) }
        ensures tidy { IfOk result (λ found. IsTrue (is_none found) ↔ IsTidy self.now) }
        // The devices and the sector that the clash names are in the stack.
        ensures there { IfOk result (λ found. IfSome found (IsThere self.now)) }
        // A list of claims has exactly one first clash.
        ensures one { (all : List Claim) (found other : Option Clash)
            → IsFirstClash all found → IsFirstClash all other → found ≡ other }
    {
        let claims = claims(alloc, &self.resolved())?;
        // An unknown name would have an id equal to the count, so all ids are below the count plus one.
        first_clash(
            alloc,
            &claims,
            self.device_count() + 1,
            self.disk_count() + 1,
        )
    }

    /// The name of a device of the stack.
    pub fn name(&self, device: DeviceId) -> &str
        requires { device < length self.now.devices }
        ensures name { result.now ≡ name_at self.now device }
        ensures form { IsTrue (is_device_name result.now) }
    {
        self.devices.as_slice()[device.index()].name.as_str()
    }

    /// The name of a disk of the stack.
    pub fn disk_name(&self, disk: DiskId) -> &str
        requires { disk < length self.now.disks }
        ensures name { result.now ≡ disk_name_at self.now disk }
        ensures form { IsTrue (is_disk_name result.now) }
    {
        self.disks.as_slice()[disk.index()].name.as_str()
    }

    /// The stack's description and its lines with ids.
    fn resolved(&self) -> Resolved<'_>
        ensures description { result ≡ self.now }
        ensures sound { IsSound self.now }
    {
        Resolved::new(
            self.devices.as_slice(),
            self.disks.as_slice(),
            self.found.as_slice(),
        )
    }

    /// A device with ids in place of names: its end, its read-only flag, and its lines.
    #[inline(always)]
    fn found(&self, device: DeviceId) -> &ResolvedDevice
        requires { device < length self.now.devices }
        ensures end { result.now.end ≡ device_len self.now device }
        ensures ro { result.now.ro ≡ is_ro_at self.now device }
        ensures lines { result.now.table ≡ resolved_lines self.now device }
        ensures sound { IsSound self.now }
    {
        &self.found[device.index()]
    }

    /// The line that holds a sector, and how many starts of lines were compared with the sector. In a device of
    /// more than three lines, no start is compared if the sector is the end of `last`, and the line found becomes
    /// `last`.
    pub(crate) fn find_line(
        &self,
        device: DeviceId,
        sector: u64,
        last: &mut LastLine,
    ) -> (Found<'_>, u64)
        requires device { device < length self.now.devices }
        requires sector { sector < device_len self.now device }
        requires last { IsLast self.now last.old }
        ensures line { IsLineOf self.now device result.0.now sector }
        ensures few { result.1 ≤ binary_digits (length (lines_at self.now device)) }
        ensures most { result.1 ≤ 17 }
        ensures last { IsLast self.now last.new }
    {
        let table = &self.found(device).table;
        let (index, comparisons) = find(table, device, last, sector);
        let lines = table.lines();
        (&lines[index], comparisons)
    }
}
