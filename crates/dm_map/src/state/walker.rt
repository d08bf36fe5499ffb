//! The walker, which carries everything that a walk down a stack reads and changes.
//!
//! A walk looks up lines, lengths and read-only flags of the stack, and reads and changes the state left by
//! earlier requests. The state is a table of taken chunks for each device, at the index of its id; a device that
//! isn't a snapshot has a table without places.

ghost use Rattle.dm_map.specs.Prelude.{ℕ, true, not, None, Some, IfSome, is_none, length, IsLineOf, device_len, is_ro_at, lower_len, IsSound, counts_of, AreAdded, IsFitting, IsWithinPlaces, lost, put, with_chunk, taken_at, number_in, AreTables, has_room, state_of, stack_state};
ghost use Rattle.dm_stack.specs.declared.checks.limits.TheConstants.{MOST_LENGTH};
ghost use Rattle.std.specs.Prelude.{◌≡◌, ◌+◌, ◌<◌, ◌≤◌, if◌then◌else◌};

use crate::state::taken::Taken;
use dm_stack::{DeviceId, Found, Looker, Lower};
use dm_table::Reserved;
use std::marker::Model;

/// A stack, seen through its looker, and the state of its devices.
#[derive(Drop)]
pub(crate) struct Walker<'s, T: Taken> {
    looker: Looker<'s>,
    tables: Reserved<T>,
}

impl<'s, T: Taken> Model for Walker<'s, T> {
    ghost use Rattle.dm_map.specs.state.Tables.{AreTables, state_of};
    ghost use Rattle.dm_map.specs.state.Counts.{counts_of};
    ghost use Rattle.dm_map.specs.state.Walker.{WalkerView};

    ghost Value = { WalkerView };

    ghost view = { λ walker. record {
      stack = walker.looker.stack;
      state = state_of T.chunks T.valid walker.tables.items;
      looked = counts_of walker.looker;
    } };

    ghost invariant = { λ walker. AreTables T.places walker.looker.stack walker.tables.items };
}

/// The length of a device or a disk of the looker's stack in sectors, from 1 to 2^50.
#[inline(always)]
pub fn lower_len(looker: &Looker<'_>, lower: Lower) -> u64
    requires { 0 < lower_len looker.now.stack lower }
    ensures len { result ≡ lower_len looker.now.stack lower }
    ensures small { result ≤ MOST_LENGTH }
{
    match lower {
        Lower::Device(device) => looker.len(device),
        Lower::Disk(disk) => looker.disk_len(disk),
    }
}

impl<'s, T: Taken> Walker<'s, T> {
    /// Makes a walker for the looker's stack, in the state of these tables.
    pub(crate) fn new(looker: Looker<'s>, tables: Reserved<T>) -> Walker<'s, T>
        requires { AreTables T.places looker.stack tables.items }
        ensures stack { result.stack ≡ looker.entry.stack }
        ensures state { result.state ≡ state_of T.chunks T.valid tables.items }
        ensures looked { result.looked ≡ counts_of looker.entry }
    {
        Walker { looker, tables }
    }

    /// How many line searches were made so far; the count stops growing at `u64::MAX`.
    #[inline(always)]
    pub(crate) fn searches(&self) -> u64
        ensures { result ≡ self.now.looked.searches }
    {
        self.looker.searches()
    }

    /// How often line searches compared a line's start with a sector so far.
    #[inline(always)]
    pub(crate) fn comparisons(&self) -> u64
        ensures { result ≡ self.now.looked.comparisons }
    {
        self.looker.comparisons()
    }

    /// The line that holds a sector of a device. Costs one search.
    #[inline(always)]
    pub(crate) fn look(&mut self, device: DeviceId, sector: u64) -> Found<'s>
        requires device { device < length self.old.stack.devices }
        requires sector { sector < device_len self.old.stack device }
        ensures line { IsLineOf self.old.stack device result.now sector }
        ensures same { stack_state self.new ≡ stack_state self.old }
        ensures looked { AreAdded self.old.looked self.new.looked }
        ensures one { self.new.looked.searches ≤ self.old.looked.searches + 1 }
    {
        self.looker.look(device, sector)
    }

    /// The length of a device of the stack in sectors, from 1 to 2^50.
    #[inline(always)]
    pub(crate) fn len(&self, device: DeviceId) -> u64
        requires { device < length self.now.stack.devices }
        ensures len { result ≡ device_len self.now.stack device }
        ensures some { 1 ≤ result }
        ensures small { result ≤ MOST_LENGTH }
    {
        self.looker.len(device)
    }

    /// The length of a device or a disk of the stack in sectors, from 1 to 2^50.
    #[inline(always)]
    pub(crate) fn lower_len(&self, lower: Lower) -> u64
        requires { 0 < lower_len self.now.stack lower }
        ensures len { result ≡ lower_len self.now.stack lower }
        ensures small { result ≤ MOST_LENGTH }
    {
        lower_len(&self.looker, lower)
    }

    /// Whether a device of the stack is read-only.
    #[inline(always)]
    pub(crate) fn is_ro(&self, device: DeviceId) -> bool
        requires { device < length self.now.stack.devices }
        ensures { result ≡ is_ro_at self.now.stack device }
    {
        self.looker.is_ro(device)
    }

    /// Proves that the state has a table for each device of the stack. Does nothing at run time: it is called for
    /// its contract.
    #[inline(always)]
    pub(crate) fn recall_tables(&self)
        ensures { length self.now.state ≡ length self.now.stack.devices }
    {
        self.looker.depth();
    }

    /// Proves that the walker's stack is sound. Does nothing at run time: it is called for its contract.
    #[inline(always)]
    pub(crate) fn recall_soundness(&self)
        ensures { IsSound self.now.stack }
    {
        self.looker.depth();
    }

    /// Proves that no snapshot took more chunks than its store has room for. Does nothing at run time: it is
    /// called for its contract.
    #[inline(always)]
    pub(crate) fn recall_places(&self)
        ensures within { IsWithinPlaces self.now.stack self.now.state }
        ensures fits { IsFitting self.now.stack self.now.state }
    {
        self.looker.depth();
    }

    /// The chunks that a snapshot took, and whether the snapshot is valid.
    pub(crate) fn taken(&self, device: DeviceId) -> &T
        requires { device < length self.now.stack.devices }
        ensures chunks { T.chunks result.now ≡ (taken_at self.now.state device).chunks }
        ensures valid { T.valid result.now ≡ (taken_at self.now.state device).valid }
    {
        &self.tables[device.index()]
    }

    /// Whether a snapshot is still valid.
    pub(crate) fn is_valid(&self, device: DeviceId) -> bool
        requires { device < length self.now.stack.devices }
        ensures valid { result ≡ (taken_at self.now.state device).valid }
        ensures there { device < length self.now.state }
    {
        let table = &self.tables[device.index()];
        table.is_valid()
    }

    /// The number of a chunk that a snapshot took, counted from 0 in the order of taking; the store has a place
    /// for this number.
    pub(crate) fn find(&self, device: DeviceId, chunk: u64) -> Option<usize>
        requires { device < length self.now.stack.devices }
        ensures number { result ≡ number_in chunk (taken_at self.now.state device).chunks }
        ensures room { IfSome result (λ number. has_room self.now.stack device number ≡ true) }
    {
        let table = &self.tables[device.index()];
        table.find(chunk)
    }

    /// Prefetches the memory that a look-up of this chunk of a snapshot reads first.
    #[inline(always)]
    pub(crate) fn prefetch(&self, device: DeviceId, chunk: u64) -> u64 {
        match self.tables.as_slice().get(device.index()) {
            Some(table) => table.prefetch(chunk),
            None => 0,
        }
    }

    /// How many chunks a snapshot took; its store has a place for each of them.
    pub(crate) fn count(&self, device: DeviceId) -> usize
        requires { device < length self.now.stack.devices }
        ensures count { result ≡ length (taken_at self.now.state device).chunks }
        ensures room { (number : ℕ) → number < result → has_room self.now.stack device number ≡ true }
    {
        let table = &self.tables[device.index()];
        table.count()
    }

    /// Whether the store of a snapshot has no place for one more chunk.
    pub(crate) fn is_full(&self, device: DeviceId) -> bool
        requires { device < length self.now.stack.devices }
        ensures { result ≡ not (has_room self.now.stack device
            (length (taken_at self.now.state device).chunks)) }
    {
        let table = &self.tables[device.index()];
        table.is_full()
    }

    /// Takes a chunk that a valid snapshot hasn't taken yet; its store must have a place for one more.
    pub(crate) fn take(&mut self, device: DeviceId, chunk: u64)
        requires device { device < length self.old.stack.devices }
        requires valid { (taken_at self.old.state device).valid ≡ true }
        requires room { has_room self.old.stack device (length (taken_at self.old.state device).chunks)
            ≡ true }
        requires fresh { number_in chunk (taken_at self.old.state device).chunks ≡ None }
        ensures stack { self.new.stack ≡ self.old.stack }
        ensures state { self.new.state
            ≡ put self.old.state device (with_chunk (taken_at self.old.state device) chunk) }
        ensures looked { self.new.looked ≡ self.old.looked }
    {
        let table = &mut self.tables[device.index()];
        table.take(chunk);
    }

    /// Takes a chunk of a valid snapshot unless it is taken already, and returns whether the chunk was new; the
    /// store must have a place for one more.
    pub(crate) fn offer(&mut self, device: DeviceId, chunk: u64) -> bool
        requires device { device < length self.old.stack.devices }
        requires valid { (taken_at self.old.state device).valid ≡ true }
        requires room { has_room self.old.stack device (length (taken_at self.old.state device).chunks)
            ≡ true }
        ensures fresh { result ≡ is_none (number_in chunk (taken_at self.old.state device).chunks) }
        ensures stack { self.new.stack ≡ self.old.stack }
        ensures state { self.new.state
            ≡ (if result then put self.old.state device (with_chunk (taken_at self.old.state device) chunk)
            else self.old.state) }
        ensures looked { self.new.looked ≡ self.old.looked }
    {
        let table = &mut self.tables[device.index()];
        table.offer(chunk)
    }

    /// Makes a snapshot invalid for good.
    pub(crate) fn invalidate(&mut self, device: DeviceId)
        requires device { device < length self.old.stack.devices }
        ensures stack { self.new.stack ≡ self.old.stack }
        ensures state { self.new.state ≡ put self.old.state device (lost (taken_at self.old.state device)) }
        ensures looked { self.new.looked ≡ self.old.looked }
    {
        let table = &mut self.tables[device.index()];
        table.invalidate();
    }
}
