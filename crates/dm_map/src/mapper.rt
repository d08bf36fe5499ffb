//! The mapper, which turns a request into operations on disks and hands these to a sink.
//!
//! The mapper looks up lines through its looker and keeps no list of pieces, so mapping a request allocates
//! nothing. `specs/walk/Mapping.antt` defines what happens to each sector, `walk` cuts a range into pieces, and
//! `walker` holds the state that one request leaves for the next.

ghost use Rattle.dm_map.specs.Prelude.{false, true, is_none, length, nat_lt, IfOk, IfSome, Read, snapshots, IsSnapshot, stack_depth, lower_len, IsStore, request_step, no_counts, AreAdded, IsFitting, IsWithinPlaces, with_looked, HasMapped, read_stretches, lost, put, start_state, taken_at, with_chunk, number_in, device_len, IsFirstHomes, has_room, snapshot_at, usage_of, or_home, HasRoomFor, IsWalked, IsFirstRead, IsGroundNear, Device};
ghost use Rattle.dm_map.specs.declared.mapper.MapFault.TheVariants.{Sink};
ghost use Rattle.dm_stack.specs.declared.checks.limits.TheConstants.{MOST_LENGTH};
ghost use Rattle.std.specs.Prelude.{◌≡◌, ◌+◌, ◌*◌, ◌<◌, ◌≤◌, if◌then◌else◌};

use crate::pieces::piece::disk_piece;
use crate::pieces::sink::Sink;
use crate::state::tables::empty_tables;
use crate::state::taken::Taken;
use crate::state::usage::{Usage, usage_of};
use crate::state::walker::Walker;
use crate::walk::home::{Home, handed};
use crate::walk::homes::{HomeStretch, first_homes};
use crate::walk::range::{fail, map_top};
use crate::walk::stretch::{Stretch, first_read};
use dm_stack::{DeviceId, Looker, Lower};
use dm_table::{Op, Request};
use std::alloc::{AllocError, Global};
use std::fmt;
use std::marker::Model;
use thiserror::Error;

#[cfg(test)]
mod tests;

/// Why mapping a request stopped before the request's end.
#[derive(Clone, Copy, Debug, PartialEq, Eq, Drop, Error)]
#[error_bound(F: fmt::Display)]
pub enum MapFault<F> {
    /// The sink returned this fault for a piece of the request.
    #[error("the sink failed: {0}")]
    Sink(F),
    /// The sink failed during an earlier request, after which this mapper maps nothing more.
    #[error("stopped by an earlier fault")]
    Stopped,
}

/// Maps requests through a stack, one after the other. Contracts see the mapper's stack, the state that its
/// requests left, whether the sink failed, and the counts of its looker.
#[derive(Drop)]
pub struct Mapper<'s, T: Taken> {
    walker: Walker<'s, T>,
    failed: bool,
    /// The searches made by requests before the last one.
    searches_before: u64,
    /// The comparisons made by requests before the last one.
    comparisons_before: u64,
}

impl<'s, T: Taken> Model for Mapper<'s, T> {
    ghost use Rattle.dm_map.specs.Mapper.{MapperView};
    ghost use Rattle.std.specs.Prelude.{◌-◌, ◌≤◌};

    ghost Value = { MapperView };

    ghost view = { λ mapper. record {
      stack = mapper.walker.stack;
      state = mapper.walker.state;
      failed = mapper.failed;
      looked = mapper.walker.looked;
      last = record {
        searches = mapper.walker.looked.searches - mapper.searches_before;
        comparisons = mapper.walker.looked.comparisons - mapper.comparisons_before;
      };
    } };

    ghost invariant = { λ mapper. (mapper.searches_before ≤ mapper.walker.looked.searches)
        × (mapper.comparisons_before ≤ mapper.walker.looked.comparisons) };
}

impl<'s, T: Taken> Mapper<'s, T> {
    /// Makes a mapper for the looker's stack, in the state before any request. Cost: at most one line search for
    /// each snapshot.
    ///
    /// # Errors
    ///
    /// `AllocError` if there is not enough memory for the state.
    pub fn new(alloc: Global, mut looker: Looker<'s>) -> Result<Mapper<'s, T>, AllocError>
        ensures stack { IfOk result (λ mapper. mapper.stack ≡ looker.entry.stack) }
        ensures state { IfOk result (λ mapper. mapper.state ≡ start_state looker.entry.stack) }
        ensures going { IfOk result (λ mapper. mapper.failed ≡ false) }
        ensures looked { IfOk result (λ mapper. mapper.looked.searches ≤ looker.entry.searches
            + length (snapshots looker.entry.stack)) }
        ensures last { IfOk result (λ mapper. mapper.last ≡ no_counts) }
        ensures within { IfOk result (λ mapper. IsWithinPlaces mapper.stack mapper.state) }
    {
        let tables = empty_tables(alloc, &mut looker)?;
        let walker = Walker::new(looker, tables);
        walker.recall_places();
        Ok(Mapper {
            searches_before: walker.searches(),
            comparisons_before: walker.comparisons(),
            walker,
            failed: false,
        })
    }

    /// Hands the operations for a request to this device to the sink, in rising order of sectors. If the request
    /// passes the end of the device, all of its sectors fail.
    ///
    /// The id must be one of the mapper's stack, which must be the sink's stack, too, and the sink must have room
    /// for the sectors. Each piece covers sectors whose path down stays in one line, and one chunk, of each
    /// device; chunks of a snapshot that are read from consecutive sectors may share a piece. A read costs at
    /// most as many line searches as the stack is deep for each run of sectors with one path (`specs/walk/Path`),
    /// however long the run, and at most 17 comparisons for each search; `searches` and `probes` return both
    /// counts. No memory is allocated. Whatever the result, no snapshot holds more chunks than its store has room
    /// for.
    ///
    /// # Errors
    ///
    /// `Sink` if the sink failed; the sink received a prefix of the operations, and the mapper maps nothing from
    /// then on. `Stopped` if the sink failed during an earlier request; nothing changes then.
    #[inline(always)]
    pub fn request<S: Sink>(
        &mut self,
        request: &Request<'_>,
        device: DeviceId,
        sink: &mut S,
    ) -> Result<(), MapFault<S::Fault>>
        requires device { device < length self.old.stack.devices }
        requires sink { HasRoomFor S.past sink.old self.old.stack request.now.len }
        ensures { HasMapped S.past result sink.old sink.new self.old self.new request.now device }
    {
        let Some(home) = self.request_or_home(request, device, &mut *sink)? else {
            return Ok(());
        };
        match sink.piece(disk_piece(request.op, home.disk, home.start, request.len)) {
            Ok(()) => Ok(()),
            Err(fault) => Err(self.stop(fault)),
        }
    }

    /// Like `request`; but if all sectors of the request are consecutive sectors of one disk, below one line of
    /// the device, nothing is handed to the sink. The caller reads or writes them at the returned place.
    ///
    /// # Errors
    ///
    /// `Sink` if the sink failed, and `Stopped` if the sink failed during an earlier request, as in `request`.
    #[inline(always)]
    pub fn request_or_home<S: Sink>(
        &mut self,
        request: &Request<'_>,
        device: DeviceId,
        sink: &mut S,
    ) -> Result<Option<Home>, MapFault<S::Fault>>
        requires device { device < length self.old.stack.devices }
        requires sink { HasRoomFor S.past sink.old self.old.stack request.now.len }
        ensures { HasMapped (or_home S.past self.old.stack request.now.op request.now.len result) result
            sink.old sink.new self.old self.new request.now device }
    {
        if self.failed {
            self.walker.recall_places();
            return Err(MapFault::Stopped);
        }
        self.searches_before = self.walker.searches();
        self.comparisons_before = self.walker.comparisons();
        let mapped = pieces_or_home(
            &mut self.walker,
            request.op,
            device,
            request.start,
            request.len,
            sink,
        );
        self.walker.recall_places();
        match mapped {
            Ok(home) => Ok(home),
            Err(fault) => Err(self.stop(fault)),
        }
    }

    /// Records that a valid snapshot's store holds this chunk, as the next one in the store's list, to restore a
    /// state that no request of this mapper left. If the chunk is recorded already, nothing changes and `false`
    /// is returned. No memory is allocated. Cost: one look-up of the chunk.
    pub fn restore(&mut self, device: DeviceId, chunk: u64) -> bool
        requires device { device < length self.old.stack.devices }
        requires valid { (taken_at self.old.state device).valid ≡ true }
        requires room { has_room self.old.stack device (length (taken_at self.old.state device).chunks)
            ≡ true }
        ensures fresh { result ≡ is_none (number_in chunk (taken_at self.old.state device).chunks) }
        ensures taken { self.new ≡ (if result then record self.old {
          state
              = put self.old.state device (with_chunk (taken_at self.old.state device) chunk);
        } else self.old) }
    {
        self.walker.offer(device, chunk)
    }

    /// Marks a snapshot as invalid, because its store is marked as invalid. No memory is allocated.
    pub fn lose(&mut self, device: DeviceId)
        requires { device < length self.old.stack.devices }
        ensures { self.new ≡ record self.old {
          state
              = put self.old.state device (lost (taken_at self.old.state device));
        } }
    {
        self.walker.invalidate(device);
    }

    /// Returns the chunks that a snapshot's store holds, and whether the snapshot is valid. No memory is
    /// allocated.
    pub fn taken(&self, device: DeviceId) -> &T
        requires { device < length self.now.stack.devices }
        ensures chunks { T.chunks result.now ≡ (taken_at self.now.state device).chunks }
        ensures valid { T.valid result.now ≡ (taken_at self.now.state device).valid }
    {
        self.walker.taken(device)
    }

    /// Finds the consecutive disk sectors that hold the first sectors of a range of a store. The look-ups don't
    /// count for any request. No memory is allocated.
    pub fn first_homes(&mut self, store: Lower, sector: u64, len: u64) -> HomeStretch
        requires some { 1 ≤ len }
        requires inside { sector + len ≤ lower_len self.old.stack store }
        requires store { IsStore self.old.stack store }
        ensures is { IsFirstHomes self.old.stack store sector len result }
        ensures near { result.start + result.len ≤ MOST_LENGTH }
        ensures same { self.new ≡ with_looked self.old self.new.looked }
        ensures looked { AreAdded self.old.looked self.new.looked }
    {
        let searches = self.walker.searches();
        let comparisons = self.walker.comparisons();
        self.walker.recall_soundness();
        let stretch = first_homes(&mut self.walker, store, sector, len);
        self.searches_before += self.walker.searches() - searches;
        self.comparisons_before += self.walker.comparisons() - comparisons;
        stretch
    }

    /// Finds where the first sectors of a range of a device are read from, in the state that the requests left.
    /// The look-ups don't count for any request. No memory is allocated. Cost: one look-up for each level.
    pub fn first_read(&mut self, device: DeviceId, sector: u64, len: u64) -> Stretch
        requires some { 1 ≤ len }
        requires device { device < length self.old.stack.devices }
        requires inside { sector + len ≤ device_len self.old.stack device }
        ensures is { IsFirstRead self.old.stack self.old.state (Device device) sector len result }
        ensures near { IsGroundNear result.ground result.len }
        ensures same { self.new ≡ with_looked self.old self.new.looked }
        ensures looked { AreAdded self.old.looked self.new.looked }
    {
        let searches = self.walker.searches();
        let comparisons = self.walker.comparisons();
        let stretch = first_read(&mut self.walker, device, sector, len);
        self.searches_before += self.walker.searches() - searches;
        self.comparisons_before += self.walker.comparisons() - comparisons;
        stretch
    }

    /// Proves that no snapshot took more chunks than its store has room for, so the state fits the stack.
    pub fn recall_places(&self)
        ensures within { IsWithinPlaces self.now.stack self.now.state }
        ensures fits { IsFitting self.now.stack self.now.state }
    {
        self.walker.recall_places();
    }

    /// Marks the mapper as failed, so that it maps no more requests, and returns the sink's fault.
    fn stop<F>(&mut self, fault: F) -> MapFault<F>
        ensures fault { result ≡ Sink fault }
        ensures failed { self.new ≡ record self.old { failed = true } }
    {
        self.failed = true;
        MapFault::Sink(fault)
    }

    /// Prefetches the memory that a look-up of this chunk of a snapshot reads first.
    ///
    /// The look-up itself is not made, and no search is counted. The value read is returned only to keep the
    /// compiler from dropping the read. No memory is allocated. Cost: two memory reads.
    #[inline(always)]
    pub fn prefetch(&self, device: DeviceId, chunk: u64) -> u64 {
        self.walker.prefetch(device, chunk)
    }

    /// Returns how much of a snapshot's store is used, and whether the snapshot is valid.
    ///
    /// The device must be a snapshot of the mapper's stack. No snapshot holds more chunks than its store has room
    /// for, even after a failure. Cost: one look-up, which doesn't count for any request. No memory is allocated.
    pub fn usage(&mut self, device: DeviceId) -> Usage
        requires { IsSnapshot self.old.stack device }
        ensures usage { IfSome (snapshot_at self.old.stack device)
            (λ snapshot. result ≡ usage_of self.old.stack snapshot (taken_at self.old.state device)) }
        ensures same { self.new ≡ with_looked self.old self.new.looked }
        ensures looked { AreAdded self.old.looked self.new.looked }
        ensures one { self.new.looked.searches ≤ self.old.looked.searches + 1 }
        ensures within { IsWithinPlaces self.old.stack self.old.state }
    {
        self.walker.recall_places();
        let searches = self.walker.searches();
        let comparisons = self.walker.comparisons();
        let usage = usage_of(&mut self.walker, device);
        // Look-ups that belong to no request are counted with those before the last request.
        self.searches_before += self.walker.searches() - searches;
        self.comparisons_before += self.walker.comparisons() - comparisons;
        usage
    }

    /// Returns how many line searches were made by the last request that didn't fail as `Stopped`, or 0 before
    /// the first request. A line search looks up, in the table of one device, the line that holds a sector. The
    /// looker's count stops growing at `u64::MAX`. No memory is allocated.
    pub fn searches(&self) -> u64
        ensures { result ≡ self.now.last.searches }
    {
        self.walker.searches() - self.searches_before
    }

    /// Returns how often the searches of the last request compared a line's start with a sector, at most 17 times
    /// per search. No memory is allocated.
    pub fn probes(&self) -> u64
        ensures { result ≡ self.now.last.comparisons }
    {
        self.walker.comparisons() - self.comparisons_before
    }
}

/// Hands over the operations of a request, or returns the consecutive disk sectors that hold all of its sectors.
/// The request's fields are separate parameters so that they stay in registers.
#[inline(always)]
fn pieces_or_home<S: Sink, T: Taken>(
    walker: &mut Walker<'_, T>,
    op: Op,
    device: DeviceId,
    start: u64,
    len: u64,
    sink: &mut S,
) -> Result<Option<Home>, S::Fault>
    requires some { 1 ≤ len }
    requires device { device < length walker.old.stack.devices }
    requires sink { HasRoomFor S.past sink.old walker.old.stack len }
    ensures walked { IsWalked (or_home S.past walker.old.stack op len result) result sink.old sink.new
        walker.old walker.new (request_step walker.old.stack op device start len walker.old.state) len }
    ensures bounded { op ≡ Read → walker.new.looked.searches ≤ walker.old.looked.searches
        + stack_depth walker.old.stack * read_stretches walker.old.stack walker.old.state device start len }
{
    walker.recall_soundness();
    let end = walker.len(device);
    if passes_end(start, len, end) {
        return handed(fail(len, sink));
    }
    map_top(walker, op, device, start, len, sink)
}

/// Whether a range of sectors passes the end of a device.
fn passes_end(start: u64, len: u64, end: u64) -> bool
    ensures { result ≡ nat_lt end (start + len) }
{
    end < start || end - start < len
}
