//! Replays: requests played one after the other on the disks of a stack.
//!
//! `specs/Histories.antt` defines what the disks hold after the accepted requests, and what the next request answers.
//! `specs/Rows.antt` defines what each device would hold if it were alone.

ghost use Rattle.dm_replay.specs.Prelude.{[], IfErr, IfOk, IfSome, None, OnOk, Option, Some, false, length, nat_lt, position, AreTops, IsTidy, IsTop, device_len, is_same, world_after, AreOfTops, HasTop, IsAnswered, IsNotAnswered, IsNotBegun, IsNotHalted, IsUnanswered, IsIntact, IsFitting, start_state, asked_request, halted_request, new_replay, replay_from, whole_request};
ghost use Rattle.std.specs.Prelude.{◌≡◌, ◌∷◌, ◌+◌, ◌++◌, ◌-◌, ◌<◌, ◌≤◌, if◌then◌else◌};

#[cfg(test)]
mod tests;

use crate::ghost_asked::GhostAsked;
use crate::ghost_start::GhostStart;
use crate::kept_write::{KeptWrite, keep};
use crate::playback::{play_front, play_request};
use crate::player::Player;
use crate::replay_fault::ReplayFault;
use crate::rerun::rerun;
use crate::value::Value;
use crate::value_run::ValueRun;
use dm_map::{Mapper, Taken, nothing_is_lost, requests_are_alone};
use dm_stack::{DeviceId, Stack};
use dm_table::{Request, Reserved};
use std::alloc::Global;
use std::marker::Model;

/// Plays requests to the top devices of a stack on its disks, one after the other. In contracts, the value is the
/// stack, the state at the start, the accepted requests, and whether the replay failed because memory ran out.
#[derive(Drop)]
pub struct Replay<'s, T: Taken> {
    stack: &'s Stack,
    /// For each device, by its id, whether it is a top device.
    tops: Reserved<bool>,
    mapper: Mapper<'s, T>,
    player: Player<'s>,
    start: GhostStart<'s, T>,
    asked: GhostAsked,
    writes: Vec<KeptWrite>,
    failed: bool,
}

impl<'s, T: Taken> Model for Replay<'s, T> {
    ghost use Rattle.dm_replay.specs.Replay.{IsReplay, Replaying};

    ghost Value = { Replaying };

    ghost view = { λ replay.
        record { stack = replay.stack.now; start = replay.start; asked = replay.asked; failed = replay.failed } };

    ghost invariant = { λ replay. IsReplay replay.stack.now replay.start replay.tops.items replay.mapper replay.player.stack.now
        replay.player.playing.values.disks.items replay.asked replay.writes.items replay.failed };
}

impl<'s, T: Taken> Replay<'s, T> {
    /// A replay of a stack whose claims don't clash. Each sector of the stack's disks holds its old value, and all
    /// snapshots are fresh.
    ///
    /// Cost: that of `Stack::tidy` and `Stack::tops`. The top devices are kept, so no request searches all lines.
    ///
    /// # Errors
    ///
    /// `Untidy` if two claims clash, `Memory` when out of memory.
    pub fn new(alloc: Global, stack: &'s Stack) -> Result<Replay<'s, T>, ReplayFault>
        ensures new { IfOk result (λ replay. replay ≡ new_replay stack.now) }
        ensures intact { IfOk result (λ replay. IsIntact stack.now replay.start) }
        ensures tidy { OnOk result (IsTidy stack.now) }
        ensures fault { IfErr result (λ fault. IsNotBegun fault stack.now) }
    {
        // Called for the contract: no snapshot is lost at the start.
        nothing_is_lost::<Value>(stack);
        match Mapper::new(alloc, stack.looker()) {
            Ok(mapper) => Replay::go_on(alloc, stack, mapper),
            Err(_) => Err(ReplayFault::Memory),
        }
    }

    /// A replay of a stack whose claims don't clash, which starts in the state of a mapper. Each sector of the stack's
    /// disks holds its old value, and each top device what reads return in that state.
    ///
    /// The cost and the errors are those of `new`.
    pub fn go_on(
        alloc: Global,
        stack: &'s Stack,
        mapper: Mapper<'s, T>,
    ) -> Result<Replay<'s, T>, ReplayFault>
        requires stack { mapper.stack ≡ stack.now }
        requires going { mapper.failed ≡ false }
        requires fits { IsFitting stack.now mapper.state }
        ensures new { IfOk result (λ replay. replay ≡ replay_from stack.now mapper.entry.state) }
        ensures tidy { OnOk result (IsTidy stack.now) }
        ensures fault { IfErr result (λ fault. IsNotBegun fault stack.now) }
    {
        refuse_clash(alloc, stack)?;
        let Ok(tops) = stack.tops(alloc) else {
            return Err(ReplayFault::Memory);
        };
        let start = GhostStart::of(&mapper);
        Ok(Replay {
            stack,
            tops: Reserved::from_vec(tops),
            mapper,
            player: Player::new(alloc, stack),
            start,
            asked: GhostAsked::new(),
            writes: Vec::new(alloc),
            failed: false,
        })
    }

    /// The mapper of a replay that has not failed, in the state that the accepted requests left.
    pub fn mapper(&self) -> &Mapper<'s, T>
        requires { self.now.failed ≡ false }
        ensures stack { result.now.stack ≡ self.now.stack }
        ensures state { result.now.state
            ≡ (world_after self.now.stack self.now.start self.now.asked).state }
        ensures tops { AreOfTops self.now.stack self.now.asked }
    {
        &self.mapper
    }

    /// Plays a request to a top device, and returns what each sector answered, in maximal runs: the value that was read
    /// or written, or that the sector failed.
    ///
    /// Cost: that of mapping the request, and about `log n` steps for each stored range that is read, copied or
    /// overwritten, if there are `n` ranges; ranges that continue each other count as one. Memory: 40 bytes for each
    /// range, and unused room in the map; 24 bytes for each write, twice that while their list grows; none for reads.
    ///
    /// # Errors
    ///
    /// `NotTop` if no top device has the name, and `Stopped` if memory ran out at an earlier request; nothing changes.
    /// `Memory` when out of memory; the replay has then failed for good.
    pub fn request(
        &mut self,
        alloc: Global,
        request: &Request<'_>,
    ) -> Result<Vec<ValueRun>, ReplayFault>
        ensures stack { self.new.stack ≡ self.old.stack }
        ensures start { self.new.start ≡ self.old.start }
        ensures answered { IfOk result
            (λ runs. IsAnswered self.old self.new (asked_request self.old.stack request.now) runs.items) }
        ensures top { OnOk result (HasTop self.old.stack request.now.device.now) }
        ensures fault { IfErr result (λ fault. IsNotAnswered fault request.now.device.now self.old self.new) }
    {
        match self.stack.device(request.device) {
            Some(device) => self.request_of(alloc, request, device),
            None if self.failed => Err(ReplayFault::Stopped),
            None => Err(ReplayFault::NotTop),
        }
    }

    /// Plays a request to the device with this id, which belongs to the stack. Like `request`, but for callers who know
    /// the device: the name in the request isn't read.
    ///
    /// # Errors
    ///
    /// Those of `request`, in the same order; `NotTop` if the device isn't a top device.
    pub fn request_of(
        &mut self,
        alloc: Global,
        request: &Request<'_>,
        device: DeviceId,
    ) -> Result<Vec<ValueRun>, ReplayFault>
        requires { device < length self.old.stack.devices }
        ensures stack { self.new.stack ≡ self.old.stack }
        ensures start { self.new.start ≡ self.old.start }
        ensures answered { IfOk result
            (λ runs. IsAnswered self.old self.new (whole_request request.now device) runs.items) }
        ensures top { OnOk result (IsTop self.old.stack device) }
        ensures fault { IfErr result
            (λ fault. IsUnanswered fault (IsTop self.old.stack device) self.old self.new) }
    {
        if self.failed {
            return Err(ReplayFault::Stopped);
        }
        if !self.tops[device.index()] {
            return Err(ReplayFault::NotTop);
        }
        // Called for their contracts: top devices behave like disks of their own and, if the stack can't lose anything,
        // without errors.
        requests_are_alone::<Value>(self.stack);
        nothing_is_lost::<Value>(self.stack);
        // Marked as failed until the request is done, so that the replay has failed wherever memory runs out.
        self.failed = true;
        let Ok(runs) = play_request(alloc, &mut self.mapper, &mut self.player, request, device)
        else {
            return Err(ReplayFault::Memory);
        };
        self.asked.add(request, device, None);
        let write = KeptWrite {
            device,
            start: request.start,
            whole: request.len,
        };
        let Ok(()) = keep(&mut self.writes, request.op, write) else {
            return Err(ReplayFault::Memory);
        };
        self.failed = false;
        Ok(runs)
    }

    /// Plays the first `units` units of a request to a top device, or all if it has fewer. Returns a replay that goes
    /// on in the state after those sectors of the request whose units were all played.
    ///
    /// The replay must have started with fresh snapshots, because all writes are mapped again from the start. So a
    /// chunk isn't taken if it wasn't copied whole, or if no sector was written after the copy. Units are played whole
    /// and in order. Further requests and halts may follow.
    ///
    /// Cost: that of the request, and that of mapping all writes so far again.
    ///
    /// # Errors
    ///
    /// `Stopped` if memory ran out at an earlier request, `NotTop` if no top device has the name, and `Memory` when out
    /// of memory. After an error there is no replay any more.
    pub fn halt(
        self,
        alloc: Global,
        request: &Request<'_>,
        units: u64,
    ) -> Result<Replay<'s, T>, ReplayFault>
        requires { self.start ≡ start_state self.stack }
        ensures stack { IfOk result (λ later. later.stack ≡ self.entry.stack) }
        ensures start { IfOk result (λ later. later.start ≡ self.entry.start) }
        ensures asked { IfOk result
            (λ later. later.asked
            ≡ self.entry.asked ++ halted_request self.entry.stack request.now units ∷ []) }
        ensures going { IfOk result (λ later. (self.entry.failed ≡ false) × (later.failed ≡ false)) }
        ensures top { OnOk result (HasTop self.entry.stack request.now.device.now) }
        ensures fault { IfErr result (λ fault. IsNotHalted fault request.now.device.now self.entry) }
    {
        let Replay {
            stack,
            tops,
            mapper,
            player,
            start,
            mut asked,
            mut writes,
            failed,
        } = self;
        if failed {
            return Err(ReplayFault::Stopped);
        }
        let Some(device) = top_device(stack, tops.as_slice(), request.device) else {
            return Err(ReplayFault::NotTop);
        };
        requests_are_alone::<Value>(stack);
        let Ok(player) = play_front(alloc, mapper, player, request, device, units) else {
            return Err(ReplayFault::Memory);
        };
        let whole = whole_sectors(stack, device, request, player.playing.next);
        asked.add(request, device, Some(units));
        let write = KeptWrite {
            device,
            start: request.start,
            whole,
        };
        let Ok(()) = keep(&mut writes, request.op, write) else {
            return Err(ReplayFault::Memory);
        };
        let Ok(mapper) = rerun(alloc, stack, &writes) else {
            return Err(ReplayFault::Memory);
        };
        Ok(Replay {
            stack,
            tops,
            mapper,
            player,
            start,
            asked,
            writes,
            failed: false,
        })
    }
}

/// How many sectors of a request were played whole, if `next` is the next sector to answer; 0 if the request passes the
/// end of its device.
fn whole_sectors(stack: &Stack, device: DeviceId, request: &Request<'_>, next: u64) -> u64
    requires device { device < length stack.now.devices }
    requires next { request.now.start + request.now.len ≤ device_len stack.now device
        → request.now.start ≤ next }
    ensures { result ≡ (if nat_lt (device_len stack.now device) (request.now.start + request.now.len) then 0
        else (next - request.now.start)) }
{
    let end = stack.len(device);
    if end < request.start || end - request.start < request.len {
        0
    } else {
        next - request.start
    }
}

/// Refuses a stack if two of its claims clash.
fn refuse_clash(alloc: Global, stack: &Stack) -> Result<(), ReplayFault>
    ensures tidy { OnOk result (IsTidy stack.now) }
    ensures fault { IfErr result (λ fault. IsNotBegun fault stack.now) }
{
    match stack.tidy(alloc) {
        Ok(None) => Ok(()),
        Ok(Some(_)) => Err(ReplayFault::Untidy),
        Err(_) => Err(ReplayFault::Memory),
    }
}

/// The top device with this name. `tops` tells for each device whether it is a top device.
fn top_device(stack: &Stack, tops: &[bool], name: &str) -> Option<DeviceId>
    requires { AreTops stack.now tops.now }
    ensures some { IfSome result
        (λ device. (position (λ other. is_same other.name name.now) stack.now.devices ≡ Some device)
        × IsTop stack.now device) }
    ensures none { result ≡ None → HasTop stack.now name.now → ⊥ }
{
    let device = stack.device(name)?;
    if tops[device.index()] {
        Some(device)
    } else {
        None
    }
}
