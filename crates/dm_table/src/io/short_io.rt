//! An in-memory input and output for tests, which move a few bytes per call and fail when a test wants them to.
//! Their contracts say exactly what each call does, so that a test that uses them shows what it claims to.
//! After the first end or fault, each later call must meet it again; keep the contracts exact.
ghost use Rattle.dm_table.specs.Prelude.{length, take, drop, true, false, is_err, IsErr, IsTrue, IfOk, vec_len, vec_capacity, after_flush, after_read, after_write, fault_of};
ghost use Rattle.dm_table.specs.io.ShortIo.{Supply, fresh_supply, Intake, fresh_intake, HandsOut, TakesIn, PassesOn};
ghost use Rattle.std.specs.Prelude.{◌≡◌, ◌+◌, ◌<◌, ◌≤◌, ◌++◌, ◌↔◌, ◌||◌, if◌then◌else◌};

use crate::io::device_io::{InFault, Input, OutFault, Output};
use crate::io::ghost_list::{GhostList, Tally};
use std::alloc::{AllocError, Global};
use std::marker::Model;

/// An in-memory input that hands out a slice, at most `step` bytes per read. After the last byte, each read
/// meets an end, or fails if `fails` is set.
#[derive(Drop)]
pub struct ShortIn<'a> {
    bytes: &'a [u8],
    at: usize,
    step: usize,
    fails: bool,
    faults: Tally,
    ends: Tally,
}

impl<'a> Model for ShortIn<'a> {
    ghost Value = { Supply };

    ghost view = { λ s. record {
      past = record { handed = take s.at s.bytes.now; faults = s.faults; ends = s.ends };
      left = drop s.at s.bytes.now;
      step = s.step;
      fails = s.fails;
    } };

    ghost invariant = { λ s. (s.at ≤ length s.bytes.now) × (0 < s.step) };
}

impl<'a> ShortIn<'a> {
    /// An input that hands out all of the bytes and then ends.
    pub fn new(bytes: &'a [u8], step: usize) -> ShortIn<'a>
        requires { 0 < step }
        ensures { result ≡ fresh_supply bytes.now step false }
    {
        ShortIn::made(bytes, step, false)
    }

    /// An input that hands out the first `count` bytes and then fails.
    pub fn failing(bytes: &'a [u8], step: usize, count: usize) -> ShortIn<'a>
        requires moves { 0 < step }
        requires within { count ≤ length bytes.now }
        ensures { result ≡ fresh_supply (take count bytes.now) step true }
    {
        ShortIn::made(&bytes[..count], step, true)
    }

    /// An input over these bytes that nothing has been read from yet.
    fn made(bytes: &'a [u8], step: usize, fails: bool) -> ShortIn<'a>
        requires { 0 < step }
        ensures { result ≡ fresh_supply bytes.now step fails }
    {
        ShortIn {
            bytes,
            at: 0,
            step,
            fails,
            faults: Tally::new(),
            ends: Tally::new(),
        }
    }

    /// Reads when no bytes are left: a fault if `fails` is set, else 0, which counts as an end unless `is_full` is set.
    fn read_nothing(&mut self, is_full: bool) -> Result<usize, InFault>
        ensures fault { IsErr result ↔ IsTrue self.old.fails }
        ensures zero { IfOk result (λ n. n ≡ 0) }
        ensures counts { self.new ≡ record self.old {
          past = record self.old.past {
            faults = self.old.past.faults + fault_of result;
            ends = self.old.past.ends + (if is_err result || is_full then 0 else 1);
          };
        } }
    {
        if self.fails {
            self.faults.raise();
            return Err(InFault);
        }
        if !is_full {
            self.ends.raise();
        }
        Ok(0)
    }
}

impl<'a> Input for ShortIn<'a> {
    ghost past = { λ s. s.past };

    /// Hands out the next bytes: at most `step`, and no more than are left or fit into the buffer.
    fn read(&mut self, buffer: &mut [u8]) -> Result<usize, InFault>
        ensures within { IfOk result (λ n. n ≤ length buffer.new) }
        ensures past { self.new.past ≡ after_read self.old.past result buffer.new }
        ensures exact { HandsOut self.old self.new result buffer.new }
    {
        let left = &self.bytes[self.at..];
        if left.is_empty() {
            return self.read_nothing(buffer.is_empty());
        }
        let n = self.step.min(left.len().min(buffer.len()));
        buffer[..n].copy_from_slice(&left[..n]);
        self.at += n;
        Ok(n)
    }
}

/// An in-memory output that keeps the bytes written to it, at most `step` per write. Once it is full, writes fail.
#[derive(Drop)]
pub struct ShortOut {
    taken: Vec<u8>,
    room: usize,
    step: usize,
    flush_fails: bool,
    waiting: GhostList<u8>,
    faults: Tally,
    flushes: Tally,
}

impl Model for ShortOut {
    ghost Value = { Intake };

    ghost view = { λ s. record {
      past = record {
        written = s.taken.items;
        waiting = s.waiting.items;
        faults = s.faults;
        flushes = s.flushes;
      };
      room = s.room;
      step = s.step;
      flush_fails = s.flush_fails;
    } };

    ghost invariant = { λ s. (vec_len s.taken + s.room ≤ vec_capacity s.taken) × (0 < s.step) };
}

impl ShortOut {
    /// An output that accepts `count` bytes and then fails; flushes succeed. All of its memory is allocated now.
    pub fn new(alloc: Global, step: usize, count: usize) -> Result<ShortOut, AllocError>
        requires { 0 < step }
        ensures { IfOk result (λ s. s ≡ fresh_intake step count false) }
    {
        ShortOut::made(alloc, step, count, false)
    }

    /// An output that accepts `count` bytes and then fails; every flush fails too.
    pub fn failing_flush(alloc: Global, step: usize, count: usize) -> Result<ShortOut, AllocError>
        requires { 0 < step }
        ensures { IfOk result (λ s. s ≡ fresh_intake step count true) }
    {
        ShortOut::made(alloc, step, count, true)
    }

    /// An output with this room that nothing has been written to yet.
    fn made(
        alloc: Global,
        step: usize,
        count: usize,
        flush_fails: bool,
    ) -> Result<ShortOut, AllocError>
        requires { 0 < step }
        ensures { IfOk result (λ s. s ≡ fresh_intake step count flush_fails) }
    {
        Ok(ShortOut {
            taken: Vec::with_capacity(alloc, count)?,
            room: count,
            step,
            flush_fails,
            waiting: GhostList::new(),
            faults: Tally::new(),
            flushes: Tally::new(),
        })
    }

    /// The bytes that were written.
    pub fn as_slice(&self) -> &[u8]
        ensures { result.now ≡ self.now.past.written }
    {
        self.taken.as_slice()
    }
}

impl Output for ShortOut {
    ghost past = { λ s. s.past };

    ghost is_out = { λ s. Unit {0} };

    /// Accepts the first bytes of the slice: at most `step`, and no more than the output has room for.
    fn write(&mut self, bytes: &[u8]) -> Result<usize, OutFault>
        ensures within { IfOk result (λ n. n ≤ length bytes.now) }
        ensures progress { IfOk result (λ n. 0 < length bytes.now → 0 < n) }
        ensures past { self.new.past ≡ after_write self.old.past result bytes.now }
        ensures exact { TakesIn self.old self.new result bytes.now }
    {
        if self.room == 0 {
            self.faults.raise();
            return Err(OutFault);
        }
        let n = self.step.min(bytes.len().min(self.room));
        // This never fails, because the vector has had its full capacity since the output was made.
        let Ok(()) = self.taken.extend_from_slice(&bytes[..n]) else {
            unreachable!()
        };
        self.waiting.note(&bytes[..n]);
        self.room -= n;
        Ok(n)
    }

    /// Flushes, and fails exactly if the output was made by `failing_flush`.
    fn flush(&mut self) -> Result<(), OutFault>
        ensures past { self.new.past ≡ after_flush self.old.past result }
        ensures exact { PassesOn self.old self.new result }
    {
        self.flushes.raise();
        if self.flush_fails {
            self.faults.raise();
            return Err(OutFault);
        }
        self.waiting = GhostList::new();
        Ok(())
    }

    /// Does nothing: a `ShortOut` passes nothing on.
    fn drain(&mut self) {}
}
