//! `Gathered`, an output that collects bytes in a block and writes them to another output when it is full.
//!
//! A system call per line would cost many times as much as the line itself. Each text is put directly into
//! the block, which keeps free space for one more text at its end, so that a single test comes before each
//! text: whether the block is full or the output behind has failed. When that output fails, the block's limit
//! is set to 0, so that the block counts as full.

ghost use Rattle.dm_table.specs.Prelude.{[], false, length, slice_range, take, true, IfOk, IsErr, OnOk, nat_lt, after_flush, after_write, with_fault, MindsFaults, past_of, Wrote};
ghost use Rattle.std.specs.Prelude.{◌≡◌, ◌↔◌, ◌+◌, ◌-◌, ◌<◌, ◌≤◌, ◌++◌};

use crate::io::block::put_bytes;
use crate::io::device_io::{OutFault, Output};
use crate::io::ghost_list::Tally;
use crate::io::text::{TEXT_ROOM, Text};
use std::marker::Model;

/// The block is full at this many bytes: all collected bytes are passed on before the next text.
const FULL: usize = 65536;

/// The size of the block in bytes: one more text fits in as long as the block isn't full.
const BLOCK_BYTES: usize = FULL + TEXT_ROOM;

/// An output that collects bytes in front of another output.
///
/// Bytes are passed on in order, and all of them at a flush. Once a call of the other output has failed, that
/// output isn't called any more: the bytes that it didn't accept stay in the block, and each write, `put` and
/// flush fails. A fault that `drain` meets is counted by the next write, `put` or flush. The fault and flush
/// counts are this output's own; those of the other output aren't visible.
#[derive(Drop)]
pub struct Gathered<W: Output> {
    output: W,
    block: [u8; BLOCK_BYTES],
    len: usize,
    /// At this many collected bytes or more, all are passed on before the next text. The limit is 0 once the
    /// other output has failed, so that every write tries to pass bytes on and fails.
    limit: usize,
    faults: Tally,
    flushes: Tally,
}

impl<W: Output> Model for Gathered<W> {
    ghost use Rattle.dm_table.specs.Base.{take};
    ghost use Rattle.dm_table.specs.declared.io.gathered.TheConstants.{FULL, BLOCK_BYTES};
    ghost use Rattle.dm_table.specs.io.Gathered.{Gathering};
    ghost use Rattle.std.specs.Prelude.{◌≤◌, ◌==◌};

    ghost Value = { Gathering };

    ghost view = { λ g. record {
      behind = W.past g.output;
      held = take g.len g.block;
      broken = g.limit == 0;
      faults = g.faults;
      flushes = g.flushes;
    } };

    ghost invariant = { λ g. (g.len ≤ BLOCK_BYTES) × (g.limit ≤ FULL) };
}

impl<W: Output> Gathered<W> {
    ghost use Rattle.dm_table.specs.declared.io.gathered.TheConstants.{FULL};

    /// Puts an empty buffer in front of an output.
    pub fn new(output: W) -> Gathered<W>
        ensures { result ≡ record {
          behind = W.past output;
          held = [];
          broken = false;
          faults = 0;
          flushes = 0;
        } }
    {
        Gathered {
            output,
            block: [0; BLOCK_BYTES],
            len: 0,
            limit: FULL,
            faults: Tally::new(),
            flushes: Tally::new(),
        }
    }

    /// Passes all collected bytes on. If the output behind has failed, now or before, returns a fault and counts it.
    #[cold]
    #[inline(never)]
    fn try_drain(&mut self) -> Result<(), OutFault>
        ensures past { past_of self.new ≡ with_fault (past_of self.old) result }
        ensures minds { MindsFaults self.old self.new }
        ensures fails { IsErr result ↔ (self.new.broken ≡ true) }
        ensures all { OnOk result (self.new.held ≡ []) }
    {
        self.drain();
        if self.limit == 0 {
            self.faults.raise();
            return Err(OutFault);
        }
        Ok(())
    }

    /// Passes all collected bytes on if the block has no room left for a text, or if the output behind has failed.
    #[inline(always)]
    fn drain_if_full(&mut self) -> Result<(), OutFault>
        ensures past { past_of self.new ≡ with_fault (past_of self.old) result }
        ensures minds { MindsFaults self.old self.new }
        ensures fails { IsErr result ↔ (self.new.broken ≡ true) }
        ensures room { OnOk result (length self.new.held ≤ FULL) }
    {
        if self.len >= self.limit {
            return self.try_drain();
        }
        Ok(())
    }
}

/// Writes the first `len` bytes of a block, stopping at a fault, and returns how many were written.
fn write_front<W: Output>(output: &mut W, block: &[u8], len: usize) -> usize
    requires { len ≤ length block.now }
    ensures within { result ≤ len }
    ensures bytes { (W.past output.new).written ≡ (W.past output.old).written ++ take result block.now }
    ensures waiting { (W.past output.new).waiting ≡ (W.past output.old).waiting ++ take result block.now }
    // The output failed exactly if not all of the bytes were written.
    ensures grows { (W.past output.old).faults ≤ (W.past output.new).faults }
    ensures failed { nat_lt (W.past output.old).faults (W.past output.new).faults ≡ nat_lt result len }
{
    let mut sent = 0;
    'rest: while sent < len {
        match output.write(&block[sent..len]) {
            Ok(taken) => sent += taken,
            Err(OutFault) => return sent,
        }
    }
    sent
}

/// Moves the bytes from `start` to `end` to the front of a block.
fn move_to_front(block: &mut [u8], start: usize, end: usize)
    requires ordered { start ≤ end }
    requires within { end ≤ length block.old }
    ensures { take (end - start) block.new ≡ slice_range block.old start end }
{
    block.copy_within(start..end, 0);
}

impl<W: Output> Output for Gathered<W> {
    ghost past = { past_of };

    ghost is_out = { λ g. g.broken ≡ false → g.held ≡ [] };

    fn write(&mut self, bytes: &[u8]) -> Result<usize, OutFault>
        ensures within { IfOk result (λ n. n ≤ length bytes.now) }
        ensures progress { IfOk result (λ n. 0 < length bytes.now → 0 < n) }
        ensures past { past_of self.new ≡ after_write (past_of self.old) result bytes.now }
        ensures minds { MindsFaults self.old self.new }
        ensures fails { IsErr result ↔ (self.new.broken ≡ true) }
    {
        self.drain_if_full()?;
        let n = bytes.len().min(BLOCK_BYTES - self.len);
        self.len = put_bytes(&mut self.block, self.len, &bytes[..n]);
        Ok(n)
    }

    fn flush(&mut self) -> Result<(), OutFault>
        ensures past { past_of self.new ≡ after_flush (past_of self.old) result }
        ensures minds { MindsFaults self.old self.new }
        ensures fails { IsErr result ↔ (self.new.broken ≡ true) }
    {
        self.flushes.raise();
        self.try_drain()?;
        match self.output.flush() {
            Ok(()) => Ok(()),
            Err(OutFault) => {
                self.limit = 0;
                self.faults.raise();
                Err(OutFault)
            }
        }
    }

    #[inline(always)]
    fn put<T: Text>(&mut self, text: &T) -> Result<(), OutFault>
        requires { 0 < length (T.text text.now) }
        ensures wrote { Wrote (past_of self.old) (past_of self.new) result (T.text text.now) }
        ensures minds { MindsFaults self.old self.new }
        ensures fails { IsErr result ↔ (self.new.broken ≡ true) }
    {
        self.drain_if_full()?;
        self.len = text.put_into(&mut self.block, self.len);
        Ok(())
    }

    /// Passes all collected bytes on. At a fault of the output behind, the bytes that it didn't accept stay in the
    /// block, and the next write, `put` or flush fails.
    fn drain(&mut self)
        ensures past { past_of self.new ≡ past_of self.old }
        ensures minds { MindsFaults self.old self.new }
        ensures all { self.new.broken ≡ false → self.new.held ≡ [] }
    {
        if self.limit == 0 {
            return;
        }
        let sent = write_front(&mut self.output, &self.block, self.len);
        move_to_front(&mut self.block, sent, self.len);
        self.len -= sent;
        self.limit = if self.len == 0 { FULL } else { 0 };
    }
}
