//! `Counted` makes any reader or writer of std an input or an output.
//! std counts neither faults nor ends, and knows the bytes of few devices, so a `Counted` keeps the history itself.
//! A proof knows nothing about a real device but this history: record each result at the point where it is returned.
ghost use Rattle.dm_table.specs.Prelude.{[], length, IfOk, Keeps, ReadConsumes, WriteAppends, given, fault_of, ends_added, unflushed};
ghost use Rattle.std.specs.Prelude.{◌≡◌, ◌+◌, ◌<◌, ◌≤◌, ◌++◌};

use crate::io::device_io::{InFault, Input, OutFault, Output};
use crate::io::ghost_list::{GhostList, Tally};
use std::io::{Read, Write};

/// A reader or writer of std, and its history, which is ghost data and so costs no memory and no time.
#[derive(Drop)]
pub struct Counted<T> {
    inner: T,
    handed: GhostList<u8>,
    read_faults: Tally,
    ends: Tally,
    written: GhostList<u8>,
    waiting: GhostList<u8>,
    write_faults: Tally,
    flushes: Tally,
}

impl<T> Counted<T> {
    /// Wraps a reader or writer of std, with an empty history.
    pub fn new(inner: T) -> Counted<T>
        ensures inner { result.inner ≡ inner }
        ensures bytes { (result.handed.items ≡ []) × (result.written.items ≡ [])
            × (result.waiting.items ≡ []) }
        ensures counts { (result.read_faults ≡ 0) × (result.ends ≡ 0)
            × (result.write_faults ≡ 0) × (result.flushes ≡ 0) }
    {
        Counted {
            inner,
            handed: GhostList::new(),
            read_faults: Tally::new(),
            ends: Tally::new(),
            written: GhostList::new(),
            waiting: GhostList::new(),
            write_faults: Tally::new(),
            flushes: Tally::new(),
        }
    }
}

impl<T: Read> Input for Counted<T> {
    ghost past = { λ c. record { handed = c.handed.items; faults = c.read_faults; ends = c.ends } };

    /// Reads from the reader once. Every error is a fault, even `Interrupted`.
    fn read(&mut self, buffer: &mut [u8]) -> Result<usize, InFault>
        ensures within { IfOk result (λ n. n ≤ length buffer.new) }
        ensures bytes { self.new.handed.items ≡ self.old.handed.items ++ given result buffer.new }
        ensures faults { self.new.read_faults ≡ self.old.read_faults + fault_of result }
        ensures ends { self.new.ends ≡ self.old.ends + ends_added result (length buffer.new) }
        // If std knows the bytes that the reader has left, the read hands out the first of them.
        ensures inner { ReadConsumes (T.remaining self.old.inner) (T.remaining self.new.inner)
            result buffer.new }
    {
        match self.inner.read(buffer) {
            Ok(n) => {
                self.handed.note(&buffer[..n]);
                if n == 0 && !buffer.is_empty() {
                    self.ends.raise();
                }
                Ok(n)
            }
            Err(_) => {
                self.read_faults.raise();
                Err(InFault)
            }
        }
    }
}

impl<T: Write> Output for Counted<T> {
    ghost past = { λ c. record {
      written = c.written.items;
      waiting = c.waiting.items;
      faults = c.write_faults;
      flushes = c.flushes;
    } };

    ghost is_out = { λ c. Unit {0} };

    /// Writes to the writer once. Every error is a fault, even `Interrupted`, and so is a return of 0 for a
    /// nonempty slice.
    fn write(&mut self, bytes: &[u8]) -> Result<usize, OutFault>
        ensures within { IfOk result (λ n. n ≤ length bytes.now) }
        ensures progress { IfOk result (λ n. 0 < length bytes.now → 0 < n) }
        ensures bytes { self.new.written.items ≡ self.old.written.items ++ given result bytes.now }
        ensures waiting { self.new.waiting.items ≡ self.old.waiting.items ++ given result bytes.now }
        ensures faults { self.new.write_faults ≡ self.old.write_faults + fault_of result }
        ensures flushes { self.new.flushes ≡ self.old.flushes }
        // If std knows the bytes that the writer contains, exactly the accepted bytes are appended to them.
        ensures inner { WriteAppends (T.contents self.old.inner) (T.contents self.new.inner)
            result bytes.now }
    {
        match self.inner.write(bytes) {
            Ok(n) if n > 0 || bytes.is_empty() => {
                self.written.note(&bytes[..n]);
                self.waiting.note(&bytes[..n]);
                Ok(n)
            }
            _ => {
                self.write_faults.raise();
                Err(OutFault)
            }
        }
    }

    fn flush(&mut self) -> Result<(), OutFault>
        ensures bytes { self.new.written.items ≡ self.old.written.items }
        ensures waiting { self.new.waiting.items ≡ unflushed result self.old.waiting.items }
        ensures faults { self.new.write_faults ≡ self.old.write_faults + fault_of result }
        ensures flushes { self.new.flushes ≡ self.old.flushes + 1 }
        ensures inner { Keeps (T.contents self.old.inner) (T.contents self.new.inner) }
    {
        self.flushes.raise();
        match self.inner.flush() {
            Ok(()) => {
                self.waiting = GhostList::new();
                Ok(())
            }
            Err(_) => {
                self.write_faults.raise();
                Err(OutFault)
            }
        }
    }

    /// Does nothing: a `Counted` has no buffer.
    fn drain(&mut self) {}
}
