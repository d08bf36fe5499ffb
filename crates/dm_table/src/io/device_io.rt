//! The traits for inputs and outputs, through which the program reads and writes bytes, and their faults.
//! Each trait has a ghost member `past`, the history of all calls, so that a contract can speak of any device.
//! If you change a clause of these traits, check every reader and writer in the crates above.
ghost use Rattle.dm_table.specs.Base.{length, IfOk};
ghost use Rattle.dm_table.specs.io.DeviceIo.{InputPast, OutputPast, after_flush, after_read, after_write};
ghost use Rattle.dm_table.specs.io.Progress.{Wrote};
ghost use Rattle.std.specs.Prelude.{◌≡◌, ◌<◌, ◌≤◌};

use crate::io::text::{TEXT_ROOM, Text};
use thiserror::Error;

/// The fault of a failed read.
#[derive(Clone, Copy, Debug, PartialEq, Eq, Error)]
#[error("the input failed")]
pub struct InFault;

/// The fault of a failed write or flush.
#[derive(Clone, Copy, Debug, PartialEq, Eq, Error)]
#[error("the output failed")]
pub struct OutFault;

/// An input, from which bytes are read.
pub trait Input {
    /// The input's history: the bytes it handed out, and how many reads failed or met an end.
    ghost past: { Self → InputPast };

    /// Fills the first bytes of the buffer and returns how many: 0 at an end, or if the buffer is empty.
    /// The bytes after these, and after a failed read all bytes of the buffer, may be anything.
    fn read(&mut self, buffer: &mut [u8]) -> Result<usize, InFault>
        ensures within { IfOk result (λ n. n ≤ length buffer.new) }
        ensures past { past self.new ≡ after_read (past self.old) result buffer.new };
}

/// An output, to which bytes are written.
pub trait Output {
    /// The output's history: the bytes it accepted, those that no flush has passed on yet, how many writes
    /// and flushes failed, and how many flushes were requested.
    ghost past: { Self → OutputPast };

    /// The output has passed on all bytes that it accepted, unless a call of an output behind it has failed.
    ghost is_out: { Self → Type 0 };

    /// Accepts the first bytes of the slice and returns how many, which is 0 only for an empty slice.
    /// A failed write accepts no bytes.
    fn write(&mut self, bytes: &[u8]) -> Result<usize, OutFault>
        ensures within { IfOk result (λ n. n ≤ length bytes.now) }
        ensures progress { IfOk result (λ n. 0 < length bytes.now → 0 < n) }
        ensures past { past self.new ≡ after_write (past self.old) result bytes.now };

    /// Passes all accepted bytes on to their destination. If the flush fails, all bytes that no earlier flush
    /// has passed on still count as waiting.
    fn flush(&mut self) -> Result<(), OutFault>
        ensures { past self.new ≡ after_flush (past self.old) result };

    /// Writes all of a nonempty text. At a fault only a prefix of the text has been written, and nothing is
    /// retried.
    fn put<T: Text>(&mut self, text: &T) -> Result<(), OutFault>
        requires { 0 < length (T.text text.now) }
        ensures { Wrote (past self.old) (past self.new) result (T.text text.now) }
    {
        let mut bytes = [0; TEXT_ROOM];
        let len = text.put_into(&mut bytes, 0);
        let mut rest = &bytes[..len];
        'rest: while !rest.is_empty() {
            let taken = self.write(rest)?;
            rest = &rest[taken..];
        }
        Ok(())
    }

    /// Passes buffered bytes on without a flush, as far as possible. Call `drain` before waiting for input.
    /// It returns no fault; after a fault, the next write, `put` or flush fails.
    fn drain(&mut self)
        ensures past { past self.new ≡ past self.old }
        ensures out { is_out self.new };
}
