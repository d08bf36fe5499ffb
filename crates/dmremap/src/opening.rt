//! How a source opens a command, before requests are read or anything is written: it loads devices, the state in which
//! a run over the devices starts, and the images that hold the disks. A new kind of source implements `Opens`; a new
//! command is written once for all kinds.
//!
//! The contents of images aren't known beforehand, so each clause holds for all contents that agree with every read.

ghost use Rattle.dmremap.specs.Prelude.{IfErr, IfOk, None, Option, Some, InputPast, written_since, HasWritten, Description, Contents, CanMap, Answer, Does, IsOutOfMemory, exit_status, failed_writes, RangeWords, range_words, SoundAs, IsOpened, Loaded, Opening, IsBegunAt, AskedBy, Start};
ghost use Rattle.dmremap.specs.declared.status.TheConstants.{STATUS_MEMORY};
ghost use Rattle.std.specs.Prelude.{◌≡◌};

use crate::exit::{Exit, Refusal};
use crate::job::SectorRange;
use crate::prepared::Prepared;
use dm_stack::Stack;
use dm_table::Output;
use std::alloc::Global;

/// A source that opens a command. `open` is called once, and then at most one of `begin` and `read_sectors`.
pub trait Opens {
    /// The contents of all images agree with every read of them so far.
    ghost IsSeen: { Self → Contents → Type 0 };

    /// The openings that the reads between two moments allow, if `Contents` is what the images hold.
    ghost opens: { Self → Self → Contents → Opening → Type 0 };

    /// How a run over a stack starts, as the reads between two moments and the contents of the images determine it.
    ghost starts: { Self → Self → Contents → Description → Start };

    /// The answer of reading sectors of a stack, as the reads between two moments and the contents of the images
    /// determine it; None if they don't determine an answer.
    ghost reads: { Self → Self → Contents → RangeWords → Description → Option Answer };

    /// Between two moments, the source opened this stack, and did nothing else.
    ghost HasOpened: { Self → Self → Description → Type 0 };

    /// Between two moments, no input was read after its end or a fault, and none before the inputs that come first were
    /// accepted.
    ghost IsRead: { Self → Self → Type 0 };

    /// Between two moments, everything that must be left untouched if memory runs out was left untouched.
    ghost IsLeft: { Self → Self → Type 0 };

    /// Reads the devices and their disks, and checks them.
    ///
    /// # Errors
    ///
    /// A refusal because memory ran out; otherwise the first fault of the first check that finds any.
    fn open(&mut self, alloc: Global) -> Result<Stack, Refusal>
        ensures opened { (held : Contents) → IsSeen self.new held → IsOpened (opens self.old self.new held) result }
        ensures open { IfOk result (λ stack. HasOpened self.old self.new stack) }
        ensures read { IsRead self.old self.new }
        ensures left { IfErr result (λ refusal. IsOutOfMemory refusal → IsLeft self.old self.new) }
        // The reads and the contents of the images allow at most one opening.
        ensures one { (old new : Self) (held : Contents) (a b : Opening)
            → opens old new held a → opens old new held b → a ≡ b };

    /// Starts a run in the state that the exception stores of the opened stack hold, or with fresh snapshots if no list
    /// of paths says which images hold the stores.
    ///
    /// # Errors
    ///
    /// A refusal because memory ran out; otherwise the fault of the list of paths, or of the first bad store.
    fn begin<'s>(&mut self, alloc: Global, stack: &'s Stack) -> Result<Prepared<'s>, Refusal>
        ensures going { IfOk result (λ prepared. CanMap stack.now prepared.mapper) }
        ensures texts { IfOk result (λ prepared. prepared.texts ≡ stack.now) }
        ensures opened { (first : Self) → HasOpened first self.old stack.now
            → (held : Contents) → IsSeen self.new held → opens first self.new held (Loaded (SoundAs stack.now)) }
        ensures begun { (first : Self) → HasOpened first self.old stack.now
            → (held : Contents) → IsSeen self.new held
            → IsBegunAt stack.now None (starts first self.new held stack.now) result }
        ensures read { (first : Self) → HasOpened first self.old stack.now → IsRead first self.new }
        ensures left { IfErr result (λ refusal. IsOutOfMemory refusal
            → (first : Self) → HasOpened first self.old stack.now → IsLeft first self.new) };

    /// Writes the bytes of a device's sectors, in the state that the exception stores of the opened stack hold, and
    /// returns the exit that the command would have. Doesn't flush the output.
    fn read_sectors<W: Output>(
        &mut self,
        alloc: Global,
        stack: &Stack,
        range: SectorRange<'_>,
        output: &mut W,
    ) -> Exit
        ensures did { (first : Self) → HasOpened first self.old stack.now
            → (held : Contents) → IsSeen self.new held
            → Does (λ answer. reads first self.new held (range_words range.entry) stack.now ≡ Some answer)
            (written_since (W.past output.old) (W.past output.new)) result }
        ensures writes { HasWritten (W.past output.old) (W.past output.new) (failed_writes result) }
        ensures asked { (past : InputPast) → AskedBy past past result }
        ensures opened { (first : Self) → HasOpened first self.old stack.now
            → (held : Contents) → IsSeen self.new held → opens first self.new held (Loaded (SoundAs stack.now)) }
        ensures read { (first : Self) → HasOpened first self.old stack.now → IsRead first self.new }
        ensures left { exit_status result ≡ STATUS_MEMORY
            → (first : Self) → HasOpened first self.old stack.now → IsLeft first self.new };
}
