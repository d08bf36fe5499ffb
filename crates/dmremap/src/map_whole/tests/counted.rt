//! `Counted` over readers and writers of std: each call makes one call of the reader or writer, and repeats none.
//!
//! A script says what each call of a fake reader or writer returns, and the fake counts its calls. A row contains a
//! script and the expected results.

ghost use Rattle.dmremap.specs.Prelude.{IfOk};
ghost use Rattle.std.specs.Prelude.{◌≤◌};

use dm_table::{Counted, Input, Output, write_all};
use std::cell::Cell;
use std::io::{self, Error, ErrorKind, Read, Write};

/// What a call of a fake returns: a number of bytes, or a fault.
#[derive(Clone, Copy)]
pub(super) enum Step {
    Moves(usize),
    Fails,
}

/// A reader or writer whose calls do what its script says; calls after the end of the script move no bytes.
#[derive(Drop)]
pub(super) struct Fake<'a> {
    pub(super) script: &'a [Step],
    pub(super) calls: &'a Cell<usize>,
}

impl<'a> Fake<'a> {
    /// Counts a call for a slice of `len` bytes, and returns what the script says for the call, at most `len` bytes.
    fn step(&self, len: usize) -> io::Result<usize>
        ensures { IfOk result (λ n. n ≤ len) }
    {
        let call = self.calls.get();
        self.calls.set(call.saturating_add(1));
        match self.script.get(call) {
            Some(Step::Moves(count)) => Ok((*count).min(len)),
            Some(Step::Fails) => Err(Error::from(ErrorKind::Interrupted)),
            None => Ok(0),
        }
    }
}

impl<'a> Read for Fake<'a> {
    fn read(&mut self, buffer: &mut [u8]) -> io::Result<usize> {
        self.step(buffer.len())
    }
}

impl<'a> Write for Fake<'a> {
    fn write(&mut self, bytes: &[u8]) -> io::Result<usize> {
        self.step(bytes.len())
    }

    fn flush(&mut self) -> io::Result<()> {
        match self.step(0) {
            Ok(_) => Ok(()),
            Err(error) => Err(error),
        }
    }
}

/// What a call does, the expected results of a read and of a write, and whether a flush is to succeed.
static CALLS: [(Step, Option<usize>, Option<usize>, bool); 4] = [
    (Step::Moves(4), Some(4), Some(4), true),
    (Step::Moves(1), Some(1), Some(1), true),
    (Step::Moves(0), Some(0), None, true),
    (Step::Fails, None, None, false),
];

#[test]
fn one_call_for_each_call(rt: HostRuntime) {
    for &(step, read, written, flushes) in &CALLS {
        let calls = Cell::new(0);
        let script = [step, step, step, Step::Moves(4)];
        let mut device = Counted::new(Fake {
            script: &script,
            calls: &calls,
        });
        assert!(rt;
            device.read(&mut [0; 4]).ok() == read && calls.get() == 1,
            "a read of {read:?}"
        );
        assert!(rt;
            device.write(&[1, 2, 3, 4]).ok() == written && calls.get() == 2,
            "a write of {written:?}"
        );
        assert!(rt;
            device.flush().is_ok() == flushes && calls.get() == 3,
            "a flush after {written:?}"
        );
    }
}

/// What each write does, whether all four bytes are written in the end, and how many writes are made.
static WRITES: [(Step, Step, Step, bool, usize); 4] = [
    (Step::Moves(4), Step::Fails, Step::Fails, true, 1),
    (Step::Moves(1), Step::Moves(1), Step::Moves(2), true, 3),
    (Step::Moves(2), Step::Fails, Step::Moves(4), false, 2),
    (Step::Moves(3), Step::Moves(0), Step::Moves(4), false, 2),
];

#[test]
fn all_of_some_bytes(rt: HostRuntime) {
    for &(first, second, third, succeeds, want) in &WRITES {
        let script = [first, second, third];
        let calls = Cell::new(0);
        let mut output = Counted::new(Fake {
            script: &script,
            calls: &calls,
        });
        let result = write_all(&mut output, &[1, 2, 3, 4]);
        assert!(rt; result.is_ok() == succeeds, "all after {want} writes");
        assert!(rt; calls.get() == want, "{want} writes");
    }
}
