//! Bytes gathered for a writer of std: when they are passed on, and which are left after a fault.
//!
//! A row says what each call of a fake writer does, and how many calls were made once the gathered bytes were passed
//! on, and after a flush.

use super::counted::{Fake, Step};
use dm_table::{Counted, Gathered, Output, write_all};
use std::cell::Cell;

/// What each call does, how many calls were made once the gathered bytes were passed on, how many after a flush, and
/// whether the flush succeeds.
static CALLS: [(Step, Step, Step, usize, usize, bool); 6] = [
    (Step::Moves(5), Step::Moves(0), Step::Fails, 1, 2, true),
    (Step::Moves(5), Step::Fails, Step::Moves(0), 1, 2, false),
    (Step::Moves(3), Step::Moves(2), Step::Moves(0), 2, 3, true),
    // If passing bytes on fails, the flush fails too, and no call is repeated.
    (Step::Moves(3), Step::Fails, Step::Moves(2), 2, 2, false),
    (Step::Moves(3), Step::Moves(0), Step::Moves(2), 2, 2, false),
    (Step::Fails, Step::Moves(5), Step::Moves(0), 1, 1, false),
];

#[test]
fn passes_on_once(rt: HostRuntime) {
    for &(first, second, third, handed_on, flushed, succeeds) in &CALLS {
        let script = [first, second, third];
        let calls = Cell::new(0);
        let mut output = Gathered::new(Counted::new(Fake {
            script: &script,
            calls: &calls,
        }));
        let gathered = write_all(&mut output, &[1, 2, 3, 4, 5]);
        assert!(rt;
            gathered.is_ok() && calls.get() == 0,
            "no call while there is room"
        );
        output.drain();
        assert!(rt; calls.get() == handed_on, "{handed_on} calls to hand on");
        let flush = output.flush();
        assert!(rt;
            flush.is_ok() == succeeds,
            "a flush after {handed_on} calls"
        );
        let write = output.write(&[]);
        assert!(rt;
            write.is_ok() == succeeds && calls.get() == flushed,
            "{flushed} calls after a flush, and a write of nothing"
        );
    }
}
