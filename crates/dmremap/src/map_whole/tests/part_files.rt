//! Files of a load that end or fail, and how many reads are made of each. Missing and unreadable files are tested on
//! the built program (`tests/outside`).

use super::counted::{Fake, Step};
use dm_table::{Counted, Part, read_part};
use std::alloc::Global;
use std::cell::Cell;

/// How many bytes a part has if reads of its file return what the script says; `None` if reading the file fails.
fn part_len(alloc: Global, script: &[Step], calls: &Cell<usize>) -> Option<usize> {
    let mut input = Counted::new(Fake { script, calls });
    let text = read_part(alloc, Part::Source, &mut input).ok()?;
    Some(text.len())
}

/// What each read of a file returns, how many bytes the part has, and how many reads are made in all.
static READS: [(Step, Step, Step, Option<usize>, usize); 5] = [
    (Step::Moves(0), Step::Moves(4), Step::Fails, Some(0), 1),
    (Step::Moves(4), Step::Moves(0), Step::Moves(4), Some(4), 2),
    (Step::Moves(4), Step::Moves(1), Step::Moves(0), Some(5), 3),
    (Step::Fails, Step::Moves(4), Step::Moves(0), None, 1),
    (Step::Moves(4), Step::Fails, Step::Moves(0), None, 2),
];

#[test]
fn nothing_is_asked_after_an_end_or_a_fault(rt: HostRuntime) {
    for &(first, second, third, bytes, reads) in &READS {
        let script = [first, second, third];
        let calls = Cell::new(0);
        let read = part_len(rt.alloc(), &script, &calls);
        assert!(rt; read == bytes, "bytes after {reads} reads");
        assert!(rt; calls.get() == reads, "{reads} reads");
    }
}
