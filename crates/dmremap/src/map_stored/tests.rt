//! Runs after earlier requests, over inputs in memory with short reads or faults, which files on a disk don't have.
//!
//! Everything else is tested on the built program (`tests/outside`).

ghost use Rattle.std.specs.Prelude.{◌<◌};

use super::*;
use crate::job::{Format, TableForm};
use crate::parts::Parts;
use dm_store::MemoryImages;
use dm_table::{ShortIn, ShortOut};
use std::process::Abort;

const SOURCE: &[u8] = b"s: 0 32 snapshot base cow P 8\n";

const DISKS: &[u8] = b"base 32\ncow 32\n";

/// Earlier requests, and the expected result of a read in the chunk that the first of these requests writes.
#[derive(Clone, Copy)]
struct Case<'a> {
    name: &'a str,
    earlier: &'a [u8],
    /// The number of bytes after which reading the earlier requests fails, or `None` if it doesn't fail.
    fails_after: Option<usize>,
    output: &'a [u8],
    message: &'a [u8],
    status: u8,
}

const WRITTEN: Case<'static> = Case {
    name: "a chunk that was written",
    earlier: b"W s 9 1\n",
    fails_after: None,
    output: b"1 R cow 16 1\n",
    message: b"",
    status: 0,
};

const UNREAD: Case<'static> = Case {
    name: "a read that fails at once",
    fails_after: Some(0),
    output: b"",
    message: b"dmremap: before: read\n",
    status: 1,
    ..WRITTEN
};

static CASES: [Case<'static>; 6] = [
    WRITTEN,
    Case {
        name: "no earlier requests",
        earlier: b"",
        output: b"1 R base 8 1\n",
        ..WRITTEN
    },
    UNREAD,
    Case {
        name: "a read that fails after a request",
        fails_after: Some(8),
        ..UNREAD
    },
    Case {
        name: "a read that fails in a request",
        fails_after: Some(3),
        ..UNREAD
    },
    Case {
        name: "a bad line before a read that fails",
        earlier: b"W s 9 1\nW s 9\nW s 9 1\n",
        fails_after: Some(16),
        message: b"dmremap: before: form at 2\n",
        ..UNREAD
    },
];

/// An input of these bytes that delivers at most `step` of them a read, and fails after `fails_after` bytes, if given.
fn input(bytes: &[u8], step: usize, fails_after: Option<usize>) -> ShortIn<'_>
    requires { 0 < step }
{
    match fails_after {
        Some(count) => ShortIn::failing(bytes, step, count.min(bytes.len())),
        None => ShortIn::new(bytes, step),
    }
}

/// Runs a case over streams that move at most `step` bytes a call, and asserts its results.
fn check(rt: &impl Abort, alloc: Global, case: &Case<'_>, step: usize)
    requires { 0 < step }
{
    let mut earlier = Some(input(case.earlier, step, case.fails_after));
    let mut written = ShortOut::new(alloc, step, 4096).expect(rt, "an output");
    let mut messages = ShortOut::new(alloc, step, 4096).expect(rt, "an output");
    let paths: Option<ShortIn<'_>> = None;
    let mut parts = Parts {
        format: Format::Tables(TableForm::Table),
        source: input(SOURCE, step, None),
        disks: Some(input(DISKS, step, None)),
        paths,
        images: MemoryImages::new(&[], 0),
    };
    let status = map_stored(
        alloc,
        false,
        &mut parts,
        &mut earlier,
        &mut input(b"R s 8 1\n", step, None),
        &mut written,
        &mut messages,
    );
    assert!(rt;
        written.as_slice() == case.output,
        "the output of {}",
        case.name
    );
    assert!(rt;
        messages.as_slice() == case.message,
        "the message of {}",
        case.name
    );
    assert_eq!(rt; status, case.status, "the status of {}", case.name);
}

#[test]
fn cases(rt: HostRuntime) {
    for case in &CASES {
        check(&rt, rt.alloc(), case, 1);
        check(&rt, rt.alloc(), case, 4096);
    }
}
