//! All of `map` over inputs and outputs in memory with short reads, short writes and faults: the exact output, message
//! and status.
//!
//! Tests of the built program (`tests/outside`) check which output follows from which texts. Here are the tests that
//! need a stream of our own, or that call functions of the library. Expected results are derived from the rules, never
//! copied from a run. Tables are `static` because the rows of an array inside a function are proved one by one.

ghost use Rattle.std.specs.Prelude.{◌<◌};

use super::*;
use crate::job::TableForm;
use dm_table::{ShortIn, ShortOut};
use std::alloc::AllocError;
use std::process::Abort;

mod batches;
mod counted;
mod described;
mod fault_texts;
mod faults;
mod fronts;
mod gathered;
mod part_files;
mod parts;

/// More bytes than any case writes. A stream moves up to this many bytes a call, unless a case sets another step.
const PLENTY: usize = 4096;

/// The inputs of a run, and its expected results.
#[derive(Clone, Copy)]
struct Case<'a> {
    name: &'a str,
    source: &'a str,
    disks: &'a str,
    requests: &'a [u8],
    /// Whether status lines are asked for.
    flag: bool,
    output: &'a [u8],
    message: &'a [u8],
    status: u8,
    streams: Streams,
}

/// How the streams of a run behave: each moves at most `step` bytes a call, and a stream with a number here fails after
/// that many bytes.
#[derive(Clone, Copy)]
struct Streams {
    step: usize,
    source: Option<usize>,
    disks: Option<usize>,
    requests: Option<usize>,
    output: Option<usize>,
    messages: Option<usize>,
    flush_fails: bool,
}

/// Streams without faults, and without short reads or writes.
const STEADY: Streams = Streams {
    step: PLENTY,
    source: None,
    disks: None,
    requests: None,
    output: None,
    messages: None,
    flush_fails: false,
};

/// A linear device on part of a disk.
const VOLUME: Case<'static> = Case {
    name: "a volume",
    source: "a: 0 100 linear sda 50\n",
    disks: "sda 150\n",
    requests: b"R a 0 100\n",
    flag: false,
    output: b"1 R sda 50 100\n",
    message: b"",
    status: 0,
    streams: STEADY,
};

/// A volume group with two logical volumes; the second has two stripes and is read-only.
const GROUP: Case<'static> = Case {
    name: "a group",
    source: "contents = \"Text Format Volume Group\"\nversion = 1\nvg0 {\n  extent_size = 8192\n  physical_volumes {\n    pv0 {\n      device = \"/dev/sda1\"\n      dev_size = 1050624\n      pe_start = 2048\n      pe_count = 128\n    }\n  }\n  logical_volumes {\n    lv0 {\n      status = [\"READ\", \"WRITE\", \"VISIBLE\"]\n      segment_count = 1\n      segment1 {\n        start_extent = 0\n        extent_count = 25\n        type = \"striped\"\n        stripe_count = 1\n        stripes = [\"pv0\", 0]\n      }\n    }\n    lv-1 {\n      status = [\"READ\"]\n      segment_count = 1\n      segment1 {\n        start_extent = 0\n        extent_count = 4\n        type = \"striped\"\n        stripe_count = 2\n        stripe_size = 128\n        stripes = [\"pv0\", 25, \"pv0\", 27]\n      }\n    }\n  }\n}\n",
    disks: "",
    requests: b"R vg0-lv0 0 8\nR vg0-lv--1 120 16\nW vg0-lv--1 0 8\n",
    output: b"1 R /dev/sda1 2048 8\n2 R /dev/sda1 206968 8\n2 R /dev/sda1 223232 8\n3 error 8\n",
    ..VOLUME
};

/// An input of these bytes that delivers at most `step` of them a read, and fails after `fails_after` bytes, if given.
fn input(bytes: &[u8], step: usize, fails_after: Option<usize>) -> ShortIn<'_>
    requires { 0 < step }
{
    match fails_after {
        Some(count) => ShortIn::failing(bytes, step, count.min(bytes.len())),
        None => ShortIn::new(bytes, step),
    }
}

/// An output that fails after a number of bytes, if a number is given, and whose flushes may fail.
fn output(
    rt: &impl Abort,
    alloc: Global,
    step: usize,
    fails_after: Option<usize>,
    flush_fails: bool,
) -> ShortOut
    requires { 0 < step }
{
    let room = fails_after.unwrap_or(PLENTY);
    let made = if flush_fails {
        ShortOut::failing_flush(alloc, step, room)
    } else {
        ShortOut::new(alloc, step, room)
    };
    made.expect(rt, "an output")
}

/// A message of the program, given the words after `dmremap: `.
fn message_of(rt: &impl Abort, alloc: Global, words: &str) -> String {
    format!(in alloc; "dmremap: {words}\n").expect(rt, "a message")
}

/// Runs a case, and asserts its expected results.
fn check(rt: &impl Abort, alloc: Global, case: &Case<'_>) {
    let streams = case.streams;
    let step = streams.step.max(1);
    let mut source = input(case.source.as_bytes(), step, streams.source);
    let mut disks = Some(input(case.disks.as_bytes(), step, streams.disks));
    let mut requests = input(case.requests, step, streams.requests);
    let mut written = output(rt, alloc, step, streams.output, streams.flush_fails);
    let mut messages = output(rt, alloc, step, streams.messages, false);
    let status = map_whole(
        alloc,
        Format::Tables(TableForm::Table),
        case.flag,
        &mut source,
        &mut disks,
        &mut requests,
        &mut written,
        &mut messages,
    );
    check_answer(rt, case, status, written.as_slice(), messages.as_slice());
}

/// Runs a case once for each of the steps, with streams that move at most that many bytes a call.
fn check_at(rt: &impl Abort, alloc: Global, case: &Case<'_>, steps: &[usize]) {
    for &step in steps {
        let streams = Streams {
            step,
            ..case.streams
        };
        check(rt, alloc, &Case { streams, ..*case });
    }
}

/// Asserts that the results of a case are the expected ones.
fn check_answer(rt: &impl Abort, case: &Case<'_>, status: u8, output: &[u8], messages: &[u8]) {
    assert!(rt; output == case.output, "the output of {}", case.name);
    assert!(rt; messages == case.message, "the message of {}", case.name);
    assert_eq!(rt; status, case.status, "the status of {}", case.name);
}

/// LVM2 metadata loads without a disk list.
#[test]
fn a_group(rt: HostRuntime) {
    let mut source = input(GROUP.source.as_bytes(), PLENTY, None);
    let mut disks: Option<ShortIn<'_>> = None;
    let mut requests = input(GROUP.requests, PLENTY, None);
    let mut written = output(&rt, rt.alloc(), PLENTY, None, false);
    let mut messages = output(&rt, rt.alloc(), PLENTY, None, false);
    let status = map_whole(
        rt.alloc(),
        Format::Lvm,
        GROUP.flag,
        &mut source,
        &mut disks,
        &mut requests,
        &mut written,
        &mut messages,
    );
    check_answer(&rt, &GROUP, status, written.as_slice(), messages.as_slice());
}
