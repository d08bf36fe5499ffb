//! What replays answer, compared with expected lines, and why they refuse to.
//!
//! `tests/outside` tests many more cases on the built program. The expected answers were worked out sector by sector,
//! with a plain program that follows the rules.

ghost use Rattle.dm_replay.specs.Prelude.{start_state};
ghost use Rattle.std.specs.Prelude.{◌≡◌};

use super::*;
use crate::run_text::write_runs;
use dm_map::PlainTaken;
use dm_table::{Op, ShortOut, parse_concise, parse_disks, parse_request, parse_table};
use std::fs;
use std::process::Abort;
use stops::STOPS;

mod stops;

/// A table, disks, requests, and the lines of the answers.
static ROWS: [(&str, &str, &[&str], &str); 3] = [
    // Two snapshots of one origin: neither sees the other's writes.
    (
        "s: 0 16 snapshot base c1 P 4\nt: 0 16 snapshot base c2 P 8\n",
        "base 16\nc1 64\nc2 64\n",
        &[
            "W s 0 2", "W t 1 2", "R s 0 8", "R t 0 8", "W s 1 8", "R s 0 16", "R t 0 16",
        ],
        "1 wrote 1 0 2\n2 wrote 2 1 2\n3 wrote 1 0 2\n3 old base 2 6\n4 old base 0 1\n4 wrote 2 1 2\n4 old base 3 5\n5 wrote 5 1 8\n6 wrote 1 0 1\n6 wrote 5 1 8\n6 old base 9 7\n7 old base 0 1\n7 wrote 2 1 2\n7 old base 3 13\n",
    ),
    // A snapshot that becomes invalid answers errors, even for sectors that it answered before.
    (
        "s: 0 32 snapshot base cow P 8\n",
        "base 32\ncow 32\n",
        &["W s 4 8", "R s 0 16", "W s 16 1", "R s 0 16"],
        "1 wrote 1 4 8\n2 old base 0 4\n2 wrote 1 4 8\n2 old base 12 4\n3 error 1\n4 error 16\n",
    ),
    // Writes that overlap earlier writes of the same device.
    (
        "a: 0 16 linear sda 0\n",
        "sda 16\n",
        &["W a 0 8", "W a 4 8", "R a 0 16", "W a 2 1", "R a 0 5"],
        "1 wrote 1 0 8\n2 wrote 2 4 8\n3 wrote 1 0 4\n3 wrote 2 4 8\n3 old sda 12 4\n4 wrote 4 2 1\n5 wrote 1 0 2\n5 wrote 4 2 1\n5 wrote 1 3 1\n5 wrote 2 4 1\n",
    ),
];

/// A table and disks: the snapshot's last chunk is cut short by the device's end.
const SHORT: (&str, &str) = ("s: 0 20 snapshot base cow P 8\n", "base 20\ncow 64\n");

/// A table and disks: two snapshots of one origin.
const TWO: (&str, &str) = (
    "s: 0 16 snapshot base c1 P 4\nt: 0 16 snapshot base c2 P 8\n",
    "base 16\nc1 64\nc2 64\n",
);

/// A table and disks; requests, each preceded by the number of units after which it is halted, or by a hyphen; and the
/// lines of the answers to the requests that aren't halted.
static HALTS: [((&str, &str), &str, &str); 22] = [
    // A write of two sectors has six units: four copies, because the device ends inside the chunk, and two writes.
    (SHORT, "0 W s 18 2\n- R s 16 4\n", "2 old base 16 4\n"),
    (SHORT, "1 W s 18 2\n- R s 16 4\n", "2 old base 16 4\n"),
    (SHORT, "2 W s 18 2\n- R s 16 4\n", "2 old base 16 4\n"),
    (SHORT, "3 W s 18 2\n- R s 16 4\n", "2 old base 16 4\n"),
    (SHORT, "4 W s 18 2\n- R s 16 4\n", "2 old base 16 4\n"),
    (
        SHORT,
        "5 W s 18 2\n- R s 16 4\n",
        "2 old base 16 2\n2 wrote 1 18 1\n2 old base 19 1\n",
    ),
    (
        SHORT,
        "6 W s 18 2\n- R s 16 4\n",
        "2 old base 16 2\n2 wrote 1 18 2\n",
    ),
    // A write that is to be halted after more units than it has.
    (
        SHORT,
        "7 W s 18 2\n- R s 16 4\n",
        "2 old base 16 2\n2 wrote 1 18 2\n",
    ),
    (
        SHORT,
        "18446744073709551615 W s 18 2\n- R s 16 4\n",
        "2 old base 16 2\n2 wrote 1 18 2\n",
    ),
    // A halt leaves a chunk of the store torn; the next write takes that chunk.
    (
        SHORT,
        "3 W s 18 2\n- W s 8 1\n- R s 8 12\n",
        "2 wrote 2 8 1\n3 wrote 2 8 1\n3 old base 9 11\n",
    ),
    // A halted write is issued again.
    (
        SHORT,
        "3 W s 18 2\n- W s 18 2\n- R s 16 4\n",
        "2 wrote 2 18 2\n3 old base 16 2\n3 wrote 2 18 2\n",
    ),
    // Reads that are halted.
    (
        SHORT,
        "- W s 18 1\n2 R s 16 4\n9 R s 16 4\n- R s 16 4\n",
        "1 wrote 1 18 1\n4 old base 16 2\n4 wrote 1 18 1\n4 old base 19 1\n",
    ),
    // Requests that pass the device's end take no chunk, wherever they are halted.
    (
        SHORT,
        "1 W s 18 3\n3 W s 18 3\n1 W s 20 1\n- R s 16 4\n- W s 8 1\n",
        "4 old base 16 4\n5 wrote 5 8 1\n",
    ),
    // Copies from zeros, and then a store with no free chunk: the halt comes before the error.
    (
        (
            "o: 0 8 zero\ns: 0 8 snapshot /dev/mapper/o cow P 4\n",
            "cow 12\n",
        ),
        "3 W s 1 2\n- R s 0 8\n7 W s 1 6\n- R s 0 8\n0 W s 4 1\n- R s 0 8\n1 W s 4 1\n- R s 0 8\n",
        "2 zero 8\n4 zero 1\n4 wrote 3 1 3\n4 zero 4\n6 zero 1\n6 wrote 3 1 3\n6 zero 4\n8 error 8\n",
    ),
    // A transient store: a halt leaves its first chunk torn, and the next write takes that chunk.
    (
        ("s: 0 8 snapshot base cow N 4\n", "base 8\ncow 8\n"),
        "3 W s 5 1\n- W s 1 1\n- W s 5 1\n- R s 0 8\n",
        "2 wrote 2 1 1\n3 wrote 3 5 1\n4 old base 0 1\n4 wrote 2 1 1\n4 old base 2 3\n4 wrote 3 5 1\n4 old base 6 2\n",
    ),
    // A keeping store (kind K) with no free chunk: nothing changes, whether or not the error is played.
    (
        ("s: 0 8 snapshot base cow K 4\n", "base 8\ncow 12\n"),
        "3 W s 1 2\n- R s 0 8\n- W s 1 2\n0 W s 4 1\n1 W s 4 1\n- R s 0 8\n- W s 3 2\n- R s 0 8\n",
        "2 old base 0 8\n3 wrote 3 1 2\n6 old base 0 1\n6 wrote 3 1 2\n6 old base 3 5\n7 wrote 7 3 1\n7 error 1\n8 old base 0 1\n8 wrote 3 1 2\n8 wrote 7 3 1\n8 old base 4 4\n",
    ),
    // A write to the origin makes a keeping snapshot lost, unless the write is halted before that.
    (
        (
            "o: 0 8 snapshot-origin base\ns: 0 8 snapshot base cow K 4\n",
            "base 8\ncow 12\n",
        ),
        "- W s 0 1\n0 W o 4 1\n- R s 0 8\n1 W o 4 1\n- R s 0 8\n- R o 0 8\n",
        "1 wrote 1 0 1\n3 wrote 1 0 1\n3 old base 1 7\n5 error 8\n6 old base 0 4\n6 wrote 4 4 1\n6 old base 5 3\n",
    ),
    // Two snapshots of one origin, halted in turn, with requests after each halt.
    (
        TWO,
        "6 W s 2 4\n- R t 0 4\n9 W t 1 2\n- R t 0 4\n- R s 0 8\n",
        "2 old base 0 4\n4 old base 0 1\n4 wrote 3 1 1\n4 old base 2 2\n5 old base 0 2\n5 wrote 1 2 2\n5 old base 4 4\n",
    ),
    (
        TWO,
        "8 W t 7 2\n- W t 8 1\n20 W s 0 9\n- R s 0 12\n- R t 4 8\n",
        "2 wrote 2 8 1\n4 wrote 3 0 8\n4 old base 8 4\n5 old base 4 4\n5 wrote 2 8 1\n5 old base 9 3\n",
    ),
    // A snapshot of a snapshot: each goes on from its own chunks.
    (
        (
            "s: 0 8 snapshot base c1 P 4\nt: 0 8 snapshot /dev/mapper/s c2 P 2\n",
            "base 8\nc1 64\nc2 64\n",
        ),
        "4 W t 1 4\n- R t 0 8\n11 W t 0 8\n- R t 0 8\n",
        "2 old base 0 1\n2 wrote 1 1 1\n2 old base 2 6\n4 wrote 3 0 6\n4 old base 6 2\n",
    ),
    // Stripes, zeros and errors, with a halt.
    (
        ("a: 0 8 striped 2 2 sda 0 sdb 0\n", "sda 4\nsdb 4\n"),
        "2 W a 1 4\n- R a 0 8\n",
        "2 old sda 0 1\n2 wrote 1 1 2\n2 old sdb 1 1\n2 old sda 2 2\n2 old sdb 2 2\n",
    ),
    (
        (
            "a: 0 2 zero\na: 2 2 error\na: 4 2 linear sda 0\n",
            "sda 2\n",
        ),
        "5 W a 0 6\n- R a 0 6\n",
        "2 zero 2\n2 error 2\n2 wrote 1 4 1\n2 old sda 1 1\n",
    ),
];

/// A table, disks, a request, and why a replay doesn't answer the request.
static REFUSED: [(&str, &str, &str, ReplayFault); 4] = [
    (
        "a: 0 8 linear sda 0\nb: 0 8 linear sda 4\n",
        "sda 16\n",
        "R a 0 1",
        ReplayFault::Untidy,
    ),
    (
        "s: 0 8 snapshot base base P 1\n",
        "base 8\n",
        "R s 0 1",
        ReplayFault::Untidy,
    ),
    (
        "o: 0 8 zero\ns: 0 8 snapshot /dev/mapper/o cow P 8\n",
        "cow 32\n",
        "R o 0 1",
        ReplayFault::NotTop,
    ),
    ("a: 0 8 zero\n", "", "R b 0 1", ReplayFault::NotTop),
];

/// A table, disks, a request that is halted after two units, and why `halt` fails.
static NOT_HALTED: [(&str, &str, &str, ReplayFault); 2] = [
    (
        "o: 0 8 zero\ns: 0 8 snapshot /dev/mapper/o cow P 8\n",
        "cow 32\n",
        "W o 0 1",
        ReplayFault::NotTop,
    ),
    ("a: 0 8 zero\n", "", "R b 0 1", ReplayFault::NotTop),
];

/// The stack with these devices and disks.
fn stack_of(rt: &impl Abort, alloc: Global, table: &str, disks: &str) -> Stack {
    let devices = parse_table(alloc, table.as_bytes()).expect(rt, "devices");
    let disks = parse_disks(alloc, disks.as_bytes()).expect(rt, "disks");
    Stack::load(alloc, devices, disks).expect(rt, "a stack")
}

/// The lines of a new replay's answers to these requests.
fn lines_of(rt: &impl Abort, alloc: Global, stack: &Stack, requests: &[&str]) -> ShortOut {
    let mut replay: Replay<'_, PlainTaken> = Replay::new(alloc, stack).expect(rt, "a replay");
    let mut output = ShortOut::new(alloc, 1, 4096).expect(rt, "an output");
    for (index, line) in requests.iter().enumerate() {
        replay = replay_after(
            rt,
            alloc,
            stack,
            replay,
            index as u64 + 1,
            line,
            None,
            &mut output,
        );
    }
    output
}

/// The lines of a new replay's answers to these requests, each preceded by the number of units after which it is
/// halted, or by a hyphen.
fn lines_with_stops(rt: &impl Abort, alloc: Global, stack: &Stack, steps: &str) -> ShortOut {
    let mut replay: Replay<'_, PlainTaken> = Replay::new(alloc, stack).expect(rt, "a replay");
    let mut output = ShortOut::new(alloc, 1, 4096).expect(rt, "an output");
    let mut number = 0_u64;
    for step in steps.lines() {
        let (stop, line) = step.split_once(' ').expect(rt, "a step");
        let stop = stop.parse::<u64>().ok();
        number = number.checked_add(1).expect(rt, "a number");
        replay = replay_after(rt, alloc, stack, replay, number, line, stop, &mut output);
    }
    output
}

/// Plays a request, and returns the replay. Writes the answer to `output`, unless the request is halted.
fn replay_after<'s>(
    rt: &impl Abort,
    alloc: Global,
    stack: &'s Stack,
    mut replay: Replay<'s, PlainTaken>,
    number: u64,
    line: &str,
    stop: Option<u64>,
    output: &mut ShortOut,
) -> Replay<'s, PlainTaken>
    requires stack { replay.stack ≡ stack.now }
    requires fresh { replay.start ≡ start_state stack.now }
    ensures stack { result.stack ≡ stack.now }
    ensures fresh { result.start ≡ start_state stack.now }
{
    let request = parse_request(line.as_bytes(), number).expect(rt, "a request");
    let Some(units) = stop else {
        let runs = replay.request(alloc, &request).expect(rt, "answers");
        write_runs(stack, number, &runs, output).expect(rt, "lines");
        return replay;
    };
    replay.halt(alloc, &request, units).expect(rt, "a replay")
}

#[test]
fn answers_of_requests(rt: HostRuntime) {
    let alloc = rt.alloc();
    for &(table, disks, requests, want) in &ROWS {
        let stack = stack_of(&rt, alloc, table, disks);
        let output = lines_of(&rt, alloc, &stack, requests);
        assert_eq!(&rt; output.as_slice(), want.as_bytes(), "{table}");
    }
}

#[test]
fn answers_after_stops(rt: HostRuntime) {
    let alloc = rt.alloc();
    for &((table, disks), requests, want) in &HALTS {
        let stack = stack_of(&rt, alloc, table, disks);
        let output = lines_with_stops(&rt, alloc, &stack, requests);
        assert_eq!(&rt; output.as_slice(), want.as_bytes(), "{table}");
    }
}

#[test]
fn answers_after_stops_of_stacks(rt: HostRuntime) {
    for row in STOPS.split('#') {
        answers_as_written(&rt, rt.alloc(), row);
    }
}

/// Tests cases from a file in the test's folder, if there is one: `tests/outside/program/halts.py` writes it.
#[test]
fn answers_after_stops_of_a_file(rt: HostRuntime) {
    let Ok(rows) = fs::read_to_string(&rt, "stops") else {
        return;
    };
    for row in rows.as_str().split('#') {
        answers_as_written(&rt, rt.alloc(), row);
    }
}

/// Tests one case: a title, devices, disks, requests, and the lines of the answers.
fn answers_as_written(rt: &impl Abort, alloc: Global, row: &str) {
    let (_, rest) = row.split_once('|').expect(rt, "what it shows");
    let (source, rest) = rest.split_once('|').expect(rt, "devices");
    let (disks, rest) = rest.split_once('|').expect(rt, "disks");
    let (requests, want) = rest.split_once('|').expect(rt, "requests");
    let devices = parse_concise(alloc, source.as_bytes()).expect(rt, source);
    let disks = parse_disks(alloc, disks.as_bytes()).expect(rt, disks);
    let stack = Stack::load(alloc, devices, disks).expect(rt, source);
    let output = lines_with_stops(rt, alloc, &stack, requests);
    assert_eq!(rt; output.as_slice(), want.as_bytes(), "{row}");
}

#[test]
fn what_is_not_answered(rt: HostRuntime) {
    let alloc = rt.alloc();
    for &(table, disks, line, want) in &REFUSED {
        let stack = stack_of(&rt, alloc, table, disks);
        let request = parse_request(line.as_bytes(), 1).expect(&rt, "a request");
        assert_eq!(&rt; fault_of(alloc, &stack, &request), Some(want), "{table}");
    }
}

#[test]
fn what_is_not_halted(rt: HostRuntime) {
    let alloc = rt.alloc();
    for &(table, disks, line, want) in &NOT_HALTED {
        let stack = stack_of(&rt, alloc, table, disks);
        let replay: Replay<'_, PlainTaken> = Replay::new(alloc, &stack).expect(&rt, "a replay");
        let request = parse_request(line.as_bytes(), 1).expect(&rt, "a request");
        assert_eq!(&rt;
            replay.halt(alloc, &request, 2).err(),
            Some(want),
            "{table}"
        );
        // A replay that has failed reports that, rather than the missing top device.
        let mut spent: Replay<'_, PlainTaken> = Replay::new(alloc, &stack).expect(&rt, "a replay");
        spent.failed = true;
        let fault = spent.halt(alloc, &request, 2).err();
        assert_eq!(&rt; fault, Some(ReplayFault::Stopped), "{table}");
    }
}

/// Any growth of memory may be refused here (`rt try --test --fail-alloc N` refuses the Nth). The test then accepts
/// only the fault `Memory`.
#[test]
fn growths_may_be_refused(rt: HostRuntime) {
    let alloc = rt.alloc();
    let Ok(devices) = parse_table(alloc, SHORT.0.as_bytes()) else {
        return;
    };
    let Ok(disks) = parse_disks(alloc, SHORT.1.as_bytes()) else {
        return;
    };
    let Ok(stack) = Stack::load(alloc, devices, disks) else {
        return;
    };
    let want = [wrote(2, 8), wrote(1, 10)];
    match answered_after_stops(alloc, &stack) {
        Ok(runs) => assert_eq!(&rt; runs.as_slice(), want.as_slice()),
        Err(fault) => assert_eq!(&rt; fault, ReplayFault::Memory),
    }
}

/// The answer of a read after two halted writes.
fn answered_after_stops(alloc: Global, stack: &Stack) -> Result<Vec<ValueRun>, ReplayFault> {
    let mut replay: Replay<'_, PlainTaken> = Replay::new(alloc, stack)?;
    replay = replay.halt(alloc, &request_of_four(1, Op::Write), 13)?;
    replay = replay.halt(alloc, &request_of_four(2, Op::Write), 2)?;
    replay.request(alloc, &request_of_four(3, Op::Read))
}

/// The run of two sectors from `start` on that a request wrote.
fn wrote(request: u64, start: u64) -> ValueRun {
    let len = 2;
    ValueRun::Wrote {
        request,
        start,
        len,
    }
}

/// A request for the first four sectors of the snapshot's second chunk.
fn request_of_four(number: u64, op: Op) -> Request<'static> {
    Request {
        number,
        op,
        device: "s",
        start: 8,
        len: 4,
    }
}

/// Why a new replay doesn't answer a request; None if it does.
fn fault_of(alloc: Global, stack: &Stack, request: &Request<'_>) -> Option<ReplayFault> {
    let mut replay: Replay<'_, PlainTaken> = match Replay::new(alloc, stack) {
        Ok(replay) => replay,
        Err(fault) => return Some(fault),
    };
    replay.request(alloc, request).err()
}
