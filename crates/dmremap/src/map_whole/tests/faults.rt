//! Streams with short reads, short writes and faults: sources, disk lists, requests, outputs and messages.
//!
//! Reads and writes are cut in every way, and a stream fails after each of its bytes in turn. The output before the
//! fault is a prefix of the output without the fault, and which fault is reported doesn't depend on how reads are cut.

use super::*;

const READ_MESSAGE: &[u8] = b"dmremap: requests: read\n";

const WRITE_MESSAGE: &[u8] = b"dmremap: output: write\n";

/// The most bytes that a call moves; a case runs once for each of these numbers.
static STEPS: [usize; 17] = [
    1, 2, 3, 4, 5, 6, 7, 8, 9, 10, 11, 12, 13, 14, 15, 16, PLENTY,
];

/// A complete line, and a last line without a newline.
const LINE_AND_REST: Case<'static> = Case {
    name: "a line and a rest",
    requests: b"R a 0 1\nR a 1 1",
    output: b"1 R sda 50 1\n",
    message: b"dmremap: request 2: unended\n",
    status: 3,
    ..VOLUME
};

/// A load that is refused.
const REFUSED: Case<'static> = Case {
    name: "a refused load",
    disks: "sda 149\n",
    output: b"",
    message: b"dmremap: source: range at 1\n",
    status: 1,
    ..VOLUME
};

/// A request that is answered, followed by a bad one.
const BAD_REQUEST: Case<'static> = Case {
    name: "a bad request",
    requests: b"R a 0 1\nR a 0 0\n",
    output: b"1 R sda 50 1\n",
    message: b"dmremap: request 2: length\n",
    status: 3,
    ..VOLUME
};

const NO_REQUESTS: Case<'static> = Case {
    name: "no requests",
    requests: b"",
    output: b"",
    ..VOLUME
};

/// A snapshot with one chunk written, for which status lines are asked.
const WRITTEN: Case<'static> = Case {
    name: "a snapshot that is written",
    source: "s: 0 32 snapshot base cow P 8\n",
    disks: "base 32\ncow 32\n",
    requests: b"W s 1 1\n",
    flag: true,
    output: b"1 copy base 0 8 cow 16\n1 W cow 17 1\ns: 0 32 snapshot 24/32 16\n",
    ..VOLUME
};

/// An output whose flushes fail.
const FAILING_FLUSH: Streams = Streams {
    flush_fails: true,
    ..STEADY
};

/// Cases with several faults, one of which is reported, and cases in which nothing is written to an output.
static ROWS: [Case<'static>; 12] = [
    VOLUME,
    LINE_AND_REST,
    WRITTEN,
    Case {
        name: "a flush that fails",
        message: WRITE_MESSAGE,
        status: 5,
        streams: FAILING_FLUSH,
        ..VOLUME
    },
    Case {
        name: "a flush that fails after no requests",
        message: WRITE_MESSAGE,
        status: 5,
        streams: FAILING_FLUSH,
        ..NO_REQUESTS
    },
    Case {
        name: "a flush that fails takes precedence over a bad line",
        requests: b"R a 0 1\nR b 0 1\n",
        message: WRITE_MESSAGE,
        status: 5,
        streams: FAILING_FLUSH,
        ..BAD_REQUEST
    },
    Case {
        name: "a flush that fails takes precedence over a read fault",
        requests: b"R a 0 1\n",
        message: WRITE_MESSAGE,
        status: 5,
        streams: Streams {
            requests: Some(8),
            ..FAILING_FLUSH
        },
        ..BAD_REQUEST
    },
    Case {
        name: "a bad line takes precedence over a read fault",
        requests: b"R a 0 1\nR a 0 0\nR a",
        streams: Streams {
            requests: Some(19),
            ..STEADY
        },
        ..BAD_REQUEST
    },
    // A run without output can't fail at a write, and a refused load doesn't flush the output.
    Case {
        streams: Streams {
            output: Some(0),
            ..STEADY
        },
        ..NO_REQUESTS
    },
    Case {
        streams: Streams {
            output: Some(0),
            ..FAILING_FLUSH
        },
        ..REFUSED
    },
    // Status lines: none after a read fault, but all of them if only the flush fails.
    Case {
        name: "a read fault before status lines",
        output: b"1 copy base 0 8 cow 16\n1 W cow 17 1\n",
        message: READ_MESSAGE,
        status: 4,
        streams: Streams {
            requests: Some(8),
            ..STEADY
        },
        ..WRITTEN
    },
    Case {
        name: "a flush that fails after status lines",
        message: WRITE_MESSAGE,
        status: 5,
        streams: FAILING_FLUSH,
        ..WRITTEN
    },
];

#[test]
fn the_cutting_of_streams_shows_nowhere(rt: HostRuntime) {
    for case in &ROWS {
        check_at(&rt, rt.alloc(), case, &STEPS);
    }
}

/// Which stream of a case fails.
#[derive(Clone, Copy)]
enum Failing {
    Source,
    Disks,
    Requests,
    Output,
    Messages,
}

/// The cases in which a stream fails after each of its bytes: both parts of a load, requests, answers, status lines
/// after answers, and the messages, for each way in which a run can end with one.
static FAILING: [(Case<'static>, Failing); 8] = [
    (VOLUME, Failing::Source),
    (VOLUME, Failing::Disks),
    (LINE_AND_REST, Failing::Requests),
    (VOLUME, Failing::Output),
    (
        Case {
            name: "status lines",
            source: "s: 0 8 snapshot base cow P 8\nt: 0 8 snapshot base cow P 16\n",
            disks: "base 8\ncow 24\n",
            requests: b"W t 0 1\n",
            flag: true,
            output: b"1 error 1\ns: 0 8 snapshot 16/24 16\nt: 0 8 snapshot Invalid\n",
            ..VOLUME
        },
        Failing::Output,
    ),
    (REFUSED, Failing::Messages),
    (BAD_REQUEST, Failing::Messages),
    (
        Case {
            name: "an output that fails too",
            output: b"1 R ",
            message: WRITE_MESSAGE,
            status: 5,
            streams: Streams {
                output: Some(4),
                ..STEADY
            },
            ..VOLUME
        },
        Failing::Messages,
    ),
];

/// How many bytes a case has in the stream that fails.
fn length_of(case: &Case<'_>, failing: Failing) -> usize {
    match failing {
        Failing::Source => case.source.len(),
        Failing::Disks => case.disks.len(),
        Failing::Requests => case.requests.len(),
        Failing::Output => case.output.len(),
        Failing::Messages => case.message.len(),
    }
}

/// The expected results of a case if this stream fails after `count` bytes; `count` is at most the stream's length.
fn failed<'a>(case: Case<'a>, failing: Failing, count: usize) -> Case<'a> {
    match failing {
        Failing::Source => Case {
            output: b"",
            message: b"dmremap: source: read\n",
            status: 1,
            streams: Streams {
                source: Some(count),
                ..STEADY
            },
            ..case
        },
        Failing::Disks => Case {
            output: b"",
            message: b"dmremap: disks: read\n",
            status: 1,
            streams: Streams {
                disks: Some(count),
                ..STEADY
            },
            ..case
        },
        Failing::Requests => Case {
            // A line is answered only if it was read to its end.
            output: if count < 8 { b"" } else { case.output },
            message: READ_MESSAGE,
            status: 4,
            streams: Streams {
                requests: Some(count),
                ..STEADY
            },
            ..case
        },
        Failing::Output => written_up_to(case, count),
        Failing::Messages => Case {
            message: case.message.get(..count).unwrap_or(case.message),
            streams: Streams {
                messages: Some(count),
                ..case.streams
            },
            ..case
        },
    }
}

/// The expected results of a case whose output has room for `count` bytes, and fails if the case writes more.
fn written_up_to<'a>(case: Case<'a>, count: usize) -> Case<'a> {
    let streams = Streams {
        output: Some(count),
        ..STEADY
    };
    if count < case.output.len() {
        Case {
            output: &case.output[..count],
            message: WRITE_MESSAGE,
            status: 5,
            streams,
            ..case
        }
    } else {
        Case { streams, ..case }
    }
}

#[test]
fn a_stream_fails_after_each_byte(rt: HostRuntime) {
    for (case, failing) in &FAILING {
        for count in 0..length_of(case, *failing).saturating_add(1) {
            let case = failed(*case, *failing, count);
            check_at(&rt, rt.alloc(), &case, &[1, PLENTY]);
        }
    }
}

/// A text of `count` letters, followed by `end`.
fn letters(alloc: Global, count: usize, end: &str) -> Result<String, AllocError> {
    let mut text = "a".repeat(alloc, count)?;
    text.push_str(end)?;
    Ok(text)
}

/// The number of bytes after which a stream of this text fails: all of them, or `None` if it doesn't fail.
fn end_of(text: &str, fails: bool) -> Option<usize> {
    if fails { Some(text.len()) } else { None }
}

/// How many letters the source has, and whether reading fails at its end; both for the disk list; then the message.
/// A single letter is a fault of syntax; 1,048,577 letters are too long.
static PARTS: [(usize, bool, usize, bool, &[u8]); 10] = [
    (1, false, 0, true, b"dmremap: disks: read\n"),
    (1, false, 1_048_577, false, b"dmremap: disks: long\n"),
    (1, false, 1_048_577, true, b"dmremap: disks: long\n"),
    (1, false, 1_048_576, true, b"dmremap: disks: read\n"),
    (
        1,
        false,
        1_048_576,
        false,
        b"dmremap: source: syntax at 1\n",
    ),
    (
        1_048_576,
        false,
        1,
        false,
        b"dmremap: source: syntax at 1\n",
    ),
    (1_048_576, true, 1_048_577, true, b"dmremap: source: read\n"),
    (1_048_577, true, 0, true, b"dmremap: source: long\n"),
    (1_048_577, false, 0, true, b"dmremap: source: long\n"),
    (0, true, 0, true, b"dmremap: source: read\n"),
];

/// Asserts the message for a source and a disk list; reading either may fail after its last byte.
fn check_parts<'a>(
    rt: &impl Abort,
    alloc: Global,
    source: &'a str,
    disks: &'a str,
    fails: (bool, bool),
    message: &'a [u8],
) {
    let streams = Streams {
        source: end_of(source, fails.0),
        disks: end_of(disks, fails.1),
        ..STEADY
    };
    let case = Case {
        name: "two parts",
        source,
        disks,
        message,
        streams,
        ..REFUSED
    };
    check(rt, alloc, &case);
}

#[test]
fn parts_are_read_before_any_text(rt: HostRuntime) {
    let alloc = rt.alloc();
    for &(source, source_fails, disks, disks_fail, message) in &PARTS {
        let source = letters(alloc, source, "").expect(&rt, "a source");
        let disks = letters(alloc, disks, "").expect(&rt, "a disk list");
        let fails = (source_fails, disks_fail);
        check_parts(&rt, alloc, source.as_str(), disks.as_str(), fails, message);
    }
}

/// A line of letters: how many letters, what ends the line, and whether reading fails after the line; then the expected
/// message and status.
static LONG_LINES: [(usize, &str, bool, &[u8], u8); 8] = [
    (4096, "\n", false, b"dmremap: request 1: form\n", 3),
    (4097, "\n", false, b"dmremap: request 1: long\n", 3),
    (4096, "", false, b"dmremap: request 1: unended\n", 3),
    (4097, "", false, b"dmremap: request 1: long\n", 3),
    (4096, "\n", true, b"dmremap: request 1: form\n", 3),
    (4097, "\n", true, b"dmremap: request 1: long\n", 3),
    (4096, "", true, READ_MESSAGE, 4),
    (4097, "", true, b"dmremap: request 1: long\n", 3),
];

/// Asserts the results for a line, after which reading may fail, with the line cut in several ways.
fn check_line<'a>(
    rt: &impl Abort,
    alloc: Global,
    line: &'a str,
    fails: bool,
    message: &'a [u8],
    status: u8,
) {
    let case = Case {
        name: "a long line",
        requests: line.as_bytes(),
        output: b"",
        message,
        status,
        streams: Streams {
            requests: end_of(line, fails),
            ..STEADY
        },
        ..VOLUME
    };
    check_at(rt, alloc, &case, &[1, 4096, 4097, 65536]);
}

#[test]
fn lines_of_the_greatest_length(rt: HostRuntime) {
    let alloc = rt.alloc();
    for &(count, end, fails, message, status) in &LONG_LINES {
        let line = letters(alloc, count, end).expect(&rt, "a line");
        check_line(&rt, alloc, line.as_str(), fails, message, status);
    }
}
