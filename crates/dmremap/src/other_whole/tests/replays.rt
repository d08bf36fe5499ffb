//! The command `replay` over inputs and outputs in memory with short reads, short writes and faults.
//!
//! The answers to requests, also with exception stores, are tested on the built program (`tests/outside`).

use super::*;

/// How the output of a case fails: after this many bytes, or at a flush.
#[derive(Clone, Copy)]
struct Failing {
    after: usize,
    flush: bool,
}

/// An output that never fails.
const NEVER: Failing = Failing {
    after: PLENTY,
    flush: false,
};

/// An output whose flushes fail.
const FAILING_FLUSH: Failing = Failing {
    after: PLENTY,
    flush: true,
};

/// Tables, disks and requests, and the number of bytes after which reading the requests fails, if it fails.
type Given<'a> = (&'a str, &'a str, &'a str, Option<usize>);

/// Replays requests over streams that move a few bytes a call, and asserts what is written and reported.
fn check(
    rt: &impl Abort,
    alloc: Global,
    (tables, disks, requests, fails_after): Given<'_>,
    failing: Failing,
    (output, message, status): (&[u8], &[u8], u8),
) {
    let mut written = if failing.flush {
        ShortOut::failing_flush(alloc, 7, failing.after).expect(rt, "an output")
    } else {
        ShortOut::new(alloc, 7, failing.after).expect(rt, "an output")
    };
    let mut messages = ShortOut::new(alloc, 3, PLENTY).expect(rt, "a message stream");
    let bytes = requests.as_bytes();
    let mut requests = match fails_after {
        Some(count) => ShortIn::failing(bytes, 3, count.min(bytes.len())),
        None => ShortIn::new(bytes, 3),
    };
    let format = Format::Tables(TableForm::Table);
    let source = Source::Files {
        format,
        file: "",
        disks: None,
    };
    let got = other_whole(
        alloc,
        &Job::Replay {
            source,
            paths: None,
        },
        &mut parts_of(format, tables, disks),
        &mut requests,
        &mut written,
        &mut messages,
    );
    assert_eq!(rt; written.as_slice(), output, "the output of {tables}");
    assert_eq!(rt; messages.as_slice(), message, "the message of {tables}");
    assert_eq!(rt; got, status, "the status of {tables}");
}

const SNAPSHOT: &str = "s: 0 20 snapshot base cow P 8\n";

const SNAPSHOT_DISKS: &str = "base 20\ncow 64\n";

/// The inputs of a replay, and its expected output, message and status.
static REPLAYS: [(Given<'static>, &str, &str, u8); 5] = [
    (
        (
            SNAPSHOT,
            SNAPSHOT_DISKS,
            "R s 18 2\nW s 18 1\nR s 16 4\n",
            None,
        ),
        "1 old base 18 2\n2 wrote 2 18 1\n3 old base 16 2\n3 wrote 2 18 1\n3 old base 19 1\n",
        "",
        0,
    ),
    (
        (SNAPSHOT, SNAPSHOT_DISKS, "R s 0 1\nR s 0", Some(12)),
        "1 old base 0 1\n",
        "dmremap: requests: read\n",
        4,
    ),
    (
        (
            "o: 0 8 zero\ns: 0 8 snapshot /dev/mapper/o cow P 8\n",
            "cow 32\n",
            "W s 0 8\nR s 0 1\nR t 0 1\n",
            None,
        ),
        "1 wrote 1 0 8\n2 wrote 1 0 1\n",
        "dmremap: request 3: not top\n",
        3,
    ),
    // Two claims that clash, and then a load that is refused: nothing is written.
    (
        (
            "a: 0 8 linear sda 0\nb: 0 8 linear sda 4\n",
            "sda 16\n",
            "R a 0 1\n",
            None,
        ),
        "",
        "dmremap: replay: untidy\n",
        1,
    ),
    (
        (
            "a: 0 8 linear sda 0\nb: 0 8 linear sda 4\n",
            "sda 8\n",
            "x",
            None,
        ),
        "",
        "dmremap: source: range at 2\n",
        1,
    ),
];

#[test]
fn the_output_fails_after_each_byte(rt: HostRuntime) {
    let alloc = rt.alloc();
    for &(given, output, message, status) in &REPLAYS {
        let (output, message) = (output.as_bytes(), message.as_bytes());
        check(&rt, alloc, given, NEVER, (output, message, status));
        for after in 0..output.len() {
            let failing = Failing {
                after,
                flush: false,
            };
            check(
                &rt,
                alloc,
                given,
                failing,
                (&output[..after], WRITE_MESSAGE, 5),
            );
        }
        // A refused load doesn't flush the output.
        let (message, status) = if status == 1 {
            (message, 1)
        } else {
            (WRITE_MESSAGE, 5)
        };
        check(&rt, alloc, given, FAILING_FLUSH, (output, message, status));
    }
}
