//! The texts of faults, as `Display` writes them.
//!
//! The texts are for callers of the libraries; the program's messages are worded differently.

use super::*;
use dm_map::MapFault;
use dm_replay::ReplayFault;
use dm_table::{CheckFault, InFault, LoadFault, LoadKind, OutFault, Part, Place, RequestFault};
use std::fmt::Display;

/// Asserts the text that `Display` writes for a fault.
fn check_text<T: Display>(rt: &impl Abort, alloc: Global, fault: &T, text: &str) {
    let written = format!(in alloc; "{fault}").expect(rt, "a text");
    assert_eq!(rt; written.as_str(), text);
}

/// A kind of load fault, its `Display` text, and the words in the message of a load that is refused with this fault.
static KINDS: [(LoadKind, &str, &str); 20] = [
    (LoadKind::Read, "read", "disks: read"),
    (LoadKind::Long, "long", "disks: long"),
    (LoadKind::NotText, "text", "disks: text at 7"),
    (LoadKind::Syntax, "syntax", "disks: syntax at 7"),
    (LoadKind::Field, "field", "disks: field at 7"),
    (LoadKind::Name, "name", "disks: name at 7"),
    (LoadKind::Twice, "twice", "disks: twice at 7"),
    (LoadKind::Empty, "empty", "disks: empty at 7"),
    (LoadKind::Gap, "gap", "disks: gap at 7"),
    (LoadKind::Overlap, "overlap", "disks: overlap at 7"),
    (LoadKind::Unknown, "unknown", "disks: unknown at 7"),
    (LoadKind::Cycle, "cycle", "disks: cycle at 7"),
    (LoadKind::Deep, "deep", "disks: deep at 7"),
    (LoadKind::Range, "range", "disks: range at 7"),
    (LoadKind::Stripe, "stripe", "disks: stripe at 7"),
    (LoadKind::Snapshot, "snapshot", "disks: snapshot at 7"),
    (LoadKind::Store, "store", "disks: store at 7"),
    (LoadKind::Extents, "extents", "disks: extents at 7"),
    (LoadKind::Limit, "limit", "disks: limit at 7"),
    (LoadKind::Memory, "memory", "memory"),
];

#[test]
fn kinds_of_loads(rt: HostRuntime) {
    let alloc = rt.alloc();
    for &(kind, text, words) in &KINDS {
        check_text(&rt, alloc, &kind, text);
        let at = Place {
            part: Part::Disks,
            number: 7,
        };
        let fault = LoadFault { kind, at };
        let message = message_of(&rt, alloc, words);
        assert!(&rt; fault.message().as_slice() == message.as_bytes(), "{kind}");
    }
}

static LOAD_FAULTS: [(LoadFault, &str); 2] = [
    (
        LoadFault {
            kind: LoadKind::Gap,
            at: Place {
                part: Part::Source,
                number: 7,
            },
        },
        "source: gap at 7",
    ),
    (
        LoadFault {
            kind: LoadKind::Gap,
            at: Place {
                part: Part::Disks,
                number: 1,
            },
        },
        "disks: gap at 1",
    ),
];

static REQUEST_FAULTS: [(RequestFault, &str); 3] = [
    (RequestFault::Form, "form"),
    (RequestFault::Number, "number"),
    (RequestFault::Length, "length"),
];

static CHECK_FAULTS: [(CheckFault, &str); 2] = [
    (CheckFault::Form, "the text is no name"),
    (CheckFault::Memory, "out of memory"),
];

static MAP_FAULTS: [(MapFault<OutFault>, &str); 2] = [
    (
        MapFault::Sink(OutFault),
        "the sink failed: the output failed",
    ),
    (MapFault::Stopped, "stopped by an earlier fault"),
];

static REPLAY_FAULTS: [(ReplayFault, &str); 4] = [
    (ReplayFault::Untidy, "untidy"),
    (ReplayFault::Memory, "memory"),
    (ReplayFault::NotTop, "not top"),
    (ReplayFault::Stopped, "stopped"),
];

#[test]
fn other_faults(rt: HostRuntime) {
    let alloc = rt.alloc();
    for (fault, text) in &LOAD_FAULTS {
        check_text(&rt, alloc, fault, text);
    }
    for (fault, text) in &REQUEST_FAULTS {
        check_text(&rt, alloc, fault, text);
    }
    for (fault, text) in &CHECK_FAULTS {
        check_text(&rt, alloc, fault, text);
    }
    for (fault, text) in &MAP_FAULTS {
        check_text(&rt, alloc, fault, text);
    }
    for (fault, text) in &REPLAY_FAULTS {
        check_text(&rt, alloc, fault, text);
    }
    check_text(&rt, alloc, &InFault, "the input failed");
    check_text(&rt, alloc, &OutFault, "the output failed");
}
