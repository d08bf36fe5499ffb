//! Expected device names. The tests make each public call with enough memory, except `spaced_parts`, which the tests of
//! `dmremap` call through the command `splitname`. More names are tested on the built program (`tests/outside`).

use crate::{NameFault, build_name, split_name, undouble};

const PART_OF_63: &str = "abcdefghijklmnopqrstuvwxyzabcdefghijklmnopqrstuvwxyz01234567890";

const PART_OF_64: &str = "abcdefghijklmnopqrstuvwxyzabcdefghijklmnopqrstuvwxyz012345678901";

const NAME_OF_127: &str =
    "abcdefghijklmnopqrstuvwxyzabcdefghijklmnopqrstuvwxyz01234567890-abcdefghijklmnop\
    qrstuvwxyzabcdefghijklmnopqrstuvwxyz01234567890";

/// A group, a volume and a layer, and the name that is built from them, or the fault.
static BUILT: [(&str, &str, Option<&str>, Result<&str, NameFault>); 14] = [
    ("a-", "b", None, Ok("a---b")),
    ("vg0", "lv-1", None, Ok("vg0-lv--1")),
    ("vg", "lv", Some("real"), Ok("vg-lv-real")),
    ("A.b+c_d", "9--", Some("x-"), Ok("A.b+c_d-9-----x--")),
    ("a", "-b", None, Err(NameFault::HyphenFirst)),
    ("a", "", None, Err(NameFault::Empty)),
    ("a/b", "-b", None, Err(NameFault::Letter)),
    ("", "b/", None, Err(NameFault::Empty)),
    ("a", "b", Some("_tdata"), Err(NameFault::Letter)),
    ("a", "_b", None, Ok("a-_b")),
    ("a", "é", None, Err(NameFault::Letter)),
    (PART_OF_63, PART_OF_63, None, Ok(NAME_OF_127)),
    (PART_OF_64, PART_OF_63, None, Err(NameFault::Long)),
    (PART_OF_64, "-", None, Err(NameFault::HyphenFirst)),
];

#[test]
fn built(rt: HostRuntime) {
    for &(vg, lv, layer, wanted) in &BUILT {
        match build_name(rt.alloc(), vg, lv, layer) {
            Ok(name) => assert!(&rt; wanted == Ok(name.as_str()), "{vg} {lv}"),
            Err(fault) => assert!(&rt; wanted == Err(fault), "{vg} {lv}"),
        }
    }
}

/// A slice of a name, and the part that it stands for.
static UNDOUBLED: [(&str, &str); 5] = [
    ("", ""),
    ("a--", "a-"),
    ("a---b", "a--b"),
    ("----", "--"),
    ("é--", "é-"),
];

#[test]
fn undoubled(rt: HostRuntime) {
    for &(text, wanted) in &UNDOUBLED {
        let part = undouble(rt.alloc(), text).expect(&rt, wanted);
        assert!(&rt; part.as_str() == wanted, "{text}");
    }
}

/// A name and its slices: group, volume and layer, with hyphens still doubled.
static SLICES: [(&str, &str, &str, Option<&str>); 2] = [
    ("a---b", "a--", "b", None),
    ("a-b--c-d", "a", "b--c", Some("d")),
];

#[test]
fn slices(rt: HostRuntime) {
    for &(name, vg, lv, layer) in &SLICES {
        let slices = split_name(name).expect(&rt, name);
        assert!(&rt;
            slices.vg == vg && slices.lv == lv && slices.layer == layer,
            "{name}"
        );
    }
}

/// A fault, its text, and the program's message for it.
static MESSAGES: [(NameFault, &str, &[u8]); 5] = [
    (
        NameFault::Letter,
        "a letter that no part of a name has",
        b"dmremap: name: letter\n",
    ),
    (
        NameFault::HyphenFirst,
        "a part begins with a hyphen",
        b"dmremap: name: hyphen\n",
    ),
    (NameFault::Empty, "an empty part", b"dmremap: name: empty\n"),
    (
        NameFault::Long,
        "more than 127 bytes",
        b"dmremap: name: long\n",
    ),
    (NameFault::Memory, "out of memory", b"dmremap: memory\n"),
];

#[test]
fn messages(rt: HostRuntime) {
    for &(fault, wanted, message) in &MESSAGES {
        let text = fault.to_string(rt.alloc()).expect(&rt, wanted);
        assert!(&rt; text.as_str() == wanted, "{wanted}");
        assert!(&rt; fault.message() == message, "{wanted}");
    }
}
