//! Tests how runs are counted and found, and that runs and tries return the same numbers as a plain list.

use super::*;
use crate::fixtures::offer;
use crate::state::plain_taken::PlainTaken;
use crate::state::trie_taken::TrieTaken;
use std::test::Fail;

/// An order in which chunks are taken. Fields: a name; how many are taken; how many form a row, the distance
/// within a row, the distance between rows, and the modulus; then the expected number of runs, the expected
/// comparisons of all look-ups in runs, and the expected bits tested by all look-ups in a trie with the smallest
/// power of two of slots.
type Takes = (&'static str, u64, (u64, u64, u64, u64), usize, u64, u64);

static TAKES: [Takes; 9] = [
    ("rising", 9_000, (1, 1, 1, 65_537), 1, 1_075, 0),
    ("falling", 16_385, (1, 1, 65_536, 65_537), 16_385, 15_856, 0),
    ("every second", 3_000, (1, 1, 2, 65_537), 3_000, 11_892, 251),
    ("random", 3_000, (1, 1, 40_503, 65_537), 3_000, 12_515, 208),
    (
        "random rows",
        4_000,
        (4, 1, 40_503, 65_537),
        1_000,
        10_722,
        365,
    ),
    (
        "one slot",
        2_000,
        (1, 1, 4_096, 1 << 50),
        2_000,
        11_303,
        295,
    ),
    (
        "one bit apart",
        3_000,
        (2, 1 << 40, 3, 1 << 50),
        3_000,
        11_865,
        374,
    ),
    (
        "spread over 2^50",
        4_096,
        (1, 1, 1 << 38, 1 << 50),
        4_096,
        13_438,
        5_390,
    ),
    (
        "wrapped",
        3_000,
        (1, 1, 11_400_714_819_323_198_485, u64::MAX),
        3_000,
        12_709,
        254,
    ),
];

/// The chunk that this order takes under this number.
fn chunk_of(takes: &Takes, number: u64) -> u64 {
    let (in_row, apart, step, modulus) = takes.2;
    let row = number.checked_div(in_row).unwrap_or(0);
    let within = number.checked_rem(in_row).unwrap_or(0);
    let from = row.wrapping_mul(step);
    from.wrapping_add(within.wrapping_mul(apart))
        .checked_rem(modulus)
        .unwrap_or(0)
}

#[test]
fn chunks_are_found_by_their_runs(rt: HostRuntime) {
    let mut taken = RunTaken::with_places(rt.alloc(), 6).expect(&rt, "runs");
    for chunk in [5, 6, 7, 2, 8, 3] {
        offer(&mut taken, chunk);
    }
    for (chunk, want, compared) in [
        (5, Some(0), 2),
        (6, Some(1), 2),
        (7, Some(2), 2),
        (2, Some(3), 3),
        (8, Some(4), 2),
        (3, Some(5), 2),
        (4, None, 2),
    ] {
        let mut comparisons = 0;
        assert_eq!(&rt;
            taken.find_counted(chunk, &mut comparisons),
            want,
            "{chunk}"
        );
        assert_eq!(&rt; comparisons, compared, "{chunk}");
    }
    assert_eq!(&rt; taken.runs(), 4, "runs");
    assert!(&rt; taken.is_full() && taken.is_valid(), "full and valid");
    taken.invalidate();
    assert!(&rt; !taken.is_valid(), "lost");
}

/// A chunk to look up: any chunk if `part` is even, else one that the order takes now or would take later.
fn looked_for(takes: &Takes, part: u64) -> u64 {
    if part.is_multiple_of(2) {
        part.wrapping_mul(61)
    } else {
        chunk_of(takes, part.wrapping_mul(61))
    }
}

#[test]
fn runs_and_tries_answer_as_a_plain_list(rt: HostRuntime) {
    for takes in &TAKES {
        let (name, count, _, row_count, compared, tested) = *takes;
        let places = count as usize;
        let mut runs = RunTaken::with_places(rt.alloc(), places).expect(&rt, "runs");
        let mut trie = TrieTaken::with_places(rt.alloc(), places).expect(&rt, "a trie");
        let mut plain = PlainTaken::with_places(rt.alloc(), places).expect(&rt, "a list");
        for number in 0..count {
            let chunk = chunk_of(takes, number);
            offer(&mut runs, chunk);
            offer(&mut trie, chunk);
            offer(&mut plain, chunk);
        }
        let (mut comparisons, mut single, mut bits) = (0, 0, 0);
        for part in 0..1_075 {
            let chunk = looked_for(takes, part);
            let number = plain.find(chunk);
            let by_runs = runs.find_counted(chunk, &mut comparisons);
            let by_trie = trie.find_counted(chunk, &mut single, &mut bits);
            assert_eq!(&rt; by_runs, number, "{name}: {chunk}");
            assert_eq!(&rt; by_trie, number, "{name}: {chunk}");
            assert_eq!(&rt; runs.find(chunk), number, "{name}: {chunk}");
        }
        assert_eq!(&rt; comparisons, compared, "{name}");
        assert_eq!(&rt; bits, tested, "{name}");
        assert_eq!(&rt; runs.runs(), row_count, "{name}");
        assert_eq!(&rt;
            (runs.count(), trie.count()),
            (plain.count(), plain.count()),
            "{name}"
        );
    }
}
