//! Tests how many searches and comparisons one request makes, and that `usage` doesn't change these counts.

use crate::fixtures::{stack_of, told_after};

/// A table, a disk list, a request, and the searches and comparisons expected for the request.
static ROWS: [(&str, &str, &str, (u64, u64)); 11] = [
    // A range with one path, however long, takes one search for each of its two levels.
    (
        "a: 0 1048576 linear sda 0\nb: 0 1048576 linear /dev/mapper/a 0\n",
        "sda 1048576\n",
        "R b 0 1048576",
        (2, 0),
    ),
    // In a table of three lines, the starts of all but the first are compared one by one.
    (
        "a: 0 1 zero\na: 1 1 zero\na: 2 1 zero\n",
        "",
        "R a 0 1",
        (1, 2),
    ),
    // In a table of four lines, the sector's line is one of two in its bucket. A request over all four lines
    // compares only for the first line, and a request past the end makes no search.
    (
        "a: 0 1 zero\na: 1 1 zero\na: 2 1 zero\na: 3 1 zero\n",
        "",
        "R a 2 1",
        (1, 1),
    ),
    (
        "a: 0 1 zero\na: 1 1 zero\na: 2 1 zero\na: 3 1 zero\n",
        "",
        "R a 0 4",
        (4, 1),
    ),
    (
        "a: 0 1 zero\na: 1 1 zero\na: 2 1 zero\na: 3 1 zero\n",
        "",
        "R a 2 4",
        (0, 0),
    ),
    // In a table of nine lines, the sector's line is one of eight in its bucket, found by three halvings.
    (
        "a: 0 1 zero\na: 1 1 zero\na: 2 1 zero\na: 3 1 zero\na: 4 1 zero\na: 5 1 zero\n\
            a: 6 1 zero\na: 7 993 zero\na: 1000 1 zero\n",
        "",
        "R a 5 1",
        (1, 3),
    ),
    // A striped line takes one search, and the line below takes one for each of four chunks.
    (
        "a: 0 8 zero\nb: 0 8 striped 2 2 /dev/mapper/a 0 /dev/mapper/a 4\n",
        "",
        "R b 0 8",
        (5, 0),
    ),
    // A snapshot of a disk is read and then written over its whole length.
    (
        "s: 0 16 snapshot base cow P 8\n",
        "base 16\ncow 32\n",
        "R s 0 16",
        (1, 0),
    ),
    (
        "s: 0 16 snapshot base cow P 8\n",
        "base 16\ncow 32\n",
        "W s 0 16",
        (1, 0),
    ),
    // A snapshot of a device has two chunks, which are read together, so the device's line is searched for once.
    (
        "o: 0 16 zero\ns: 0 16 snapshot /dev/mapper/o cow P 8\n",
        "cow 32\n",
        "R s 0 16",
        (2, 0),
    ),
    // The first sector of a write to an origin makes its snapshot lost, so all later sectors are one part.
    (
        "b: 0 4096 linear base 0\no: 0 4096 snapshot-origin /dev/mapper/b\n\
            s: 0 4096 snapshot /dev/mapper/b cow P 1\n",
        "base 4096\ncow 1\n",
        "W o 0 4096",
        (2, 0),
    ),
];

#[test]
fn searches_and_comparisons_of_a_request(rt: HostRuntime) {
    for &(table, disks, line, want) in &ROWS {
        let stack = stack_of(&rt, rt.alloc(), table, disks);
        let (_, counts) = told_after(&rt, rt.alloc(), &stack, line);
        assert_eq!(&rt; counts, want, "{line}");
    }
}
