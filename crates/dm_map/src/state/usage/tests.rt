//! Tests a store's usage after one request against the formula in the kernel's document.

use super::*;
use crate::fixtures::{stack_of, told_after};

/// A table with one snapshot, a disk list, a request to the snapshot, and the expected usage after it.
static ROWS: [(&str, &str, &str, Usage); 6] = [
    (
        "s: 0 64 snapshot base cow P 1\n",
        "base 64\ncow 64\n",
        "R s 0 64",
        Usage {
            allocated: 2,
            total: 64,
            metadata: 2,
            valid: true,
        },
    ),
    // With 33 chunks taken, the place of the next chunk is after the second metadata area.
    (
        "s: 0 64 snapshot base cow P 1\n",
        "base 64\ncow 64\n",
        "W s 0 33",
        Usage {
            allocated: 36,
            total: 64,
            metadata: 3,
            valid: true,
        },
    ),
    // With 32 chunks taken, the place of the next chunk is past the end of the store.
    (
        "s: 0 64 snapshot base cow P 1\n",
        "base 64\ncow 34\n",
        "W s 0 32",
        Usage {
            allocated: 35,
            total: 34,
            metadata: 3,
            valid: true,
        },
    ),
    // Two snapshots become lost: the store of one fills up, and the origin of the other can't be read.
    (
        "s: 0 32 snapshot base cow P 8\n",
        "base 32\ncow 32\n",
        "W s 0 24",
        Usage {
            allocated: 32,
            total: 32,
            metadata: 16,
            valid: false,
        },
    ),
    (
        "o: 0 4 linear base 0\no: 4 4 error\ns: 0 8 snapshot /dev/mapper/o cow P 8\n",
        "base 4\ncow 32\n",
        "W s 0 1",
        Usage {
            allocated: 16,
            total: 32,
            metadata: 16,
            valid: false,
        },
    ),
    // The example of the kernel's document has 49,542 chunks, which one request takes in this test.
    (
        "s: 0 396336 snapshot base cow P 8\n",
        "base 396336\ncow 2097152\n",
        "W s 0 396336",
        Usage {
            allocated: 397_896,
            total: 2_097_152,
            metadata: 1_560,
            valid: true,
        },
    ),
];

#[test]
fn usage_of_a_store(rt: HostRuntime) {
    for &(table, disks, line, want) in &ROWS {
        let stack = stack_of(&rt, rt.alloc(), table, disks);
        let (usage, _) = told_after(&rt, rt.alloc(), &stack, line);
        assert_eq!(&rt; usage, Some(want), "{line}");
    }
}
