//! Tests that a trie is made if memory is ample, and that chunks are numbered in the order of taking.

use super::*;
use crate::fixtures::offer;
use std::test::Fail;

#[test]
fn chunks_are_found_by_their_bits(rt: HostRuntime) {
    let mut taken = TrieTaken::for_chunks(rt.alloc(), 6, 3).expect(&rt, "a trie");
    // For three chunks, the table has four slots. Chunks 0, 8 and 13 share a slot, and bits 3 and 0 distinguish
    // them.
    for chunk in [0, 8, 13, 3] {
        offer(&mut taken, chunk);
    }
    for (chunk, want, tested) in [
        (0, Some(0), 1),
        (8, Some(1), 2),
        (13, Some(2), 2),
        (3, Some(3), 0),
        (4, None, 1),
        (1, None, 0),
    ] {
        let (mut comparisons, mut bits) = (0, 0);
        let found = taken.find_counted(chunk, &mut comparisons, &mut bits);
        assert_eq!(&rt; (found, bits), (want, tested), "{chunk}");
    }
    assert!(&rt;
        !taken.is_full() && taken.is_valid(),
        "two places left, and valid"
    );
    taken.invalidate();
    assert!(&rt; !taken.is_valid(), "lost");
    let many = TrieTaken::with_places(rt.alloc(), (1 << 23) + 1);
    assert!(&rt; many.is_err(), "more places than there can be");
}
