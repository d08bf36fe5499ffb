//! Tests that a list is made if memory is ample, and that chunks are numbered in the order in which they are taken.

use super::*;
use std::test::Fail;

#[test]
fn chunks_have_numbers_in_the_order_of_taking(rt: HostRuntime) {
    let mut taken = PlainTaken::with_places(rt.alloc(), 2).expect(&rt, "a list");
    taken.take(9);
    taken.take(4);
    for (chunk, want) in [(9, Some(0)), (4, Some(1)), (0, None)] {
        assert_eq!(&rt; taken.find(chunk), want, "{chunk}");
    }
    assert!(&rt; taken.is_full() && taken.is_valid(), "full and valid");
    taken.invalidate();
    assert!(&rt; !taken.is_valid(), "lost");
}
