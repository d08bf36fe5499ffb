//! `device_at_front` finds a device by a name at the front of a text. No contract says that it finds one: if it
//! doesn't, a request is parsed more slowly, with the same answer.

use super::*;
use dm_stack::Stack;
use dm_table::{parse_disks, parse_table};

/// Names of 1, 15, 16 and 127 bytes: the shortest and the longest that are compared as words, and the shortest and the
/// longest that are compared byte by byte.
static NAMES: [&str; 4] = [
    "n",
    "fifteen_letters",
    "sixteen_letters_",
    "a_name_of_one_hundred_and_twenty_seven_bytes_which_is_the_longest_that_a_device_may_have_and_goes_\
        on_until_all_of_them_are_here",
];

/// Names that collide in eights: the search for eight of them starts at one place, which has room for eight.
static MEETING: [&str; 40] = [
    "a3", "b81", "g14", "h36", "l35", "m57", "o0", "p51", "d83", "i16", "j38", "l10", "o59", "q9",
    "q31", "r53", "a64", "b86", "f85", "g19", "i5", "k18", "n12", "o34", "c66", "d88", "f60",
    "h87", "j3", "k81", "p14", "q36", "a2", "b71", "d98", "f70", "g92", "l25", "q46", "r68",
];

/// What follows a name in a request, and more requests; this text is longer than the longest name.
const REST: &str =
    " 0 1\nR n 0 1\nR n 0 1\nR n 0 1\nR n 0 1\nR n 0 1\nR n 0 1\nR n 0 1\nR n 0 1\nR n 0 1\n\
    R n 0 1\nR n 0 1\nR n 0 1\nR n 0 1\nR n 0 1\nR n 0 1\nR n 0 1\nR n 0 1\nR n 0 1\n";

/// Makes a device of each name, and asserts that `device_at_front` finds each of them.
fn check_fronts(rt: &impl Abort, alloc: Global, names: &[&str]) {
    let mut table = String::new(alloc);
    for name in names {
        let line = format!(in alloc; "{name}: 0 1 zero\n").expect(rt, "a line");
        table.push_str(&line).expect(rt, "a table");
    }
    let devices = parse_table(alloc, table.as_bytes()).expect(rt, "devices");
    let disks = parse_disks(alloc, b"").expect(rt, "no disks");
    let stack = Stack::load(alloc, devices, disks).expect(rt, "a stack");
    for name in names {
        let text = format!(in alloc; "{name}{REST}").expect(rt, "a text");
        let device = stack.device(name).expect(rt, "a device");
        assert_eq!(rt;
            stack.device_at_front(text.as_bytes()),
            Some((device, name.len())),
            "{name}"
        );
    }
}

#[test]
fn names_are_found_where_they_stand(rt: HostRuntime) {
    check_fronts(&rt, rt.alloc(), &NAMES);
    check_fronts(&rt, rt.alloc(), &MEETING);
}
