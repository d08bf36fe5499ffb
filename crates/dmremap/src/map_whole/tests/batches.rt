//! Requests are parsed in the buffer, and in batches if the handler asks for batches. No contract says so, because a
//! handler without batches gives the same answers, only more slowly.

use super::*;
use dm_stack::{DeviceId, Stack};
use dm_stream::{Ending, Front, Handler, HandlesFrom, ReadsFrom, handle_requests};
use dm_table::{InFault, Input, Request, parse_disks, parse_table};

/// Devices with names of 1, 15 and 16 bytes.
const TABLE: &str = "n: 0 8 zero\nfifteen_letters: 0 8 zero\nsixteen_letters_: 0 8 zero\n";

/// Requests of the usual forms, and then enough requests for some to be near the end of the buffer.
const REQUESTS: &str =
    "R n 0 1\nW n 7 1\nR n 12345678 8\nW n 4294967296 1024\nR fifteen_letters 9 1048576\n\
    W fifteen_letters 1000000000000 16\nR sixteen_letters_ 0 8\nW sixteen_letters_ 99 128\n\
    R n 0 1\nR n 0 1\nR n 0 1\nR n 0 1\nR n 0 1\nR n 0 1\nR n 0 1\nR n 0 1\nR n 0 1\nR n 0 1\nR n 0 1\n\
    R n 0 1\nR n 0 1\nR n 0 1\nR n 0 1\nR n 0 1\nR n 0 1\nR n 0 1\nR n 0 1\nR n 0 1\nR n 0 1\nR n 0 1\n\
    R n 0 1\nR n 0 1\nR n 0 1\nR n 0 1\nR n 0 1\nR n 0 1\nR n 0 1\nR n 0 1\nR n 0 1\nR n 0 1\nR n 0 1\n";

/// How many requests `REQUESTS` contains.
const ALL: u64 = 41;

/// How many requests are parsed in the buffer: all but the first, because nothing was read before it, and the last
/// seven, because fewer than 64 bytes are left in the buffer at each of them.
const QUICK: u64 = ALL - 1 - 7;

/// Counts the requests that are announced to it and those handed to it, and the most that were announced ahead.
#[derive(Drop)]
struct Counts {
    told: u64,
    handed: u64,
    most_ahead: u64,
}

impl Handler for Counts {
    type Source = ();

    type Fault = ();

    ghost ready = { λ stack counts source. Unit {0} };

    ghost answered = { λ stack old before requests new after. Unit {0} };

    ghost stopped = { λ stack old before requests fault new after. Unit {0} };

    ghost answered_none = { λ stack counts source. tt };

    ghost answered_then_answered = { λ stack a b c s t u us vs first second. tt };

    ghost answered_then_stopped = { λ stack a b c s t u us vs fault first second. tt };

    fn handle(
        &mut self,
        _stack: &Stack,
        _source: &mut (),
        _request: &Request<'_>,
        _device: Option<DeviceId>,
    ) -> Result<(), ()> {
        let ahead = self.told.saturating_sub(self.handed);
        self.most_ahead = self.most_ahead.max(ahead);
        self.handed = self.handed.saturating_add(1);
        Ok(())
    }

    fn batches(&self, _stack: &Stack) -> bool {
        true
    }

    fn prefetch(&mut self, _stack: &Stack, _source: &(), fronts: &[Front<'_>]) {
        self.told = self.told.saturating_add(fronts.len() as u64);
    }
}

impl<R: Input> ReadsFrom<R> for Counts {
    ghost asked = { R.past };

    ghost is_out = { λ counts. Unit {0} };

    fn read(&self, requests: &mut R, buffer: &mut [u8]) -> Result<usize, InFault> {
        requests.read(buffer)
    }
}

impl<R: Input> HandlesFrom<R> for Counts {
    fn before_read(&mut self) {}
}

#[test]
fn requests_are_told_ahead(rt: HostRuntime) {
    let alloc = rt.alloc();
    let devices = parse_table(alloc, TABLE.as_bytes()).expect(&rt, "devices");
    let disks = parse_disks(alloc, b"").expect(&rt, "no disks");
    let stack = Stack::load(alloc, devices, disks).expect(&rt, "a stack");
    let mut requests = input(REQUESTS.as_bytes(), PLENTY, None);
    // The first request is handed over without being announced, but counts as announced.
    let mut counts = Counts {
        told: 1,
        handed: 0,
        most_ahead: 0,
    };
    let ending = handle_requests(&stack, &mut requests, &mut counts, &mut ());
    assert!(&rt; ending == Ok(Ending::Done), "a clean end");
    assert_eq!(&rt; (counts.told, counts.handed), (QUICK + 1, ALL));
    assert_eq!(&rt; counts.most_ahead, 16);
}
