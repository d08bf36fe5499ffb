//! Helpers for tests, which load a stack, map one request and return the usage and counts, or take a chunk.

use crate::mapper::Mapper;
use crate::pieces::piece_list::PieceList;
use crate::state::run_taken::RunTaken;
use crate::state::taken::Taken;
use crate::state::usage::Usage;
use dm_stack::Stack;
use dm_table::{parse_disks, parse_request, parse_table};
use std::alloc::Global;
use std::process::Abort;

/// Loads the stack that the texts of a table and a disk list describe.
pub(crate) fn stack_of(rt: &impl Abort, alloc: Global, table: &str, disks: &str) -> Stack {
    let devices = parse_table(alloc, table.as_bytes()).expect(rt, "devices");
    let disks = parse_disks(alloc, disks.as_bytes()).expect(rt, "disks");
    Stack::load(alloc, devices, disks).expect(rt, "a stack")
}

/// Maps one request with a new mapper. Returns the usage of the first snapshot, if there is one, and the
/// request's searches and comparisons.
pub(crate) fn told_after(
    rt: &impl Abort,
    alloc: Global,
    stack: &Stack,
    line: &str,
) -> (Option<Usage>, (u64, u64)) {
    let request = parse_request(line.as_bytes(), 1).expect(rt, "a request");
    let device = stack.device(request.device).expect(rt, "a device");
    let mut mapper: Mapper<'_, RunTaken> = Mapper::new(alloc, stack.looker()).expect(
        rt, "a mapper",
    );
    let mut list = PieceList::new(alloc, stack);
    mapper
        .request(&request, device, &mut list)
        .expect(rt, "pieces");
    let usage = match stack.snapshots().first() {
        Some(snapshot) => Some(mapper.usage(*snapshot)),
        None => None,
    };
    (usage, (mapper.searches(), mapper.probes()))
}

/// Takes a chunk, unless it is taken already, no place is left or the snapshot is invalid. Returns whether the
/// chunk was taken by this call.
pub(crate) fn offer<T: Taken>(taken: &mut T, chunk: u64) -> bool {
    taken.is_valid() && !taken.is_full() && taken.offer(chunk)
}
