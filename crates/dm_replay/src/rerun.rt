//! Reruns: a new mapper is brought into the state that the kept writes left.
//!
//! A mapper whose sink failed can't map anything more. So a new mapper maps the whole sectors of each kept write again,
//! to a sink that discards everything.

ghost use Rattle.dm_replay.specs.Prelude.{false, IfOk, AllByRecursion, start_state, IsKept, rerun_from, rerun_step};
ghost use Rattle.std.specs.Prelude.{◌≡◌};

use crate::kept_write::KeptWrite;
use dm_map::{Discard, MapFault, Mapper, Taken};
use dm_stack::Stack;
use dm_table::{Op, Request};
use std::alloc::{AllocError, Global};

/// A new mapper of a stack, in the state that the kept writes left.
///
/// Cost: that of mapping all kept writes again.
///
/// # Errors
///
/// `AllocError` when out of memory for the mapper's state.
pub(crate) fn rerun<'s, T: Taken>(
    alloc: Global,
    stack: &'s Stack,
    writes: &[KeptWrite],
) -> Result<Mapper<'s, T>, AllocError>
    requires { AllByRecursion (IsKept stack.now) writes.now }
    ensures stack { IfOk result (λ mapper. mapper.stack ≡ stack.now) }
    ensures going { IfOk result (λ mapper. mapper.failed ≡ false) }
    ensures state { IfOk result
        (λ mapper. mapper.state ≡ rerun_from stack.now (start_state stack.now) writes.now) }
{
    let mut mapper = Mapper::new(alloc, stack.looker())?;
    let mut discard = Discard { stack };
    for kept in writes {
        map_again(kept, &mut mapper, &mut discard);
    }
    Ok(mapper)
}

/// Maps the whole sectors of one kept write again.
fn map_again<T: Taken>(kept: &KeptWrite, mapper: &mut Mapper<'_, T>, discard: &mut Discard<'_>)
    requires going { mapper.old.failed ≡ false }
    requires stack { discard.old.stack.now ≡ mapper.old.stack }
    requires kept { IsKept mapper.old.stack kept.now }
    ensures going { mapper.new.failed ≡ false }
    ensures stack { mapper.new.stack ≡ mapper.old.stack }
    ensures discard { discard.new.stack.now ≡ discard.old.stack.now }
    ensures state { mapper.new.state ≡ rerun_step mapper.old.stack kept.now mapper.old.state }
{
    if kept.whole == 0 {
        return;
    }
    let request = Request {
        number: 0,
        op: Op::Write,
        device: "",
        start: kept.start,
        len: kept.whole,
    };
    match mapper.request(&request, kept.device, discard) {
        Ok(()) => {}
        Err(MapFault::Sink(())) => unreachable!(),
        Err(MapFault::Stopped) => unreachable!(),
    }
}
