//! Runs `map` over a loaded stack that has a start. This module keeps the promises that `map_whole` and `map_stored`
//! both make about a run.

ghost use Rattle.dmremap.specs.Prelude.{IfOk, Option, IsErrAnd, Delivery, CanMap, Answers, IsOutOfMemory, IsBegunAt, IsOut, StreamsLeft, moved, MapsOver, Start};
ghost use Rattle.dmremap.specs.declared.status.TheConstants.{STATUS_MEMORY};
ghost use Rattle.std.specs.Prelude.{◌≡◌};

use crate::exit::{Exit, Refusal};
use crate::prepared::Prepared;
use dm_stack::Stack;
use dm_stream::{Exchange, run};
use dm_table::Output;
use std::mem::forget;

/// Runs requests over a stack that has a start, and returns the exit status.
pub(crate) fn map_from<'s, Q: Exchange<W>, W: Output, M: Output>(
    stack: &'s Stack,
    begun: Result<Prepared<'s>, Refusal>,
    requests: &mut Q,
    output: &mut W,
    messages: &mut M,
    status: bool,
) -> u8
    requires going { IfOk begun (λ prepared. CanMap stack.now prepared.mapper) }
    requires texts { IfOk begun (λ prepared. prepared.texts ≡ stack.now) }
    ensures answers { (start : Start) (before : Option Delivery) → IsBegunAt stack.now before start begun.entry
        → Answers (MapsOver start stack.now status before) (moved Q.past requests.old requests.new)
        (moved W.past output.old output.new) (moved M.past messages.old messages.new) result }
    ensures left { StreamsLeft result (moved Q.past requests.old requests.new)
        (moved W.past output.old output.new) (moved M.past messages.old messages.new) }
    ensures memory { result ≡ STATUS_MEMORY → IsErrAnd begun.entry IsOutOfMemory
        × IsOut (moved Q.past requests.old requests.new)
        (moved W.past output.old output.new) (moved M.past messages.old messages.new) }
{
    match begun {
        Ok(Prepared { mut mapper, texts }) => {
            let ending = run(
                stack,
                &mut mapper,
                &texts,
                requests,
                output,
                messages,
                status,
            );
            // The program ends soon, and then the system frees all memory at once.
            forget(texts);
            forget(mapper);
            Exit::Ended(ending).status()
        }
        Err(refusal) => refusal.tell(messages),
    }
}
