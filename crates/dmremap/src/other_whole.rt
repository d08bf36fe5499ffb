//! The commands other than `map` and `metadata`: they print the devices of a source, or a name or its parts, replay
//! requests, or write the bytes of a device.
//!
//! The results depend only on the words, on the source and on the delivered requests, unless memory runs out. A command
//! does its work in `answer`, which returns the exit that the command would have; then the output is closed and the
//! message written. A new command is an arm of `answer` or of `answer_over` here, and of `JobAnswers` or of `JobMakes`
//! in `specs/OtherWhole.antt`.

ghost use Rattle.dmremap.specs.Prelude.{Option, false, true, Description, Contents, Delivery, delivery, written_since, HasWritten, Answer, Answers, IsOne, IsOneSettled, Does, exit_status, failed_writes, RangeWords, job_words, SoundAs, Loaded, Opening, JobAnswers, JobMakes, has_requests, is_loading, is_other, is_reading, ReplaysOver, AskedBy, StreamsLeft, moved, Start};
ghost use Rattle.dmremap.specs.declared.status.TheConstants.{STATUS_MEMORY};
ghost use Rattle.std.specs.Prelude.{◌≡◌, ◌⊎◌};

#[cfg(test)]
mod tests;

use crate::exit::Exit;
use crate::explanation::print_explanation;
use crate::job::Job;
use crate::opening::Opens;
use crate::printing::{print_name, print_parts, print_report, print_stack};
use crate::replay_run::replay_stack;
use dm_stack::Stack;
use dm_stream::Exchange;
use dm_table::Output;
use std::alloc::Global;
use std::mem::forget;

/// Does the job of any command other than `map` and `metadata`, and returns the exit status. Depending on the job, it
/// prints the devices of a source, checked as for `map`, or the report of that check, the device-mapper name of a
/// volume, the parts of a name, or what the manual says about a word. Or it replays requests on the disks of a source,
/// with the contents that the disks had before, and writes one line for each maximal run of equal answers; snapshots
/// start as their exception stores say if the images are known, or else fresh. Or it writes the bytes of a device's
/// sectors, from the images that hold the device's disks, in the state that the exception stores hold.
///
/// | Status | When |
/// |---|---|
/// | 0 | all was printed or written, or all requests were answered |
/// | 1 | the source, its disks, the list of paths, the device, its sectors, a store or the name was refused, or `replay` refused a stack with two claims that clash; nothing was written or flushed, and no request was read |
/// | 3 | a request was bad, or named no top device; the requests before it were answered |
/// | 4 | reading requests failed; the requests before the fault were answered |
/// | 5 | writing or flushing the output failed |
/// | 6 | memory ran out: nothing was written or flushed, or only the requests before some request were answered |
/// | 7 | a sector can't be read; the sectors before it were written |
///
/// At most one message is written, after the output was flushed.
///
/// Cost: that of the load, and linear in what is printed. A replay and a read are also linear in the exceptions of the
/// stores, and cost that of `Replay::request` for each request, or that of `write_sectors`. A replay needs memory for
/// the stored ranges and the requests; a read allocates nothing once the load is done and the list of paths is read.
pub fn other_whole<O: Opens, Q: Exchange<W>, W: Output, M: Output>(
    alloc: Global,
    job: &Job<'_>,
    source: &mut O,
    requests: &mut Q,
    output: &mut W,
    messages: &mut M,
) -> u8
    requires other { is_other (job_words job.now) ≡ true }

    // For all contents of the images that agree with every read: the contents, the words and the delivered inputs
    // determine one answer, unless memory runs out at a request. This answer is written, reported and returned.
    ensures answers { (held : Contents) → O.IsSeen source.new held
        → Answers (JobAnswers (job_words job.now) (O.opens source.old source.new held)
        (O.starts source.old source.new held) (O.reads source.old source.new held))
        (moved Q.past requests.old requests.new)
        (moved W.past output.old output.new) (moved M.past messages.old messages.new) result }
    ensures one { (old new : O) (held : Contents) (starts : Description → Start)
        (reads : RangeWords → Description → Option Answer) (q : Delivery)
        → IsOneSettled (JobAnswers (job_words job.now) (O.opens old new held) starts reads q) }
    ensures one_printed { has_requests (job_words job.now) ≡ false
        → (old new : O) (held : Contents) (starts : Description → Start)
        (reads : RangeWords → Description → Option Answer) (q : Delivery)
        → IsOne (JobAnswers (job_words job.now) (O.opens old new held) starts reads q) }
    // The exit status says how requests were read, what was written and flushed, and which message was reported.
    ensures left { StreamsLeft result (moved Q.past requests.old requests.new)
        (moved W.past output.old output.new) (moved M.past messages.old messages.new) }

    // No input is read after its end or after a fault.
    ensures read { (source.new ≡ source.old) ⊎ O.IsRead source.old source.new }
    // Only `replay` reads requests.
    ensures unasked { has_requests (job_words job.now) ≡ false → Q.past requests.new ≡ Q.past requests.old }
    // If memory ran out for `read`, everything that must then be left untouched was left untouched.
    ensures memory { is_reading (job_words job.now) ≡ true → result ≡ STATUS_MEMORY
        → O.IsLeft source.old source.new }
{
    let exit = answer(alloc, *job, source, requests, &mut *output);
    exit.finish(output, messages)
}

/// Does what a job asks for, and returns the exit that the command would have. Doesn't flush the output.
fn answer<O: Opens, Q: Exchange<W>, W: Output>(
    alloc: Global,
    job: Job<'_>,
    source: &mut O,
    requests: &mut Q,
    output: &mut W,
) -> Exit
    requires other { is_other (job_words job) ≡ true }
    ensures did { (held : Contents) → O.IsSeen source.new held
        → Does (JobAnswers (job_words job.entry) (O.opens source.old source.new held)
        (O.starts source.old source.new held) (O.reads source.old source.new held)
        (delivery (Q.past requests.old) (Q.past requests.new)))
        (written_since (W.past output.old) (W.past output.new)) result }
    ensures writes { HasWritten (W.past output.old) (W.past output.new) (failed_writes result) }
    ensures asked { AskedBy (Q.past requests.old) (Q.past requests.new) result }
    ensures read { (source.new ≡ source.old) ⊎ O.IsRead source.old source.new }
    ensures unasked { has_requests (job_words job.entry) ≡ false → Q.past requests.new ≡ Q.past requests.old }
    ensures memory { is_reading (job_words job.entry) ≡ true → exit_status result ≡ STATUS_MEMORY
        → O.IsLeft source.old source.new }
    ensures one { is_loading (job_words job.entry) ≡ true → (old new : O) (held : Contents) (a b : Opening)
        → O.opens old new held a → O.opens old new held b → a ≡ b }
{
    match job {
        Job::Map { .. } | Job::Metadata(_) => unreachable!(),
        Job::Name { vg, lv, layer } => print_name(alloc, vg, lv, layer, output),
        Job::SplitName(name) => print_parts(alloc, name, output),
        Job::Explain(word) => print_explanation(word, output),
        Job::Print { .. } | Job::Check(_) | Job::Replay { .. } | Job::Read { .. } => {
            match source.open(alloc) {
                Ok(stack) => answer_over(alloc, job, stack, source, requests, output),
                Err(refusal) => Exit::Refused(refusal),
            }
        }
    }
}

/// Does what a job asks for over the stack that was loaded, and returns the exit that the command would have. Doesn't
/// flush the output.
fn answer_over<O: Opens, Q: Exchange<W>, W: Output>(
    alloc: Global,
    job: Job<'_>,
    stack: Stack,
    source: &mut O,
    requests: &mut Q,
    output: &mut W,
) -> Exit
    requires other { is_other (job_words job) ≡ true }
    requires loading { is_loading (job_words job) ≡ true }
    ensures did { (first : O) → O.HasOpened first source.old stack → (held : Contents) → O.IsSeen source.new held
        → Does (JobMakes (job_words job.entry) (O.starts first source.new held) (O.reads first source.new held)
        (delivery (Q.past requests.old) (Q.past requests.new)) stack)
        (written_since (W.past output.old) (W.past output.new)) result }
    ensures writes { HasWritten (W.past output.old) (W.past output.new) (failed_writes result) }
    ensures asked { AskedBy (Q.past requests.old) (Q.past requests.new) result }
    // The stack that the source opened first is still the one that the source has opened.
    ensures opened { (first : O) → O.HasOpened first source.old stack
        → ((held : Contents) → O.IsSeen source.old held → O.opens first source.old held (Loaded (SoundAs stack)))
        → (held : Contents) → O.IsSeen source.new held → O.opens first source.new held (Loaded (SoundAs stack)) }
    ensures read { (first : O) → O.HasOpened first source.old stack → O.IsRead first source.old
        → O.IsRead first source.new }
    ensures unasked { has_requests (job_words job.entry) ≡ false → Q.past requests.new ≡ Q.past requests.old }
    ensures memory { is_reading (job_words job.entry) ≡ true → exit_status result ≡ STATUS_MEMORY
        → (first : O) → O.HasOpened first source.old stack → O.IsLeft first source.new }
{
    match job {
        Job::Print { form, .. } => print_stack(form, stack, output),
        Job::Check(_) => {
            let exit = print_report(alloc, &stack, output);
            // The program ends soon, and then the system frees all memory at once.
            forget(stack);
            exit
        }
        Job::Replay { .. } => {
            let exit = replay(alloc, &stack, source, requests, output);
            // The program ends soon, and then the system frees all memory at once.
            forget(stack);
            exit
        }
        Job::Read { range, .. } => {
            let exit = source.read_sectors(alloc, &stack, range, output);
            // The program ends soon, and then the system frees all memory at once.
            forget(stack);
            exit
        }
        Job::Map { .. }
        | Job::Metadata(_)
        | Job::Name { .. }
        | Job::SplitName(_)
        | Job::Explain(_) => unreachable!(),
    }
}

/// Replays requests on the disks of an opened stack, from the state that the stack's exception stores hold, and returns
/// the exit that the command would have. Doesn't flush the output.
fn replay<O: Opens, Q: Exchange<W>, W: Output>(
    alloc: Global,
    stack: &Stack,
    source: &mut O,
    requests: &mut Q,
    output: &mut W,
) -> Exit
    ensures did { (first : O) → O.HasOpened first source.old stack.now → (held : Contents)
        → O.IsSeen source.new held → Does (ReplaysOver (O.starts first source.new held stack.now) stack.now
        (delivery (Q.past requests.old) (Q.past requests.new)))
        (written_since (W.past output.old) (W.past output.new)) result }
    ensures writes { HasWritten (W.past output.old) (W.past output.new) (failed_writes result) }
    ensures asked { AskedBy (Q.past requests.old) (Q.past requests.new) result }
    ensures opened { (first : O) → O.HasOpened first source.old stack.now → (held : Contents)
        → O.IsSeen source.new held → O.opens first source.new held (Loaded (SoundAs stack.now)) }
    ensures read { (first : O) → O.HasOpened first source.old stack.now → O.IsRead first source.new }
{
    match source.begin(alloc, stack) {
        Ok(prepared) => replay_stack(alloc, stack, prepared.mapper, requests, output),
        Err(refusal) => Exit::Refused(refusal),
    }
}
