//! Prints the LVM2 text of a volume group from the images of its disks, which `GroupImages` opens, without parsing it.

ghost use Rattle.dmremap.specs.Prelude.{InputPast, delivery, written_since, HasWritten, IsReadOn, Contents, Answers, unread, Does, failed_writes, AreImagesUsed, PrintsImages, AskedBy, StreamsLeft, moved};

use crate::exit::Exit;
use crate::images_load::{listed_heads, read_list, stopped};
use crate::listed_images::ListedImages;
use crate::printing::print_text;
use dm_store::Images;
use dm_table::{Input, Output};
use std::alloc::Global;

/// Prints the LVM2 text in the heads of the disks that a list of paths names, byte by byte, and returns the exit
/// status. Neither parses nor loads the text: `map` may refuse it, and a listed disk may be missing from it. The text
/// is empty if no head contains any.
///
/// The status is 1 if the list or a disk's head is refused, and then nothing was written or flushed. It is 5 if the
/// output failed, 6 if memory ran out, and then nothing was written, and 0 otherwise.
///
/// Cost: that of reading the heads (`read_heads`).
pub fn print_metadata<P: Input, I: Images, W: Output, M: Output>(
    alloc: Global,
    paths: &mut P,
    disks: &mut ListedImages<I>,
    output: &mut W,
    messages: &mut M,
) -> u8
    // For all contents of the images that agree with every read: the contents and the list determine one answer, and
    // this answer is written, reported and returned.
    ensures answers { (held : Contents) → I.IsSeen disks.new.images held
        → Answers (λ asked. PrintsImages (delivery (P.past paths.old) (P.past paths.new)) held) unread
        (moved W.past output.old output.new) (moved M.past messages.old messages.new) result }
    // The exit status says what was written and flushed, and which message was reported.
    ensures left { StreamsLeft result unread (moved W.past output.old output.new)
        (moved M.past messages.old messages.new) }
    // The list is never read after its end or after a fault.
    ensures paths_read_on { IsReadOn (P.past paths.old) (P.past paths.new) }
    // The images are read only if the list is accepted.
    ensures images_read { AreImagesUsed (delivery (P.past paths.old) (P.past paths.new))
        disks.old.images disks.new.images }
{
    let exit = answer(alloc, paths, disks, &mut *output);
    exit.finish(output, messages)
}

/// Prints the LVM2 text, and returns the exit that the command would have. Doesn't flush the output.
fn answer<P: Input, I: Images, W: Output>(
    alloc: Global,
    paths: &mut P,
    disks: &mut ListedImages<I>,
    output: &mut W,
) -> Exit
    ensures did { (held : Contents) → I.IsSeen disks.new.images held
        → Does (PrintsImages (delivery (P.past paths.old) (P.past paths.new)) held)
        (written_since (W.past output.old) (W.past output.new)) result }
    ensures writes { HasWritten (W.past output.old) (W.past output.new) (failed_writes result) }
    ensures asked { (past : InputPast) → AskedBy past past result }
    ensures paths_read_on { IsReadOn (P.past paths.old) (P.past paths.new) }
    ensures images_read { AreImagesUsed (delivery (P.past paths.old) (P.past paths.new))
        disks.old.images disks.new.images }
{
    match read_list(alloc, paths) {
        Ok(listed) => {
            disks.paths = listed;
            match listed_heads(alloc, disks) {
                Ok(heads) => print_text(&heads.text, output),
                Err(refusal) => {
                    Exit::Refused(stopped(&disks.paths, refusal.disk, refusal.fault))
                }
            }
        }
        Err(fault) => Exit::unloaded(fault),
    }
}
