//! Loads a volume group from the images of its disks, which a list of paths names: reads the heads of the disks, and
//! then parses the LVM2 text in these heads.
//!
//! Faults take precedence in this order: the list; the heads, disk by disk; the LVM2 text; the stack that the text
//! describes; the first disk that is shorter than the text says. The exception stores are found through the same list,
//! because they lie in the same images.

ghost use Rattle.dmremap.specs.Prelude.{Err, IfErr, IfOk, Ok, Some, length, slice_get, Memory, Paths, Delivery, delivery, IsReadOn, part_read, Contents, heads_of, AreSeen, HeadsOpen, ImagesOpen, IsStoppedBy, IsUnowned, by_text, len_of, list_in, short_of, IsOpened};
ghost use Rattle.lvm_head.specs.declared.fault.HeadFault.TheVariants as faults;
ghost use Rattle.lvm_head.specs.Disks.{Contents as DiskContents};
ghost use Rattle.std.specs.Prelude.{◌≡◌, ◌≢◌, ◌≤◌, ◌^◌};

use crate::exit::Refusal;
use crate::listed_images::ListedImages;
use dm_stack::Stack;
use dm_store::Images;
use dm_table::{DiskPath, Input, LoadFault, LoadKind, Part, Place, parse_paths, read_part};
use lvm_head::{HeadFault, HeadRefusal, Heads, SECTOR, read_heads, read_sector};
use lvm_volume::{DiskFault, OwnedFault, Owners, parse_owned};
use std::alloc::Global;

/// The most lines of a list of images, one for each disk that a stack can have.
const MOST_LINES: usize = 1024;

/// Reads all of a list of paths.
///
/// Returns `Memory` only if memory ran out; otherwise returns the first fault of the first check that finds any.
pub(crate) fn read_list<P: Input>(alloc: Global, paths: &mut P) -> Result<Vec<DiskPath>, LoadFault>
    ensures given { IfOk result (λ listed.
        list_in (part_read Paths (delivery (P.past paths.old) (P.past paths.new))) ≡ Some (Ok listed.items)) }
    ensures refused { IfErr result (λ fault. fault.kind ≢ Memory
        → list_in (part_read Paths (delivery (P.past paths.old) (P.past paths.new))) ≡ Some (Err fault)) }
    ensures read_on { IsReadOn (P.past paths.old) (P.past paths.new) }
{
    let text = read_part(alloc, Part::Paths, paths)?;
    let listed = parse_paths(alloc, &text)?;
    if listed.len() > MOST_LINES {
        return Err(LoadFault {
            kind: LoadKind::Limit,
            at: Place {
                part: Part::Paths,
                number: 1025,
            },
        });
    }
    Ok(listed)
}

/// Loads the volume group whose disks are listed.
///
/// Returns `Memory` only if memory ran out; otherwise returns the fault of the first head that is refused, or the first
/// fault of the LVM2 text or of a check of the stack.
pub(crate) fn load_images<I: Images>(
    alloc: Global,
    disks: &mut ListedImages<I>,
) -> Result<Stack, Refusal>
    ensures opened { (p : Delivery) (held : Contents) → list_in (part_read Paths p) ≡ Some (Ok disks.old.paths.items)
        → I.IsSeen disks.new.images held → IsOpened (ImagesOpen p held) result }
    ensures paths { disks.new.paths.items ≡ disks.old.paths.items }
{
    let heads = match listed_heads(alloc, disks) {
        Ok(heads) => heads,
        Err(refusal) => return Err(stopped(&disks.paths, refusal.disk, refusal.fault)),
    };
    let stack = match load_owned(alloc, &disks.paths, &heads) {
        Ok(stack) => stack,
        Err(refusal) => return Err(refusal),
    };
    match first_short(disks, &stack) {
        Some(disk) => Err(stopped(&disks.paths, disk, HeadFault::Ends)),
        None => Ok(stack),
    }
}

/// How many sectors the disk of this name has in the stack; 0 if the stack has no disk of this name.
fn len_of(stack: &Stack, name: &str) -> u64
    ensures is { result ≡ len_of stack.now name.now }
    ensures near { result ≤ 2 ^ 50 }
{
    match stack.disk(name) {
        Some(disk) => stack.disk_len(disk),
        None => 0,
    }
}

/// The number of the first listed disk whose last sector can't be read; the LVM2 text says which sector is the last.
fn first_short<I: Images>(disks: &mut ListedImages<I>, stack: &Stack) -> Option<usize>
    ensures paths { disks.new.paths.items ≡ disks.old.paths.items }
    ensures still { (held : DiskContents) → AreSeen (I.IsSeen disks.new.images) disks.new.paths.items held
        → AreSeen (I.IsSeen disks.old.images) disks.old.paths.items held }
    ensures is { (held : DiskContents) → AreSeen (I.IsSeen disks.new.images) disks.new.paths.items held
        → result ≡ short_of stack.now held 0 disks.old.paths.items }
{
    let mut sector = [0; SECTOR];
    for disk in 0..disks.paths.len() {
        let len = len_of(stack, disks.paths[disk].disk.as_str());
        match read_sector(disks, disk, len.saturating_sub(1), &mut sector) {
            Ok(()) => {}
            Err(_) => return Some(disk),
        }
    }
    None
}

/// Reads the heads of all listed disks.
pub(crate) fn listed_heads<I: Images>(
    alloc: Global,
    disks: &mut ListedImages<I>,
) -> Result<Heads, HeadRefusal>
    ensures given { (held : DiskContents) → AreSeen (I.IsSeen disks.new.images) disks.new.paths.items held
        → IfOk result (λ heads. heads_of held (length disks.old.paths.items) ≡ Ok heads) }
    ensures refused { (held : DiskContents) → AreSeen (I.IsSeen disks.new.images) disks.new.paths.items held
        → IfErr result (λ refusal. refusal.fault ≢ faults.Memory
        → heads_of held (length disks.old.paths.items) ≡ Err refusal) }
    ensures paths { disks.new.paths.items ≡ disks.old.paths.items }
{
    let listed: &[DiskPath] = &disks.paths;
    let count = listed.len();
    read_heads(alloc, disks, count)
}

/// Loads the volume group that the LVM2 text in the heads describes; its disks get the names in the list.
fn load_owned(alloc: Global, paths: &[DiskPath], heads: &Heads) -> Result<Stack, Refusal>
    ensures { IsOpened (HeadsOpen paths.now (Ok heads.now)) result }
{
    let owners = Owners {
        ids: &heads.ids,
        disks: paths,
    };
    match parse_owned(alloc, &heads.text, &owners) {
        Ok((devices, disks)) => match Stack::load(alloc, devices, disks) {
            Ok(stack) => Ok(stack),
            Err(fault) => Err(Refusal::Load(fault)),
        },
        Err(fault) => Err(unowned(paths, fault)),
    }
}

/// The refusal for a fault of the LVM2 text in the heads of the listed disks.
fn unowned(paths: &[DiskPath], fault: OwnedFault) -> Refusal
    ensures { IsUnowned paths.now fault result }
{
    match fault {
        OwnedFault::Disk(disk, fault) => stopped(paths, disk, by_text(fault)),
        OwnedFault::Load(fault) => Refusal::Load(fault),
    }
}

/// The fault of a disk's head if the LVM2 text refuses the disk.
fn by_text(fault: DiskFault) -> HeadFault
    ensures { result ≡ by_text fault }
{
    match fault {
        DiskFault::Foreign => HeadFault::Foreign,
        DiskFault::Missing => HeadFault::Missing,
        DiskFault::Array => HeadFault::Array,
    }
}

/// The refusal for a fault in the head of a listed disk.
pub(crate) fn stopped(paths: &[DiskPath], disk: usize, fault: HeadFault) -> Refusal
    ensures { IsStoppedBy (slice_get paths.now disk) fault result }
{
    if fault == HeadFault::Memory {
        return Refusal::Load(LoadFault::memory(Part::Source));
    }
    match paths.get(disk) {
        Some(path) => Refusal::Head(fault.message(&path.disk)),
        None => Refusal::Load(LoadFault::memory(Part::Source)),
    }
}
