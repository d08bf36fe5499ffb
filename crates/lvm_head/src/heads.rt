//! Reads the heads of all disks of a volume group.

ghost use Rattle.lvm_head.specs.Prelude.{Err, IfErr, IfOk, Ok, list_any, bytes_eq, Contents, Returns, heads_of, joined, Memory};
ghost use Rattle.std.specs.Prelude.{◌≡◌, ◌≢◌, ◌<◌};

use crate::disks::Disks;
use crate::fault::{HeadFault, HeadRefusal};
use crate::head::{Head, read_head, same_text};
use std::alloc::Global;
use std::marker::Model;

/// The content of several disks' heads: each physical volume's id, and the common metadata text, which may be empty.
#[derive(Debug, Drop)]
pub struct Heads {
    pub ids: Vec<[u8; 32]>,
    pub text: Vec<u8>,
}

impl Model for Heads {
    ghost use Rattle.lvm_head.specs.Heads.{AllSaid};

    ghost Value = { AllSaid };

    ghost view = { λ heads. record { ids = heads.ids.items; text = heads.text.items } };
}

/// Whether an id is in the list.
fn has_id(ids: &[[u8; 32]], id: [u8; 32]) -> bool
    ensures { result ≡ list_any (bytes_eq id) ids.now }
{
    ids.contains(&id)
}

/// Adds the head of one more disk; fails if the new head's text differs or its id is among the ids so far.
fn joined(heads: Heads, head: Head) -> Result<Heads, HeadFault>
    ensures { Returns (λ heads. heads) result (joined heads head) }
{
    let Heads { mut ids, text } = heads;
    let Head { id, text: next } = head;
    let text = match same_text(text, next) {
        Ok(text) => text,
        Err(fault) => return Err(fault),
    };
    if has_id(&ids, id) {
        return Err(HeadFault::Twice);
    }
    ids.push(id)?;
    Ok(Heads { ids, text })
}

/// Reads the heads of disks 0 to `count` - 1, which are the physical volumes of one volume group.
///
/// The label, the header, the areas and the current texts of each disk are read, and all their checksums are checked.
/// All texts must be equal. A disk that has partitions, or is a member of an md array, is refused.
///
/// Cost: linear in the sectors of labels and texts, and one comparison of ids for each pair of disks. At most two texts
/// are in memory at once, each of at most 1 MiB.
///
/// # Errors
///
/// The first disk whose head is refused, with the first fault found while the head is read and compared with others.
/// `Memory` if an allocation was refused.
pub fn read_heads<D: Disks>(
    alloc: Global,
    disks: &mut D,
    count: usize,
) -> Result<Heads, HeadRefusal>
    ensures listed { D.listed disks.new ≡ D.listed disks.old }
    ensures still { (held : Contents) → D.IsSeen disks.new held → D.IsSeen disks.old held }
    ensures given { (held : Contents) → D.IsSeen disks.new held
        → IfOk result (λ heads. heads_of held count ≡ Ok heads) }
    ensures refused { (held : Contents) → D.IsSeen disks.new held
        → IfErr result (λ refusal. refusal.fault ≢ Memory → heads_of held count ≡ Err refusal) }
    ensures disk { IfErr result (λ refusal. refusal.disk < count) }
{
    let mut heads = Heads {
        ids: Vec::new(alloc),
        text: Vec::new(alloc),
    };
    for disk in 0..count {
        let head = match read_head(alloc, disks, disk) {
            Ok(head) => head,
            Err(fault) => return Err(HeadRefusal { disk, fault }),
        };
        heads = match joined(heads, head) {
            Ok(heads) => heads,
            Err(fault) => return Err(HeadRefusal { disk, fault }),
        };
    }
    Ok(heads)
}
