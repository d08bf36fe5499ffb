//! Valid names of disks.
//!
//! The rule is this project's own, and excludes disk names that could be taken for a device's; change it in
//! `specs/words/Name.antt` first.

ghost use Rattle.dm_table.specs.Prelude.{list_all, is_disk_byte, is_disk_name, names_device, ascii-disk_name};
ghost use Rattle.std.specs.Prelude.{◌≡◌};

use crate::words::name::{CheckedName, NameRule};

/// The name of a disk: 1 to 255 bytes from 0x21 to 0x7E without `,`, `;` and `\`, not beginning
/// with `/dev/mapper/`.
pub type DiskName = CheckedName<DiskNameRule>;

/// The rule for disk names.
#[derive(Debug)]
pub struct DiskNameRule;

impl NameRule for DiskNameRule {
    ghost is_name = { is_disk_name };

    fn is_name(bytes: &[u8]) -> bool {
        is_disk_name(bytes)
    }

    ghost ascii = { ascii-disk_name };
}

/// Whether the bytes are a valid disk name.
pub(crate) fn is_disk_name(bytes: &[u8]) -> bool
    ensures { result ≡ is_disk_name bytes.now }
{
    let allowed = are_disk_bytes(bytes);
    let device = names_device(bytes);
    1 <= bytes.len() && bytes.len() <= 255 && allowed && !device
}

/// Whether all of the bytes may occur in a disk name. The loop never stops early, so that many are tested at once.
fn are_disk_bytes(bytes: &[u8]) -> bool
    ensures { result ≡ list_all is_disk_byte bytes.now }
{
    let mut allowed = true;
    for byte in bytes {
        allowed &= is_disk_byte(*byte);
    }
    allowed
}

/// Whether a byte may occur in a disk name.
fn is_disk_byte(byte: u8) -> bool
    ensures { result ≡ is_disk_byte byte }
{
    33 <= byte && byte <= 126 && !(byte == b',' || byte == b';' || byte == b'\\')
}

/// Whether a text begins with `/dev/mapper/`, so that it names a device and not a disk.
pub(crate) fn names_device(bytes: &[u8]) -> bool
    ensures { result ≡ names_device bytes.now }
{
    bytes.starts_with(b"/dev/mapper/")
}
