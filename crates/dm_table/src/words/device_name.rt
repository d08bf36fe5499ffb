//! Valid names of devices.
//!
//! The rule is this project's own selection of what dmsetup(8) accepts; change it in `specs/words/Name.antt` first.

ghost use Rattle.dm_table.specs.Prelude.{IfNone, IfSome, IsTrue, false, take, list_all, prefix_len, is_device_byte, is_device_name, ascii-device_name};
ghost use Rattle.std.specs.Prelude.{◌≡◌};

use crate::words::name::{CheckedName, NameRule};

/// The name of a device: 1 to 127 ASCII letters, digits and `#+-.:=@_`.
pub type Name = CheckedName<DeviceNameRule>;

/// The rule for device names.
#[derive(Debug)]
pub struct DeviceNameRule;

impl NameRule for DeviceNameRule {
    ghost is_name = { is_device_name };

    fn is_name(bytes: &[u8]) -> bool {
        is_device_name(bytes)
    }

    ghost ascii = { ascii-device_name };
}

/// Whether the bytes are a valid device name.
pub(crate) fn is_device_name(bytes: &[u8]) -> bool
    ensures { result ≡ is_device_name bytes.now }
{
    match leading_name(bytes) {
        Some(len) => len == bytes.len(),
        None => false,
    }
}

/// The length of the device name at the start of a text, up to the first byte that a device name may not
/// contain; `None` if the bytes before that one aren't a valid name. One pass over the name.
pub(crate) fn leading_name(text: &[u8]) -> Option<usize>
    ensures len { IfSome result (λ len. len ≡ prefix_len is_device_byte text.now) }
    ensures name { IfSome result (λ len. IsTrue (is_device_name (take len text.now))) }
    ensures other { IfNone result
        (is_device_name (take (prefix_len is_device_byte text.now) text.now) ≡ false) }
{
    let len = leading_bytes(text);
    if 1 <= len && len <= 127 {
        Some(len)
    } else {
        None
    }
}

/// Whether all of the bytes may occur in a device name.
pub(crate) fn are_device_bytes(bytes: &[u8]) -> bool
    ensures { result ≡ list_all is_device_byte bytes.now }
{
    bytes.iter().all(|byte| is_device_byte(*byte))
}

/// How many bytes come before a text's first byte that may not occur in a device name.
fn leading_bytes(text: &[u8]) -> usize
    ensures { result ≡ prefix_len is_device_byte text.now }
{
    let mut len = 0;
    while len < text.len() && is_device_byte(text[len]) {
        len += 1;
    }
    len
}

/// Whether a byte may occur in a device name.
fn is_device_byte(byte: u8) -> bool
    ensures { result ≡ is_device_byte byte }
{
    byte.is_ascii_alphanumeric()
        || matches!(byte, b'#' | b'+' | b'-' | b'.' | b':' | b'=' | b'@' | b'_')
}
