//! The label of a row of table text: the field before a line's body.

ghost use Rattle.dm_table.specs.Prelude.{name_in};
ghost use Rattle.dm_table.specs.tables.TableText.{is_label};
ghost use Rattle.std.specs.Prelude.{◌≡◌};

/// Whether a field is a label: at least one byte, and then a colon at the end.
pub(crate) fn is_label(field: &[u8]) -> bool
    ensures { result ≡ is_label field.now }
{
    match field {
        [_, .., last] => *last == b':',
        _ => false,
    }
}

/// The name in a label, which is all of the label except the colon at its end.
pub(crate) fn name_in(label: &[u8]) -> &[u8]
    ensures { result.now ≡ name_in label.now }
{
    match label {
        [name @ .., _] => name,
        [] => b"",
    }
}
