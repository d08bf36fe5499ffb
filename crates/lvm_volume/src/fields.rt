//! The fields of a metadata text: which content is valid, and a reader that runs both checks of fields in one pass.

pub(crate) mod fits;
pub(crate) mod reader;
pub(crate) mod source_line;
pub(crate) mod value;
