//! Evidence that a file was opened. A file that was read to its end keeps the evidence, so that a file that can't be
//! opened never counts as one that has ended.

use std::fs::{File, Files};
use std::io;

/// Evidence that a file was opened; only the function `open` makes one.
#[derive(Clone, Copy)]
pub(crate) struct Opened {
    _by_open: (),
}

/// Opens the file at `path`, and returns it with the evidence.
pub(crate) fn open<R: Files>(files: &R, path: &str) -> io::Result<(R::File, Opened)> {
    let file = File::open(files, path)?;
    Ok((file, Opened { _by_open: () }))
}
