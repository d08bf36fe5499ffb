//! Images in memory, for tests. They can fail after a number of reads.

ghost use Rattle.dm_store.specs.Prelude.{OnErr, OnOk, length, slice_range, Contents, AgreesWith};
ghost use Rattle.dm_table.specs.declared.io.sectors.TheConstants.{SECTOR};
ghost use Rattle.std.specs.Prelude.{◌≡◌, ◌+◌, ◌*◌, ◌<◌};

use crate::images::{Images, ReadFault, SECTOR};
use crate::read_log::ReadLog;

/// Files in memory, found by their paths. The first `left` reads are answered; all later ones fail.
#[derive(Drop)]
pub struct MemoryImages<'a> {
    files: &'a [(&'a str, &'a [u8])],
    left: usize,
    log: ReadLog,
}

impl<'a> MemoryImages<'a> {
    /// Images with the contents of these files. No read has been made yet.
    pub fn new(files: &'a [(&'a str, &'a [u8])], left: usize) -> MemoryImages<'a>
        ensures { (held : Contents) → ⟦<MemoryImages<'a> as Images>⟧.IsSeen result held }
    {
        MemoryImages {
            files,
            left,
            log: ReadLog::new(),
        }
    }
}

/// Reads sectors of the file with this path. Fails if the file ends before, or if there is no such file.
fn bytes_at(
    files: &[(&str, &[u8])],
    path: &str,
    sector: u64,
    into: &mut [u8],
) -> Result<(), ReadFault> {
    for (name, bytes) in files {
        if *name == path {
            return copied(bytes, sector, into);
        }
    }
    Err(ReadFault)
}

/// Reads sectors of a file if `left` isn't 0, and fails otherwise.
fn answered(
    left: usize,
    files: &[(&str, &[u8])],
    path: &str,
    sector: u64,
    into: &mut [u8],
) -> Result<(), ReadFault> {
    if left == 0 {
        return Err(ReadFault);
    }
    bytes_at(files, path, sector, into)
}

/// Copies sectors from `sector` on. Fails if the file doesn't have all of them.
fn copied(bytes: &[u8], sector: u64, into: &mut [u8]) -> Result<(), ReadFault>
    ensures read { OnOk result (into.new
        ≡ slice_range bytes.now (SECTOR * sector) (SECTOR * sector + length into.old)) }
    ensures ends { OnErr result (length bytes.now < SECTOR * sector + length into.old) }
{
    let before = bytes.len() as u64 / SECTOR as u64;
    if sector > before {
        return Err(ReadFault);
    }
    let start = sector as usize * SECTOR;
    if bytes.len() - start < into.len() {
        return Err(ReadFault);
    }
    into.copy_from_slice(&bytes[start..start + into.len()]);
    Ok(())
}

impl Images for MemoryImages<'_> {
    ghost IsSeen = { λ images held. AgreesWith held images.log };

    fn read(
        &mut self,
        line: u64,
        path: &str,
        sector: u64,
        into: &mut [u8],
    ) -> Result<(), ReadFault> {
        let result = answered(self.left, self.files, path, sector, into);
        self.left = self.left.saturating_sub(1);
        self.log.note(line, path, sector, result, into);
        result
    }
}
