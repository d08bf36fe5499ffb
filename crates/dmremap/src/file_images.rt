//! Images that are files or block devices, each opened read-only, at its first read.
//!
//! At most 64 images are open at once; one that was closed in favour of another is opened again at its next read. An
//! image that can't be opened counts as unreadable, and the reason isn't reported. Only files and block devices are
//! opened, because opening a pipe would wait for a writer. A read has an offset of its own, and fails if the image ends
//! before the last of its bytes.

ghost use Rattle.dmremap.specs.Prelude.{IfOk, Contents, AgreesWith};
ghost use Rattle.std.specs.Prelude.{◌≡◌};

use dm_store::{Images, ReadFault, ReadLog};
use std::alloc::{AllocError, Global};
use std::fs;
use std::fs::File;
use std::os::unix::fs::{FileExt, FileTypeExt};

/// The most images that are open at once.
const MOST_OPEN: u64 = 64;

/// An open image, with the line of PATHS that names it.
#[derive(Drop)]
struct OpenImage {
    line: u64,
    file: File,
}

/// The images of disks, with a log of everything that was read from them.
#[derive(Drop)]
pub(crate) struct FileImages<'r> {
    files: &'r HostRuntime,
    /// The open images; the image of line L is in slot L modulo `MOST_OPEN`.
    slots: Vec<Option<OpenImage>>,
    log: ReadLog,
}

impl<'r> FileImages<'r> {
    /// The images of a run, none of them open yet. Fails only when out of memory.
    pub(crate) fn new(alloc: Global, files: &'r HostRuntime) -> Result<FileImages<'r>, AllocError>
        ensures { IfOk result (λ images. (held : Contents) → ⟦<FileImages<'r> as Images>⟧.IsSeen images held) }
    {
        let mut slots = Vec::new(alloc);
        slots.resize_with(MOST_OPEN as usize, || None)?;
        Ok(FileImages {
            files,
            slots,
            log: ReadLog::new(),
        })
    }

    /// Reads bytes from the image that a line of PATHS names, from offset `byte` on. Opens the image unless it is open.
    fn read_at(
        &mut self,
        line: u64,
        path: &str,
        byte: u64,
        into: &mut [u8],
    ) -> Result<(), ReadFault>
        ensures log { self.new.log ≡ self.old.log }
    {
        let files = self.files;
        let Some(slot) = self.slots.get_mut((line % MOST_OPEN) as usize) else {
            return Err(ReadFault);
        };
        let is_open = match slot {
            Some(image) => image.line == line,
            None => false,
        };
        if !is_open {
            // Closes the image in this slot before the next one is opened.
            *slot = None;
            *slot = open_image(files, line, path);
        }
        match slot {
            Some(image) => match image.file.read_exact_at(into, byte) {
                Ok(()) => Ok(()),
                Err(_) => Err(ReadFault),
            },
            None => Err(ReadFault),
        }
    }
}

impl<'r> Images for FileImages<'r> {
    ghost IsSeen = { λ images held. AgreesWith held images.log };

    fn read(
        &mut self,
        line: u64,
        path: &str,
        sector: u64,
        into: &mut [u8],
    ) -> Result<(), ReadFault> {
        let answer = self.read_at(line, path, 512 * sector, into);
        self.log.note(line, path, sector, answer, into);
        answer
    }
}

/// Opens the file or block device at `path`, if possible. The descriptor is cloned so that it is above those of the
/// standard streams, even if one of them is closed.
fn open_image(files: &HostRuntime, line: u64, path: &str) -> Option<OpenImage> {
    let kind = fs::metadata(files, path).ok()?.file_type();
    if !kind.is_file() && !kind.is_block_device() {
        return None;
    }
    let file = File::open(files, path).ok()?.try_clone().ok()?;
    Some(OpenImage { line, file })
}
