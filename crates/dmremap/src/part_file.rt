//! A file that a load reads, opened at its first read and closed at its end.
//!
//! Thus two pipes can be filled one after the other, and no file gets the descriptor of a closed standard input before
//! requests are read. A file that can't be opened is an input whose first read fails, so it is refused like one that
//! can't be read, and the reason isn't reported. Each read is one read of the file.

ghost use Rattle.dmremap.specs.Prelude.{IsErr, ReadConsumes};
ghost use Rattle.std.specs.Io.{ReadsAtMost};
ghost use Rattle.dmremap.specs.PartFile.{left_of};
ghost use Rattle.dmremap.specs.declared.part_file.Stage.TheVariants.{Unopened};
ghost use Rattle.std.specs.Prelude.{◌≡◌};

mod opened;

use opened::{Opened, open};
use std::fs::Files;
use std::io;
use std::io::Read;
use std::marker::PhantomData;

/// A file that a load reads. The type `P` says which part of the input it holds, so that files can't be mixed up.
#[derive(Drop)]
pub(crate) struct PartFile<'r, R: Files, P> {
    files: &'r R,
    path: &'r str,
    stage: Stage<R::File>,
    part: PhantomData<P>,
}

/// The part of FILE.
pub(crate) struct SourcePart {}

/// The part of DISKS.
pub(crate) struct DisksPart {}

/// The part of the file that `--before` names.
pub(crate) struct EarlierPart {}

/// The part of PATHS.
pub(crate) struct PathsPart {}

/// How far a file has been read.
#[derive(Drop)]
pub(crate) enum Stage<F> {
    /// The file hasn't been read yet, or can't be opened.
    Unopened,
    /// The file is open, and may have more bytes.
    Open(F, Opened),
    /// The file was read to its end, and is closed.
    Ended(Opened),
}

impl<'r, R: Files, P> PartFile<'r, R, P> {
    /// The file at this path, not opened yet.
    pub(crate) fn new(files: &'r R, path: &'r str) -> PartFile<'r, R, P> {
        PartFile {
            files,
            path,
            stage: Stage::Unopened,
            part: PhantomData,
        }
    }
}

impl<'r, R: Files, P> Read for PartFile<'r, R, P> {
    ghost remaining = { λ part. left_of R.File.remaining part.stage };

    fn read(&mut self, buffer: &mut [u8]) -> io::Result<usize>
        ensures bound { ReadsAtMost result buffer.new }
        // If std knows the file's bytes, a read neither skips bytes nor makes any up.
        ensures bytes { ReadConsumes (left_of R.File.remaining self.old.stage)
            (left_of R.File.remaining self.new.stage) result buffer.new }
        // A file that can't be opened is never read as an empty one.
        ensures unopened { self.new.stage ≡ Unopened → IsErr result }
    {
        if let Stage::Unopened = self.stage {
            let (file, opened) = open(self.files, self.path)?;
            self.stage = Stage::Open(file, opened);
        }
        match &mut self.stage {
            Stage::Open(file, opened) => {
                let read = file.read(buffer)?;
                if read == 0 && !buffer.is_empty() {
                    self.stage = Stage::Ended(*opened);
                }
                Ok(read)
            }
            Stage::Ended(_) => Ok(0),
            Stage::Unopened => unreachable!(),
        }
    }
}
