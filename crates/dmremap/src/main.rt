//! dmremap maps block requests through device-mapper tables to the disks below the devices.
//!
//! This file is the table of contents: `words` reads the command line; `map_whole`, `map_stored`, `other_whole` and
//! `print_metadata` do the work; `main` only passes the real files and streams to them.
#![tactic(auto)]

ghost use Rattle.dmremap.specs.Prelude.{true, job_words, is_other};
ghost use Rattle.std.specs.Prelude.{◌≡◌};

mod disk_paths;
mod exit;
mod explanation;
mod file_images;
mod group_images;
mod help;
mod images_load;
mod images_text;
mod job;
mod listed_images;
mod load;
mod map_from;
mod map_stored;
mod map_whole;
mod messages;
mod no_source;
mod opening;
mod other_whole;
mod part_file;
mod parts;
mod prepared;
mod printing;
mod read_run;
mod replay_run;
mod status;
mod words;

use dm_map::has_stack_room;
use dm_stream::Ending;
use dm_table::{Counted, Gathered, Output};
use exit::Exit;
use file_images::FileImages;
use group_images::GroupImages;
use images_text::print_metadata;
use job::{Format, Job, Source};
use listed_images::ListedImages;
use map_stored::map_stored;
use map_whole::map_whole;
use no_source::NoSource;
use opening::Opens;
use other_whole::other_whole;
use part_file::{DisksPart, EarlierPart, PartFile, PathsPart, SourcePart};
use parts::Parts;
use status::STATUS_DONE;
use std::io;
use std::io::{IsTerminal, Stderr, Stdin, Stdout};
use std::process::ExitCode;
use words::{WordsFault, not_text, read_words};

/// A file that the command line names; `P` says which part of the input the file holds.
type File<'r, P> = Counted<PartFile<'r, HostRuntime, P>>;

/// The files of a source, and the images of its disks.
type FileParts<'r> = Parts<
    File<'r, SourcePart>,
    File<'r, DisksPart>,
    File<'r, PathsPart>,
    FileImages<'r>,
>;

/// A list of the images of a volume group's disks, and the images themselves.
type FileGroup<'r> = GroupImages<File<'r, PathsPart>, FileImages<'r>>;

/// The stream of requests: the standard input.
type Requests = Counted<Stdin>;

/// The stream of answers: the standard output, gathered into larger writes.
type Answers = Gathered<Counted<Stdout>>;

/// The stream of messages: the standard error.
type Messages = Counted<Stderr>;

/// The line that follows a message if the standard error is a terminal.
const NEXT_STEP: &str =
    "what it means: dmremap help WORD; what mends it: dmremap-tools explain COMMAND";

/// Runs the command that the words ask for, and exits with its status. On a terminal, a last line names the commands
/// that explain a refusal or a fault.
fn main(rt: HostRuntime) -> ExitCode {
    let status = match begin(&rt) {
        Ok(status) => status,
        Err(fault) => refuse(&rt, &fault),
    };
    if status != STATUS_DONE && rt.stderr().is_terminal() {
        let _ = eprintln!(rt; "{NEXT_STEP}");
    }
    ExitCode::from(status)
}

/// Runs the command that the words ask for, if the call stack has enough room, and returns the exit status.
fn begin(rt: &HostRuntime) -> Result<u8, WordsFault> {
    if !has_stack_room(rt) {
        return Err(WordsFault::Memory);
    }
    answer(rt)
}

/// Runs the command that the words ask for, and returns the exit status. Never inlined, so that its frame is put on the
/// call stack only after the check that there is room.
#[inline(never)]
fn answer(rt: &HostRuntime) -> Result<u8, WordsFault> {
    let arguments = arguments_of(rt)?;
    let words: Vec<&str> = arguments
        .iter()
        .map(|argument| argument.as_str())
        .collect(rt.alloc())?;
    do_job(rt, read_words(rt.alloc(), words.as_slice())?)
}

/// Does the job, and returns the exit status.
fn do_job<'r>(rt: &'r HostRuntime, job: Job<'r>) -> Result<u8, WordsFault> {
    match job {
        Job::Map {
            source: Source::Files {
                format,
                file,
                disks,
            },
            paths: None,
            earlier: None,
            status,
        } => Ok(map_files(rt, format, file, disks, status)),
        Job::Map {
            source,
            paths,
            earlier,
            status,
        } => match source {
            Source::Files {
                format,
                file,
                disks,
            } => {
                let mut parts = parts_at(rt, format, file, disks, paths)?;
                Ok(map_from_state(rt, &mut parts, earlier, status))
            }
            Source::Images { list } => {
                Ok(map_from_state(rt, &mut group_at(rt, list)?, earlier, status))
            }
        },
        Job::Metadata(list) => print_text_of(rt, list),
        Job::Print { source, .. } | Job::Check(source) => do_with(rt, &job, source, None),
        Job::Replay { source, paths } | Job::Read { source, paths, .. } => {
            do_with(rt, &job, source, paths)
        }
        _ => Ok(do_other(rt, &job, &mut NoSource)),
    }
}

/// The program's arguments; the first is the program's name.
fn arguments_of(rt: &HostRuntime) -> Result<Vec<String>, WordsFault> {
    match std::env::args(rt) {
        Ok(arguments) => Ok(arguments.collect(rt.alloc())?),
        Err(error) if error.kind() == io::ErrorKind::OutOfMemory => Err(WordsFault::Memory),
        Err(_) => Err(not_text(rt.alloc())),
    }
}

/// Maps the requests of the standard input through the tables in files, with all snapshots fresh.
fn map_files(
    rt: &HostRuntime,
    format: Format,
    file: &str,
    disks: Option<&str>,
    status: bool,
) -> u8 {
    map_whole::<File<'_, SourcePart>, File<'_, DisksPart>, Requests, Answers, Messages>(
        rt.alloc(),
        format,
        status,
        &mut file_at(rt, file),
        &mut file_if(rt, disks),
        &mut Counted::new(rt.stdin()),
        &mut Gathered::new(Counted::new(rt.stdout())),
        &mut Counted::new(rt.stderr()),
    )
}

/// Maps the requests of the standard input through the tables of any source. The run starts in the state that the
/// source's exception stores hold, and after the requests of a file, if either is given.
fn map_from_state<O: Opens>(
    rt: &HostRuntime,
    source: &mut O,
    earlier: Option<&str>,
    status: bool,
) -> u8 {
    map_stored::<O, File<'_, EarlierPart>, Requests, Answers, Messages>(
        rt.alloc(),
        status,
        source,
        &mut file_if(rt, earlier),
        &mut Counted::new(rt.stdin()),
        &mut Gathered::new(Counted::new(rt.stdout())),
        &mut Counted::new(rt.stderr()),
    )
}

/// Does a job other than `map` and `metadata` with the given source.
fn do_with<'r>(
    rt: &'r HostRuntime,
    job: &Job<'_>,
    source: Source<'r>,
    paths: Option<&'r str>,
) -> Result<u8, WordsFault>
    requires { is_other (job_words job.now) ≡ true }
{
    match source {
        Source::Files {
            format,
            file,
            disks,
        } => Ok(do_other(rt, job, &mut parts_at(rt, format, file, disks, paths)?)),
        Source::Images { list } => Ok(do_other(rt, job, &mut group_at(rt, list)?)),
    }
}

/// Does a job other than `map` and `metadata` with the given source. The output of `read` isn't gathered, because
/// `read` writes the bytes of a device in whole blocks.
fn do_other<O: Opens>(rt: &HostRuntime, job: &Job<'_>, source: &mut O) -> u8
    requires { is_other (job_words job.now) ≡ true }
{
    let mut output = Counted::new(rt.stdout());
    match job {
        Job::Read { .. } => do_to(rt, job, source, &mut output),
        _ => do_to(rt, job, source, &mut Gathered::new(output)),
    }
}

/// Does a job other than `map` and `metadata` with the given source, and writes to `output`.
fn do_to<O: Opens, W: Output>(rt: &HostRuntime, job: &Job<'_>, source: &mut O, output: &mut W) -> u8
    requires { is_other (job_words job.now) ≡ true }
{
    other_whole::<O, Requests, W, Messages>(
        rt.alloc(),
        job,
        source,
        &mut Counted::new(rt.stdin()),
        output,
        &mut Counted::new(rt.stderr()),
    )
}

/// Prints the LVM2 text of the volume group whose images this list names.
fn print_text_of<'r>(rt: &'r HostRuntime, list: &'r str) -> Result<u8, WordsFault> {
    let GroupImages {
        list: mut paths,
        mut disks,
    } = group_at(rt, list)?;
    Ok(print_metadata::<File<'_, PathsPart>, FileImages<'_>, Answers, Messages>(
        rt.alloc(),
        &mut paths,
        &mut disks,
        &mut Gathered::new(Counted::new(rt.stdout())),
        &mut Counted::new(rt.stderr()),
    ))
}

/// The files of a source, each opened at its first read, and the images that a list of paths names, if there is one.
fn parts_at<'r>(
    rt: &'r HostRuntime,
    format: Format,
    file: &'r str,
    disks: Option<&'r str>,
    paths: Option<&'r str>,
) -> Result<FileParts<'r>, WordsFault> {
    Ok(Parts {
        format,
        source: file_at(rt, file),
        disks: file_if(rt, disks),
        paths: file_if(rt, paths),
        images: FileImages::new(rt.alloc(), rt)?,
    })
}

/// A list of paths and the images that it names, each opened at its first read.
fn group_at<'r>(rt: &'r HostRuntime, list: &'r str) -> Result<FileGroup<'r>, WordsFault> {
    Ok(GroupImages {
        list: file_at(rt, list),
        disks: ListedImages::new(rt.alloc(), FileImages::new(rt.alloc(), rt)?),
    })
}

/// The file at this path, for one part of the command's input.
fn file_at<'r, P>(rt: &'r HostRuntime, path: &'r str) -> File<'r, P> {
    Counted::new(PartFile::new(rt, path))
}

/// The file at this path, for one part of the command's input, if a path is given.
fn file_if<'r, P>(rt: &'r HostRuntime, path: Option<&'r str>) -> Option<File<'r, P>> {
    match path {
        Some(path) => Some(file_at(rt, path)),
        None => None,
    }
}

/// Prints why the words ask for no job, and returns the exit status. If memory ran out, the message is that of any
/// command; if help or a version can't be printed, the output counts as failed. A message that can't be printed changes
/// nothing.
fn refuse(rt: &HostRuntime, fault: &WordsFault) -> u8 {
    let mut messages: Messages = Counted::new(rt.stderr());
    if let WordsFault::Memory = fault {
        return Exit::Memory.tell(&mut messages);
    }
    let printed = fault.print(rt);
    let status = fault.status();
    if status == STATUS_DONE && printed.is_err() {
        Exit::Ended(Ending::WriteFault).tell(&mut messages)
    } else {
        status
    }
}
