//! The commands that print, over inputs and outputs in memory with short writes and faults.
//!
//! Tests of the built program (`tests/outside`) check what is printed for which texts. Here each command runs with
//! ample memory, and its output and its messages fail after each of their bytes in turn.

ghost use Rattle.dmremap.specs.Prelude.{true, job_words, is_other};
ghost use Rattle.std.specs.Prelude.{◌<◌, ◌≡◌};

mod replays;

use super::*;
use crate::job::{Format, Source, TableForm};
use crate::parts::Parts;
use dm_store::MemoryImages;
use dm_table::{ShortIn, ShortOut};
use std::process::Abort;

/// More bytes than any stream of a case has.
const PLENTY: usize = 4096;

const WRITE_MESSAGE: &[u8] = b"dmremap: output: write\n";

/// A volume group with a read-only volume of one extent.
const GROUP: &str = "\
contents = \"Text Format Volume Group\"
version = 1
vg0 {
  extent_size = 8
  physical_volumes {
    pv0 { device = \"/dev/sda1\" dev_size = 24 pe_start = 8 pe_count = 2 }
  }
  logical_volumes {
    lv-0 {
      status = [\"READ\"]
      segment_count = 1
      segment1 {
        start_extent = 0 extent_count = 1
        type = \"striped\" stripe_count = 1 stripes = [\"pv0\", 1]
      }
    }
  }
}
";

/// What a row asks the program to do.
#[derive(Clone, Copy)]
enum Asked {
    Print(TableForm, Format),
    Check,
    Name(&'static str, &'static str),
    SplitName(&'static str),
}

/// A job, its source and its disk list; then the output if the status is 0, or else the message; and the status.
static ROWS: [(Asked, &str, &str, &str, u8); 13] = [
    (
        Asked::Print(TableForm::Table, Format::Tables(TableForm::Table)),
        "b: 0 9 zero\nb: 9 8 linear sda 1\na: 0 16 striped 2 4 /dev/mapper/b 9 sda 0\n",
        "sda 9\n",
        "b: 0 9 zero\nb: 9 8 linear sda 1\na: 0 16 striped 2 4 /dev/mapper/b 9 sda 0\n",
        0,
    ),
    (
        Asked::Print(TableForm::Concise, Format::Tables(TableForm::Table)),
        "a: 0 8 error \n",
        "",
        "a,,,rw,0 8 error\n",
        0,
    ),
    (
        Asked::Print(TableForm::Table, Format::Tables(TableForm::Concise)),
        "a,LVM-x,3,ro,0 8 linear sda 0;b,,,,0 8 linear /dev/mapper/a 0\n",
        "sda 8\n",
        "a: 0 8 linear sda 0\nb: 0 8 linear /dev/mapper/a 0\n",
        0,
    ),
    (
        Asked::Print(TableForm::Concise, Format::Tables(TableForm::Concise)),
        "a,,,,0 8 zero;b,,,,0 8 zero, 8 8 error\n",
        "",
        "a,,,rw,0 8 zero;b,,,rw,0 8 zero,8 8 error\n",
        0,
    ),
    (
        Asked::Print(TableForm::Concise, Format::Tables(TableForm::Concise)),
        "\n",
        "",
        "\n",
        0,
    ),
    (
        Asked::Print(TableForm::Table, Format::Lvm),
        GROUP,
        "",
        "vg0-lv--0: 0 8 linear /dev/sda1 16\n",
        0,
    ),
    (
        Asked::Print(TableForm::Concise, Format::Lvm),
        GROUP,
        "",
        "vg0-lv--0,,,ro,0 8 linear /dev/sda1 16\n",
        0,
    ),
    (
        Asked::Check,
        "a: 0 8 linear sda 0\nb: 0 8 linear sda 4\n",
        "sda 16\n",
        "devices 2\ndisks 1\ndepth 1\nclash sda 4 a b\n",
        0,
    ),
    (
        Asked::Check,
        "a: 0 8 linear sda 1\n",
        "sda 8\n",
        "dmremap: source: range at 1\n",
        1,
    ),
    (Asked::Name("a-", "b"), "", "", "a---b\n", 0),
    (Asked::Name("a", "-b"), "", "", "dmremap: name: hyphen\n", 1),
    (Asked::SplitName("a---b"), "", "", "a- b\n", 0),
    (Asked::SplitName("a"), "", "", "dmremap: name: split\n", 1),
];

/// How the streams of a run behave: they accept at most `step` bytes a call, fail after `output` and `messages` bytes,
/// and the flushes of the output may fail.
#[derive(Clone, Copy)]
struct Streams {
    step: usize,
    output: usize,
    messages: usize,
    flush_fails: bool,
}

/// Streams that never fail.
const STEADY: Streams = Streams {
    step: 3,
    output: PLENTY,
    messages: PLENTY,
    flush_fails: false,
};

/// A source in this format. The paths are empty because no file is opened here.
fn source_in(format: Format) -> Source<'static> {
    Source::Files {
        format,
        file: "",
        disks: None,
    }
}

/// The parts of a load that has no list of paths.
fn parts_of<'a>(
    format: Format,
    source: &'a str,
    disks: &'a str,
) -> Parts<ShortIn<'a>, ShortIn<'a>, ShortIn<'a>, MemoryImages<'static>> {
    Parts {
        format,
        source: ShortIn::new(source.as_bytes(), PLENTY),
        disks: Some(ShortIn::new(disks.as_bytes(), 1)),
        paths: None,
        images: MemoryImages::new(&[], 0),
    }
}

/// The format of the source that a row loads.
fn format_of(asked: Asked) -> Format {
    match asked {
        Asked::Print(_, format) => format,
        _ => Format::Tables(TableForm::Table),
    }
}

/// The job that a row asks for, without a list of paths. No file is opened for the job.
fn job_of(asked: Asked) -> Job<'static>
    ensures { is_other (job_words result) ≡ true }
{
    match asked {
        Asked::Print(form, format) => Job::Print {
            form,
            source: source_in(format),
        },
        Asked::Check => Job::Check(source_in(format_of(asked))),
        Asked::Name(vg, lv) => Job::Name {
            vg,
            lv,
            layer: None,
        },
        Asked::SplitName(name) => Job::SplitName(name),
    }
}

/// Runs a job over a source and disks, and asserts its output, its message and its status.
fn check(
    rt: &impl Abort,
    alloc: Global,
    asked: Asked,
    (source, disks): (&str, &str),
    streams: Streams,
    (printed, told, status): (&[u8], &[u8], u8),
) {
    let step = streams.step.max(1);
    let made = if streams.flush_fails {
        ShortOut::failing_flush(alloc, step, streams.output)
    } else {
        ShortOut::new(alloc, step, streams.output)
    };
    let mut output = made.expect(rt, "an output");
    let mut messages = ShortOut::new(alloc, step, streams.messages).expect(rt, "a message stream");
    let got = other_whole(
        alloc,
        &job_of(asked),
        &mut parts_of(format_of(asked), source, disks),
        &mut ShortIn::new(b"", 1),
        &mut output,
        &mut messages,
    );
    assert!(rt; output.as_slice() == printed, "the output of {source}");
    assert!(rt; messages.as_slice() == told, "the message of {source}");
    assert_eq!(rt; got, status, "the status of {source}");
}

/// Asserts that a text is printed, and the results if the output fails after each of its bytes or at the flush.
fn check_printed(rt: &impl Abort, alloc: Global, asked: Asked, texts: (&str, &str), text: &[u8]) {
    check(rt, alloc, asked, texts, STEADY, (text, b"", 0));
    for output in 0..text.len() {
        let streams = Streams { output, ..STEADY };
        check(
            rt,
            alloc,
            asked,
            texts,
            streams,
            (&text[..output], WRITE_MESSAGE, 5),
        );
    }
    let streams = Streams {
        flush_fails: true,
        ..STEADY
    };
    check(rt, alloc, asked, texts, streams, (text, WRITE_MESSAGE, 5));
}

/// Asserts that a message is reported, even if the stream of messages fails after each of its bytes.
fn check_told(
    rt: &impl Abort,
    alloc: Global,
    asked: Asked,
    texts: (&str, &str),
    text: &[u8],
    status: u8,
) {
    for messages in 0..text.len() + 1 {
        let streams = Streams { messages, ..STEADY };
        check(
            rt,
            alloc,
            asked,
            texts,
            streams,
            (b"", &text[..messages], status),
        );
    }
}

#[test]
fn outputs_and_messages_fail_after_each_byte(rt: HostRuntime) {
    for &(asked, source, disks, text, status) in &ROWS {
        let (texts, text) = ((source, disks), text.as_bytes());
        if status == 0 {
            check_printed(&rt, rt.alloc(), asked, texts, text);
        } else {
            check_told(&rt, rt.alloc(), asked, texts, text, status);
        }
    }
}
