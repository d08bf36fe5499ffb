//! Tests which words are accepted, and the text and exit status of faults that no row of words can show.
//!
//! The words of a row are written as one line, without the program's name. What is reported for words that ask for no
//! job is tested on the built program (`tests/outside`).

use super::*;
use std::process::Abort;

/// The words of a line, preceded by the program's name.
fn words_of<'a>(rt: &impl Abort, alloc: Global, line: &'a str) -> Vec<&'a str> {
    let mut words = Vec::new(alloc);
    words.push("dmremap").expect(rt, "the name");
    for word in line.split_whitespace() {
        words.push(word).expect(rt, "a word");
    }
    words
}

/// A line of words, and the job that the words ask for, in the form that `shown` returns.
static JOBS: [(&str, &str); 29] = [
    ("map table a.table a.disks", "map a.table a.disks"),
    ("map table -- a.table a.disks", "map a.table a.disks"),
    ("map lvm vg0.backup", "map lvm vg0.backup"),
    ("table lvm vg0.backup", "table lvm vg0.backup"),
    ("concise table a.table a.disks", "concise a.table a.disks"),
    ("map concise f d", "map concise f d"),
    ("check table a.table a.disks", "check a.table a.disks"),
    ("replay table a.table a.disks", "replay a.table a.disks"),
    (
        "replay lvm vg0.backup --paths a.paths",
        "stored replay lvm vg0.backup",
    ),
    ("map table -- - d", "map - d"),
    ("name vg0 lv-1", "name vg0 lv-1"),
    ("name vg0 -- -x real", "name vg0 -x real"),
    ("splitname a-b", "splitname a-b"),
    (
        "map table a.table a.disks --status",
        "status of a.table a.disks",
    ),
    (
        "map --status table a.table a.disks",
        "status of a.table a.disks",
    ),
    (
        "map table --status a.table -- a.disks",
        "status of a.table a.disks",
    ),
    ("map lvm --status vg0.backup", "status of lvm vg0.backup"),
    (
        "map table a.table a.disks --before a.requests",
        "map a.table a.disks after a.requests",
    ),
    (
        "map --before=a.requests lvm vg0.backup",
        "map lvm vg0.backup after a.requests",
    ),
    (
        "map lvm vg0.backup --paths= --before a.requests",
        "stored map lvm vg0.backup after a.requests",
    ),
    ("map --before= lvm vg0.backup", "map lvm vg0.backup after "),
    ("map images --status a.paths", "status of images a.paths"),
    (
        "map images a.paths --before=a.requests",
        "map images a.paths after a.requests",
    ),
    ("table images a.paths", "table images a.paths"),
    ("concise images a.paths", "concise images a.paths"),
    ("check images a.paths", "check images a.paths"),
    ("replay images a.paths", "replay images a.paths"),
    ("metadata images a.paths", "metadata images a.paths"),
    (
        "map table --paths a.paths a.table a.disks --status",
        "stored status of a.table a.disks",
    ),
];

/// What `shown` writes for a form: nothing for table text, which most rows have.
fn shown_form(form: TableForm) -> &'static str {
    match form {
        TableForm::Table => "",
        TableForm::Concise => "concise ",
    }
}

/// What `shown` writes for a command, its source and the file of earlier requests.
fn shown_source(
    rt: &impl Abort,
    alloc: Global,
    command: &str,
    source: Source<'_>,
    earlier: Option<&str>,
) -> String {
    let (after, path) = match earlier {
        Some(path) => (" after ", path),
        None => ("", ""),
    };
    let (format, file, disks) = match source {
        Source::Files {
            format,
            file,
            disks,
        } => match format {
            Format::Lvm => ("lvm ", file, disks),
            Format::Tables(form) => (shown_form(form), file, disks),
        },
        Source::Images { list } => ("images ", list, None),
    };
    let text = match disks {
        Some(disks) => format!(in alloc; "{command} {format}{file} {disks}{after}{path}"),
        None => format!(in alloc; "{command} {format}{file}{after}{path}"),
    };
    text.expect(rt, "a text")
}

/// A job as a text, to compare it with an expected one.
fn shown(rt: &impl Abort, alloc: Global, job: Job<'_>) -> String {
    let (command, source, earlier) = match job {
        Job::Map {
            source,
            paths,
            earlier,
            status,
        } => {
            let command = match (paths, status) {
                (Some("a.paths"), true) => "stored status of",
                (Some(_), _) => "stored map",
                (None, true) => "status of",
                (None, false) => "map",
            };
            (command, source, earlier)
        }
        Job::Metadata(list) => ("metadata", Source::Images { list }, None),
        Job::Print { form, source } => match form {
            TableForm::Table => ("table", source, None),
            TableForm::Concise => ("concise", source, None),
        },
        Job::Check(source) => ("check", source, None),
        Job::Replay { source, paths } => {
            let command = match paths {
                Some("a.paths") => "stored replay",
                _ => "replay",
            };
            (command, source, None)
        }
        Job::Read { source, .. } => ("read", source, None),
        Job::Name { vg, lv, layer } => {
            let text = match layer {
                Some(layer) => format!(in alloc; "name {vg} {lv} {layer}"),
                None => format!(in alloc; "name {vg} {lv}"),
            };
            return text.expect(rt, "a text");
        }
        Job::SplitName(name) => return format!(in alloc; "splitname {name}").expect(rt, "a text"),
        Job::Explain(word) => return format!(in alloc; "explain {word}").expect(rt, "a text"),
    };
    shown_source(rt, alloc, command, source, earlier)
}

#[test]
fn jobs(rt: HostRuntime) {
    let alloc = rt.alloc();
    for &(line, wanted) in &JOBS {
        let words = words_of(&rt, alloc, line);
        match read_words(alloc, &words) {
            Ok(job) => assert_eq!(&rt; shown(&rt, alloc, job).as_str(), wanted, "{line}"),
            Err(fault) => panic!(&rt; "{line}: {fault}"),
        }
    }
}

/// Asserts the exit status of a fault, and that its text contains `part`.
fn check_fault(rt: &impl Abort, alloc: Global, fault: &WordsFault, status: u8, part: &str) {
    let text = format!(in alloc; "{fault}").expect(rt, "a text");
    assert!(rt; text.contains(part), "{text}");
    assert_eq!(rt; fault.status(), status, "{text}");
}

#[test]
fn faults(rt: HostRuntime) {
    check_fault(&rt, rt.alloc(), &WordsFault::Memory, 6, "dmremap: memory");
    let fault = read_words(rt.alloc(), &[]).err().expect(&rt, "no job");
    let usage = "Usage: dmremap <COMMAND>";
    check_fault(&rt, rt.alloc(), &fault, 2, usage);
}
