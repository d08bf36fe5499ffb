//! The words of the command line, as clap's builder reads them.
//!
//! The command line is built one word at a time, by functions that hold nothing else when memory runs out. A new
//! command is a line in `program` and one in `job_in` or, if the command loads a source, in `loading_job`. A new format
//! is a word of `FORMATS` and of `format_named`; `images`, whose FILE is a list of paths, is handled in `source_in`.

ghost use Rattle.dmremap.specs.Prelude.{[], IfErr, IfOk, List, codes, false, option_map, true, job_words, range_words, source_words, HasApp, TakeFormats, TakesNames, bare_app, before_rule, command_line, flag_rule, format_named, format_rule, formats, loading_app, map_app, metadata_app, name_app, optional_rule, paths_rule, read_app, replay_app, required_rule, sectors_rule, split_app, version_rule, files_at, has_flag, has_lone_hyphen, images_at, job_in, last_of, loading_job, name_job, number_at, number_of, range_at, range_job, read_from, read_job, said_by, source_in, source_job, word_of, IsCommandOf, IsFaultOf, IsJobOf, IsOfKind, IsRefusedFor, IsTaken, IsUntaken, asked_word, fault_from, is_command, is_unknown, status_of};
ghost use Rattle.clap.specs.Walk.{texts};
ghost use Rattle.clap.specs.Words.{App, Rule, Text, app_of, first_of, found_of, kind_of, new_app, rows_of, rule_of, subcommand_rows_of, with_rule, with_subcommand};
ghost use Rattle.std.specs.Prelude.{◌≡◌, ◌∷◌};
ghost use Rattle.clap.specs.declared.error.kind.ErrorKind.TheVariants as kind;
ghost use Rattle.dmremap.specs.declared.words.WordsFault.TheVariants as fault;

#[cfg(test)]
mod tests;

use crate::explanation::is_explained;
use crate::help;
use crate::job::{Format, Job, SectorRange, Source, TableForm};
use crate::messages::WORDS;
use crate::status::{STATUS_DONE, STATUS_MEMORY, STATUS_WORDS};
use clap::builder::ValueParser;
use clap::error::ErrorKind;
use clap::{Arg, ArgAction, ArgMatches, Command};
use std::alloc::{AllocError, Global};
use std::io;
use thiserror::Error;

/// Why the words of a command line ask for no job.
#[derive(Debug, Drop, Error)]
pub enum WordsFault {
    /// clap refuses the words, or was asked for help or the version; the text comes from clap.
    #[error("{0}")]
    Words(clap::Error),
    /// DISKS or `--paths` is missing although the format needs it, or is given although the format has none; or DEVICE
    /// is missing.
    #[error("dmremap: words: disks")]
    Disks,
    /// Memory ran out.
    #[error("dmremap: memory")]
    Memory,
}

const NOT_TEXT: &str = "invalid UTF-8 was detected in one or more arguments";

const LONE_HYPHEN: &str =
    "unexpected argument '-' found\n\n  tip: /dev/stdin is the standard input";

const FORMATS: &[&str] = &["lvm", "concise", "table", "images"];

const IMAGES: &[&str] = &["images"];

// ---- from clap's matches to a job

/// The text of a word; None if the word wasn't given.
fn text_of<'a>(found: &ArgMatches<'a>, id: &str) -> Option<&'a str>
    ensures { option_map (λ text. text.now) result ≡ first_of id.now (rows_of (found_of found.now)) }
{
    found.get_str(id)
}

/// The text of a required word; clap always has one.
fn word_of<'a>(found: &ArgMatches<'a>, id: &str) -> &'a str
    ensures { result.now ≡ word_of id.now (rows_of (found_of found.now)) }
{
    match text_of(found, id) {
        Some(text) => text,
        None => "",
    }
}

/// Whether a flag was given.
fn has_flag(found: &ArgMatches<'_>, id: &str) -> bool
    ensures { result ≡ has_flag id.now (rows_of (found_of found.now)) }
{
    match text_of(found, id) {
        Some(text) => text == "true",
        None => false,
    }
}

/// The format that a word of `FORMATS` names, unless the word is `images`.
fn format_named(word: &str) -> Format
    ensures { result ≡ format_named word.now }
{
    match word {
        "lvm" => Format::Lvm,
        "concise" => Format::Tables(TableForm::Concise),
        _ => Format::Tables(TableForm::Table),
    }
}

/// The source of these files; None if the format needs DISKS and none is given, or has no DISKS and one is given.
fn files_at<'a>(format: Format, file: &'a str, disks: Option<&'a str>) -> Option<Source<'a>>
    ensures { option_map source_words result
        ≡ files_at format file.entry.now (option_map (λ d. d.now) disks.entry) }
{
    match (format, disks) {
        (Format::Lvm, None) | (Format::Tables(_), Some(_)) => Some(Source::Files {
            format,
            file,
            disks,
        }),
        _ => None,
    }
}

/// The source of a list of images; None if DISKS or `--paths` is given as well.
fn images_at<'a>(
    list: &'a str,
    disks: Option<&'a str>,
    paths: Option<&'a str>,
) -> Option<Source<'a>>
    ensures { option_map source_words result ≡ images_at list.entry.now
        (option_map (λ d. d.now) disks.entry) (option_map (λ p. p.now) paths.entry) }
{
    match (disks, paths) {
        (None, None) => Some(Source::Images { list }),
        _ => None,
    }
}

/// The source that the words of a command name; None if DISKS or `--paths` doesn't fit FORMAT.
fn source_in<'a>(found: &ArgMatches<'a>, disks: Option<&'a str>) -> Option<Source<'a>>
    ensures { option_map source_words result
        ≡ source_in (rows_of (found_of found.now)) (option_map (λ d. d.now) disks.entry) }
{
    let (format, file) = (word_of(found, "format"), word_of(found, "file"));
    if format == "images" {
        images_at(file, disks, text_of(found, "paths"))
    } else {
        files_at(format_named(format), file, disks)
    }
}

/// The job of the command of this name, which loads this source.
fn loading_job<'a>(command: &str, found: &ArgMatches<'a>, source: Source<'a>) -> Job<'a>
    ensures { job_words result
        ≡ loading_job command.now (rows_of (found_of found.now)) (source_words source.entry) }
{
    match command {
        "map" => Job::Map {
            source,
            paths: text_of(found, "paths"),
            earlier: text_of(found, "before"),
            status: has_flag(found, "status"),
        },
        "table" => Job::Print {
            form: TableForm::Table,
            source,
        },
        "concise" => Job::Print {
            form: TableForm::Concise,
            source,
        },
        "check" => Job::Check(source),
        _ => Job::Replay {
            source,
            paths: text_of(found, "paths"),
        },
    }
}

/// The job of a command that loads a source; None if DISKS or `--paths` doesn't fit FORMAT.
fn source_job<'a>(command: &str, found: &ArgMatches<'a>) -> Option<Job<'a>>
    ensures { option_map job_words result ≡ source_job command.now (rows_of (found_of found.now)) }
{
    match source_in(found, text_of(found, "disks")) {
        Some(source) => Some(loading_job(command, found, source)),
        None => None,
    }
}

/// The number that a text spells; clap accepts only texts that spell one.
fn number_of(text: &str) -> Option<u64>
    ensures { result ≡ number_of text.now }
{
    match text.parse() {
        Ok(number) => Some(number),
        Err(_) => None,
    }
}

/// The number of an option; None if the option wasn't given.
fn number_at(found: &ArgMatches<'_>, id: &str) -> Option<u64>
    ensures { result ≡ number_at id.now (rows_of (found_of found.now)) }
{
    match text_of(found, id) {
        Some(text) => number_of(text),
        None => None,
    }
}

/// The range of a device's sectors that the words ask for, by default from sector 0 and up to the end.
fn range_at<'a>(found: &ArgMatches<'a>, device: &'a str) -> SectorRange<'a>
    ensures { range_words result ≡ range_at (rows_of (found_of found.now)) device.entry.now }
{
    SectorRange {
        device,
        from: number_at(found, "from").unwrap_or(0),
        count: number_at(found, "count"),
    }
}

/// DISKS and DEVICE, from two optional words: DEVICE is the last word that was given, and DISKS the one before it.
fn last_of<'a>(
    second: Option<&'a str>,
    third: Option<&'a str>,
) -> (Option<&'a str>, Option<&'a str>)
    ensures { (option_map (λ d. d.now) result.0, option_map (λ d. d.now) result.1)
        ≡ last_of (option_map (λ d. d.now) second.entry) (option_map (λ d. d.now) third.entry) }
{
    match third {
        Some(_) => (second, third),
        None => (None, second),
    }
}

/// The job of `read` from a source; None if the source consists of files and `--paths` isn't given.
fn read_from<'a>(
    source: Source<'a>,
    paths: Option<&'a str>,
    range: SectorRange<'a>,
) -> Option<Job<'a>>
    ensures { option_map job_words result ≡ read_from (source_words source.entry)
        (option_map (λ p. p.now) paths.entry) (range_words range.entry) }
{
    match (source, paths) {
        (Source::Files { .. }, None) => None,
        _ => Some(Job::Read {
            source,
            paths,
            range,
        }),
    }
}

/// The job of `read` for this range; None if DISKS or `--paths` is missing or doesn't fit FORMAT.
fn range_job<'a>(
    found: &ArgMatches<'a>,
    disks: Option<&'a str>,
    range: SectorRange<'a>,
) -> Option<Job<'a>>
    ensures { option_map job_words result ≡ range_job (rows_of (found_of found.now))
        (option_map (λ d. d.now) disks.entry) (range_words range.entry) }
{
    match source_in(found, disks) {
        Some(source) => read_from(source, text_of(found, "paths"), range),
        None => None,
    }
}

/// The job of `read`; None if a word is missing, or doesn't fit FORMAT.
fn read_job<'a>(found: &ArgMatches<'a>) -> Option<Job<'a>>
    ensures { option_map job_words result ≡ read_job (rows_of (found_of found.now)) }
{
    let (disks, device) = last_of(text_of(found, "disks"), text_of(found, "device"));
    match device {
        Some(device) => range_job(found, disks, range_at(found, device)),
        None => None,
    }
}

/// The job of `name`.
fn name_job<'a>(found: &ArgMatches<'a>) -> Job<'a>
    ensures { job_words result ≡ name_job (rows_of (found_of found.now)) }
{
    Job::Name {
        vg: word_of(found, "vg"),
        lv: word_of(found, "lv"),
        layer: text_of(found, "layer"),
    }
}

/// The job of the command of this name with these words; None if DISKS or `--paths` is missing or doesn't fit FORMAT.
fn job_in<'a>(command: &str, found: &ArgMatches<'a>) -> Option<Job<'a>>
    ensures { option_map job_words result ≡ job_in command.now (rows_of (found_of found.now)) }
{
    match command {
        "name" => Some(name_job(found)),
        "splitname" => Some(Job::SplitName(word_of(found, "name"))),
        "metadata" => Some(Job::Metadata(word_of(found, "file"))),
        "read" => read_job(found),
        _ => source_job(command, found),
    }
}

/// The job of the subcommand that clap found; clap refuses words without a subcommand.
fn said_by<'a>(matches: &ArgMatches<'a>) -> Option<Job<'a>>
    ensures { option_map job_words result ≡ said_by (subcommand_rows_of matches.now) }
{
    match matches.subcommand() {
        Some((command, found)) => job_in(command, found),
        None => None,
    }
}

// ---- faults

impl WordsFault {
    /// The exit status of the fault: done for help or the version, and otherwise the status for bad words or for
    /// running out of memory.
    pub fn status(&self) -> u8
        ensures { result ≡ status_of self.now }
    {
        match self {
            WordsFault::Words(error) => {
                if error.use_stderr() {
                    STATUS_WORDS
                } else {
                    STATUS_DONE
                }
            }
            WordsFault::Disks => STATUS_WORDS,
            WordsFault::Memory => STATUS_MEMORY,
        }
    }

    /// Whether the fault is that a command is unknown.
    fn is_unknown(&self) -> bool
        ensures { result ≡ is_unknown self.now }
    {
        match self {
            WordsFault::Words(error) => match error.kind() {
                ErrorKind::InvalidSubcommand => true,
                _ => false,
            },
            _ => false,
        }
    }

    /// Prints the fault: help or the version, if asked for, to the standard output, and anything else to the standard
    /// error.
    pub fn print<R: Print + Eprint>(&self, rt: &R) -> io::Result<()> {
        match self {
            WordsFault::Words(error) => error.print(rt),
            _ => rt.eprintln(self),
        }
    }
}

impl From<clap::Error> for WordsFault {
    ghost from_gives = { λ error f. f ≡ fault_from error };

    fn from(error: clap::Error) -> WordsFault {
        match error.kind() {
            ErrorKind::OutOfMemory => WordsFault::Memory,
            _ => WordsFault::Words(error),
        }
    }
}

impl From<AllocError> for WordsFault {
    ghost from_gives = { λ _ f. f ≡ fault.Memory };

    fn from(_error: AllocError) -> WordsFault {
        WordsFault::Memory
    }
}

// ---- the command line

/// The parser of FORMAT for commands that accept every format.
fn format_parser<'a>() -> ValueParser<'a>
    ensures { TakesNames formats result }
{
    ValueParser::Names(FORMATS)
}

/// The parser of FORMAT for `metadata`, whose only format is `images`.
fn images_parser<'a>() -> ValueParser<'a>
    ensures { TakesNames (codes "images" ∷ []) result }
{
    ValueParser::Names(IMAGES)
}

/// A required argument.
fn required<'a>(alloc: Global, id: &'a str, value_name: &'a str, help: &'a str) -> Arg<'a>
    ensures rule { rule_of result ≡ required_rule id.entry.now }
    ensures local { result.global ≡ false }
{
    Arg::new(alloc, id)
        .value_name(value_name)
        .help(help)
        .required(true)
}

/// An optional argument.
fn optional<'a>(alloc: Global, id: &'a str, value_name: &'a str, help: &'a str) -> Arg<'a>
    ensures rule { rule_of result ≡ optional_rule id.entry.now }
    ensures local { result.global ≡ false }
{
    Arg::new(alloc, id).value_name(value_name).help(help)
}

/// FORMAT: a required argument that must be one of the words of this parser.
fn format_argument<'a>(alloc: Global, parser: ValueParser<'a>) -> Arg<'a>
    ensures rule { rule_of result ≡ format_rule parser.entry }
    ensures local { result.global ≡ false }
{
    required(alloc, "format", "FORMAT", help::FORMAT_HELP).value_parser(parser)
}

/// A flag `--ID`, given at most once.
fn flag<'a>(alloc: Global, id: &'a str, action: ArgAction, help: &'a str) -> Arg<'a>
    ensures rule { rule_of result ≡ flag_rule id.entry.now action }
    ensures local { result.global ≡ false }
{
    Arg::new(alloc, id).long(id).action(action).help(help)
}

/// The option `--before` for a file of earlier requests.
fn before_option<'a>(alloc: Global) -> Arg<'a>
    ensures rule { rule_of result ≡ before_rule }
    ensures local { result.global ≡ false }
{
    optional(alloc, "before", "REQUESTS", help::BEFORE_HELP).long("before")
}

/// The option `--paths` for a list of paths.
fn paths_option<'a>(alloc: Global) -> Arg<'a>
    ensures rule { rule_of result ≡ paths_rule }
    ensures local { result.global ≡ false }
{
    optional(alloc, "paths", "PATHS", help::PATHS_HELP).long("paths")
}

/// An option `--ID` for a number of sectors.
fn sectors_option<'a>(alloc: Global, id: &'a str, value_name: &'a str, help: &'a str) -> Arg<'a>
    ensures rule { rule_of result ≡ sectors_rule id.entry.now }
    ensures local { result.global ≡ false }
{
    optional(alloc, id, value_name, help)
        .long(id)
        .value_parser(ValueParser::unsigned(0, u64::MAX))
}

/// A command with help texts, but without arguments.
fn titled<'a>(alloc: Global, name: &'a str, about: &'a str, notes: &'a str) -> Command<'a>
    ensures { app_of result ≡ new_app name.entry.now }
{
    Command::new(alloc, name).about(about).after_help(notes)
}

/// Adds an argument to a command, unless memory ran out.
fn with_word<'a>(
    command: Result<Command<'a>, AllocError>,
    word: Arg<'a>,
) -> Result<Command<'a>, AllocError>
    requires local { word.global ≡ false }
    ensures { (app : App) (rule : Rule) → HasApp app command.entry → rule_of word.entry ≡ rule
        → HasApp (with_rule app rule) result }
{
    command?.arg(word)
}

/// Sets the usage line in the help of a command, unless memory ran out.
fn with_usage<'a>(
    command: Result<Command<'a>, AllocError>,
    usage: &'a str,
) -> Result<Command<'a>, AllocError>
    ensures { (app : App) → HasApp app command.entry → HasApp app result }
{
    Ok(command?.override_usage(usage))
}

/// Adds a subcommand to the command line, unless memory ran out.
fn with_command<'a>(
    line: Result<Command<'a>, AllocError>,
    command: Result<Command<'a>, AllocError>,
) -> Result<Command<'a>, AllocError>
    ensures { (app added : App) → HasApp app line.entry → HasApp added command.entry
        → added.top.is_plain ≡ true → HasApp (with_subcommand app added.top) result }
{
    line?.subcommand(command?)
}

/// A command that loads a source, `NAME FORMAT FILE [DISKS]`.
fn loading_command<'a>(
    alloc: Global,
    parser: ValueParser<'a>,
    name: &'a str,
    about: &'a str,
    notes: &'a str,
) -> Result<Command<'a>, AllocError>
    ensures { HasApp (loading_app name.entry.now parser.entry) result }
{
    let command = Ok(titled(alloc, name, about, notes));
    let command = with_word(command, format_argument(alloc, parser));
    let command = with_word(command, required(alloc, "file", "FILE", help::FILE_HELP));
    with_word(command, optional(alloc, "disks", "DISKS", help::DISKS_HELP))
}

/// `map FORMAT FILE [DISKS] [--status] [--before REQUESTS] [--paths PATHS]`.
fn map_command<'a>(alloc: Global, parser: ValueParser<'a>) -> Result<Command<'a>, AllocError>
    ensures { HasApp (map_app parser.entry) result }
{
    let command = loading_command(alloc, parser, "map", help::MAP_ABOUT, help::MAP_NOTES);
    let command = with_word(
        command,
        flag(
            alloc,
            "status",
            ArgAction::SetTrue,
            help::STATUS_OPTION_HELP,
        ),
    );
    let command = with_word(command, before_option(alloc));
    with_word(command, paths_option(alloc))
}

/// `replay FORMAT FILE [DISKS] [--paths PATHS]`.
fn replay_command<'a>(alloc: Global, parser: ValueParser<'a>) -> Result<Command<'a>, AllocError>
    ensures { HasApp (replay_app parser.entry) result }
{
    let command = loading_command(
        alloc,
        parser,
        "replay",
        help::REPLAY_ABOUT,
        help::REPLAY_NOTES,
    );
    with_word(command, paths_option(alloc))
}

/// `read FORMAT FILE [DISKS] DEVICE [--from SECTOR] [--count SECTORS] [--paths PATHS]`.
fn reading_command<'a>(alloc: Global, parser: ValueParser<'a>) -> Result<Command<'a>, AllocError>
    ensures { HasApp (read_app parser.entry) result }
{
    let command = loading_command(alloc, parser, "read", help::READ_ABOUT, help::READ_NOTES);
    let device = optional(alloc, "device", "DEVICE", help::DEVICE_HELP);
    let command = with_word(command, device);
    let from = sectors_option(alloc, "from", "SECTOR", help::FROM_HELP);
    let command = with_word(command, from);
    let count = sectors_option(alloc, "count", "SECTORS", help::COUNT_HELP);
    let command = with_word(command, count);
    with_usage(with_word(command, paths_option(alloc)), help::READ_USAGE)
}

/// `metadata images PATHS`.
fn metadata_command<'a>(alloc: Global, parser: ValueParser<'a>) -> Result<Command<'a>, AllocError>
    ensures { HasApp (metadata_app parser.entry) result }
{
    let command = Ok(titled(
        alloc,
        "metadata",
        help::METADATA_ABOUT,
        help::METADATA_NOTES,
    ));
    let command = with_word(command, format_argument(alloc, parser));
    with_word(command, required(alloc, "file", "PATHS", help::IMAGES_HELP))
}

/// `name VG LV [LAYER]`.
fn name_command<'a>(alloc: Global) -> Result<Command<'a>, AllocError>
    ensures { HasApp name_app result }
{
    let command = Ok(titled(alloc, "name", help::NAME_ABOUT, help::NAME_NOTES));
    let command = with_word(command, required(alloc, "vg", "VG", help::VG_HELP));
    let command = with_word(command, required(alloc, "lv", "LV", help::LV_HELP));
    with_word(command, optional(alloc, "layer", "LAYER", help::LAYER_HELP))
}

/// `splitname NAME`.
fn split_command<'a>(alloc: Global) -> Result<Command<'a>, AllocError>
    ensures { HasApp split_app result }
{
    let command = Ok(titled(alloc, "splitname", help::SPLIT_ABOUT, help::SPLIT_NOTES));
    with_word(command, required(alloc, "name", "NAME", help::NAME_HELP))
}

/// The program with help texts and a version, but without commands and flags.
fn bare_program<'a>(alloc: Global) -> Command<'a>
    ensures { app_of result ≡ bare_app }
{
    titled(alloc, "dmremap", help::ABOUT, help::NOTES)
        .subcommand_required(true)
        .arg_required_else_help(true)
        .version(help::VERSION)
        .disable_version_flag(true)
}

/// The program with its version flag, but without commands. The flag has no short form, unlike clap's own version flag.
fn program_alone<'a>(alloc: Global) -> Result<Command<'a>, AllocError>
    ensures { HasApp (with_rule bare_app version_rule) result }
{
    let version = flag(alloc, "version", ArgAction::Version, help::VERSION_HELP);
    with_word(Ok(bare_program(alloc)), version)
}

/// The whole command line: the program with all of its commands.
fn program<'a>(alloc: Global) -> Result<Command<'a>, AllocError>
    ensures { (parsers : _) × TakeFormats parsers × HasApp (command_line parsers) result }
{
    let parser = format_parser();
    let images = images_parser();
    let line = with_command(program_alone(alloc), map_command(alloc, parser));
    let line = with_command(
        line,
        loading_command(alloc, parser, "table", help::TABLE_ABOUT, help::TABLE_NOTES),
    );
    let line = with_command(
        line,
        loading_command(
            alloc,
            parser,
            "concise",
            help::CONCISE_ABOUT,
            help::CONCISE_NOTES,
        ),
    );
    let line = with_command(
        line,
        loading_command(alloc, parser, "check", help::CHECK_ABOUT, help::CHECK_NOTES),
    );
    let line = with_command(line, replay_command(alloc, parser));
    let line = with_command(line, reading_command(alloc, parser));
    let line = with_command(line, metadata_command(alloc, images));
    let line = with_command(line, name_command(alloc));
    with_command(line, split_command(alloc))
}

// ---- words

/// The fault for an argument that isn't UTF-8; the words can't be read then.
pub fn not_text(alloc: Global) -> WordsFault
    ensures { IsOfKind kind.InvalidValue result }
{
    refusal(alloc, ErrorKind::InvalidValue, NOT_TEXT)
}

/// A refusal by the program itself rather than by clap, in the form of clap's errors.
fn refusal(alloc: Global, kind: ErrorKind, text: &str) -> WordsFault
    ensures { IsOfKind kind result }
{
    match refusal_error(alloc, kind, text) {
        Ok(error) => WordsFault::Words(error),
        Err(AllocError) => WordsFault::Memory,
    }
}

/// The refusal of a word that `help` can't explain; its text lists the words that `help` explains.
fn unknown_word(alloc: Global, word: &str) -> WordsFault
    ensures { IsOfKind kind.InvalidSubcommand result }
{
    match format!(in alloc;
        "unrecognized subcommand '{word}'\n\nWords of messages that help knows:{WORDS}"
    ) {
        Ok(text) => refusal(alloc, ErrorKind::InvalidSubcommand, text.as_str()),
        Err(AllocError) => WordsFault::Memory,
    }
}

/// The fault for refused words; for `help` with an unknown word, a fault that lists the words that `help` explains.
fn with_words_listed(alloc: Global, words: &[&str], fault: WordsFault) -> WordsFault
    ensures { (texts : List Text) → IsUntaken texts fault → IsUntaken texts result }
{
    match (words, fault.is_unknown()) {
        ([_, help, word], true) if *help == "help" => unknown_word(alloc, word),
        _ => fault,
    }
}

/// An error in the form of clap's, of this kind and with this text.
fn refusal_error(alloc: Global, kind: ErrorKind, text: &str) -> Result<clap::Error, AllocError>
    ensures { IfOk result (λ error. kind_of error ≡ kind) }
{
    program(alloc)?.error(kind, text)
}

/// Whether one of the words after the program's name, before the first `--`, is a lone hyphen.
fn has_lone_hyphen(words: &[&str]) -> bool
    ensures { result ≡ has_lone_hyphen (texts words.now) }
{
    let [_, rest @ ..] = words else {
        return false;
    };
    for word in rest {
        if *word == "--" {
            return false;
        }
        if *word == "-" {
            return true;
        }
    }
    false
}

/// The job that words ask for if clap accepts them; None if DISKS or `--paths` doesn't fit FORMAT.
fn read_taken<'a>(alloc: Global, words: &'a [&'a str]) -> Result<Option<Job<'a>>, WordsFault>
    ensures taken { IfOk result (λ said. IsTaken (texts words.now) (option_map job_words said)) }
    ensures untaken { IfErr result (IsUntaken (texts words.now)) }
{
    let matches = program(alloc)?.try_get_matches_from(words)?;
    Ok(said_by(&matches))
}

/// The job of the command that the words ask for.
fn read_command<'a>(alloc: Global, words: &'a [&'a str]) -> Result<Job<'a>, WordsFault>
    ensures job { IfOk result (IsCommandOf (texts words.now)) }
    ensures fault { IfErr result (IsRefusedFor (texts words.now)) }
{
    if has_lone_hyphen(words) {
        return Err(refusal(alloc, ErrorKind::UnknownArgument, LONE_HYPHEN));
    }
    match read_taken(alloc, words) {
        Ok(Some(job)) => Ok(job),
        Ok(None) => Err(WordsFault::Disks),
        Err(fault) => Err(with_words_listed(alloc, words, fault)),
    }
}

/// Whether a word of messages is also the name of a command, so that `help` with this word explains the command.
fn is_command(word: &str) -> bool
    ensures { result ≡ is_command word.now }
{
    word == "name" || word == "read"
}

/// The word that `help WORD` is to explain, if it is no command and has an explanation.
fn asked_word<'a>(words: &'a [&'a str]) -> Option<&'a str>
    ensures { option_map (λ word. word.now) result ≡ asked_word (texts words.now) }
{
    match words {
        [_, help, asked] if *help == "help" && !is_command(asked) && is_explained(asked) => {
            Some(asked)
        }
        _ => None,
    }
}

/// The job that the words ask for; the first word is the program's name. No file is opened. `help` with a word of
/// messages is a job; any other request for help or the version, and no word at all, is a fault with the text to print.
/// A lone hyphen before the first `--`, which clap would accept as a value, is refused, whatever the other words are.
/// DISKS that is missing or not allowed is reported only if clap accepts the words. The command line is built anew at
/// each call, and once more if the program itself refuses the words; the words are scanned twice.
pub fn read_words<'a>(alloc: Global, words: &'a [&'a str]) -> Result<Job<'a>, WordsFault>
    ensures job { IfOk result (IsJobOf (texts words.now)) }
    ensures fault { IfErr result (IsFaultOf (texts words.now)) }
{
    match asked_word(words) {
        Some(word) => Ok(Job::Explain(word)),
        None => read_command(alloc, words),
    }
}
