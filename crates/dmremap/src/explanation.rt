//! What `dmremap help MESSAGE` prints about the word that a message contains.

ghost use Rattle.dmremap.specs.Prelude.{length, map, option_map, list_any, Does, HasDone, after, before, explanation, first_entries, fits, is_explained, later_entries, part_in, part_meant, table_of, texts_of, word_in, Prints, SaidBy};
ghost use Rattle.dm_table.specs.io.Progress.{Wrote};
ghost use Rattle.std.specs.Prelude.{◌≡◌, ◌<◌};

use crate::exit::Exit;
use crate::messages::{Entry, FIRST_ENTRIES, LATER_ENTRIES};
use crate::printing::write_both;
use dm_table::{OutFault, Output};

/// Whether the manual explains the word of a message.
pub(crate) fn is_explained(message: &str) -> bool
    ensures { result ≡ is_explained message.now }
{
    let word = word_in(message);
    has_entry(table_of(word), None, word)
}

/// Prints the explanation of a message, and returns how the command would exit. Doesn't flush the output.
pub(crate) fn print_explanation<W: Output>(message: &str, output: &mut W) -> Exit
    ensures { HasDone (Does (SaidBy (λ said. Prints (explanation message.now) ≡ said)))
        (W.past output.old) (W.past output.new) result }
{
    Exit::after(write_explanation(message, output))
}

/// Writes the explanation of a message, which may lack its first words. For a word alone, writes all entries of the
/// word, separated by empty lines.
fn write_explanation<W: Output>(message: &str, output: &mut W) -> Result<(), OutFault>
    ensures { Wrote (W.past output.old) (W.past output.new) result (explanation message.now) }
{
    let word = word_in(message);
    let entries = table_of(word);
    write_entries(entries, part_meant(message, word, entries), word, output)
}

/// Writes the entries that explain a word in messages of `part`, or, if no part is given, in any messages.
fn write_entries<W: Output>(
    entries: &[Entry<'_>],
    part: Option<&str>,
    word: &str,
    output: &mut W,
) -> Result<(), OutFault>
    ensures { Wrote (W.past output.old) (W.past output.new) result
        (texts_of (fits (option_map (λ part. part.now) part.entry) word.entry.now)
        (map (λ entry. ((entry.0.0.now, entry.0.1.now), entry.1.now, entry.2.now)) entries.entry.now)) }
{
    let mut between: &[u8] = b"";
    for entry in entries {
        if fits(part, word, entry) {
            write_both(&mut *output, between, entry.2.as_bytes())?;
            between = b"\n";
        }
    }
    Ok(())
}

/// The part of a message, if an entry explains this word in messages of that part.
fn part_meant<'a>(message: &'a str, word: &str, entries: &[Entry<'_>]) -> Option<&'a str>
    ensures { option_map (λ part. part.now) result ≡ part_meant message.entry.now word.now
        (map (λ entry. ((entry.0.0.now, entry.0.1.now), entry.1.now, entry.2.now)) entries.now) }
{
    let part = part_in(message);
    if has_entry(entries, Some(part), word) {
        Some(part)
    } else {
        None
    }
}

/// The table with the entries of a word: the first table if it has any, or else the second.
fn table_of(word: &str) -> &'static [Entry<'static>]
    ensures { map (λ entry. ((entry.0.0.now, entry.0.1.now), entry.1.now, entry.2.now)) result.now ≡ table_of word.now }
{
    let first = first_entries();
    if has_entry(first, None, word) {
        first
    } else {
        later_entries()
    }
}

/// The manual's entries for the first words.
fn first_entries() -> &'static [Entry<'static>]
    ensures { map (λ entry. ((entry.0.0.now, entry.0.1.now), entry.1.now, entry.2.now)) result.now ≡ first_entries }
{
    &FIRST_ENTRIES
}

/// The manual's entries for the words that `first_entries` leaves out.
fn later_entries() -> &'static [Entry<'static>]
    ensures { map (λ entry. ((entry.0.0.now, entry.0.1.now), entry.1.now, entry.2.now)) result.now ≡ later_entries }
{
    &LATER_ENTRIES
}

/// Whether one of the entries explains this word in messages of `part`, or, if no part is given, in any messages.
fn has_entry(entries: &[Entry<'_>], part: Option<&str>, word: &str) -> bool
    ensures { result ≡ list_any (fits (option_map (λ part. part.now) part.entry) word.entry.now)
        (map (λ entry. ((entry.0.0.now, entry.0.1.now), entry.1.now, entry.2.now)) entries.entry.now) }
{
    for entry in entries {
        if fits(part, word, entry) {
            return true;
        }
    }
    false
}

/// Whether the entry explains this word in messages of `part`, or, if no part is given, in any messages.
fn fits(part: Option<&str>, word: &str, entry: &Entry<'_>) -> bool
    ensures { result ≡ fits (option_map (λ part. part.now) part.entry) word.now
        ((entry.now.0.0.now, entry.now.0.1.now), entry.now.1.now, entry.now.2.now) }
{
    match part {
        Some(part) => entry.1 == word && (entry.0.0 == part || entry.0.1 == part),
        None => entry.1 == word,
    }
}

/// The part that a message is about: the first word after `dmremap: `, without the name or number that may follow it.
fn part_in(message: &str) -> &str
    ensures { result.now ≡ part_in message.now }
{
    before(" ", before(": ", after("dmremap: ", message)))
}

/// The word of a message: the end of the message, without ` at PLACE`.
fn word_in(message: &str) -> &str
    ensures { result.now ≡ word_in message.now }
{
    before(" at ", after(": ", after(": ", message)))
}

/// The text before the first `mark`, or the whole text if it contains no mark.
fn before<'a>(mark: &str, text: &'a str) -> &'a str
    requires { 0 < length mark.now }
    ensures { result.now ≡ before mark.now text.now }
{
    match text.split_once(mark) {
        Some((front, _)) => front,
        None => text,
    }
}

/// The text after the first `mark`, or the whole text if it contains no mark.
fn after<'a>(mark: &str, text: &'a str) -> &'a str
    requires { 0 < length mark.now }
    ensures { result.now ≡ after mark.now text.now }
{
    match text.split_once(mark) {
        Some((_, rest)) => rest,
        None => text,
    }
}
