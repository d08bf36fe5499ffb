//! The messages of a run: at most one in each run, of one line.
//!
//! `specs/runs/Messages.antt` fixes the words, because users match on them. A new ending needs an arm both here and
//! in that file.

ghost use Rattle.dm_stream.specs.Prelude.{length, HasTold, earlier_message, ending_message, refused_request, request_word};
ghost use Rattle.std.specs.Prelude.{◌≡◌, ◌≤◌};

use crate::runs::earlier::EarlierFault;
use crate::runs::ending::{Ending, RequestWord};
use arrayvec::ArrayVec;
use dm_table::{Output, append, append_number, write_all};

/// The text of one message of a run.
pub type Message = ArrayVec<u8, 64>;

/// Writes a message, as far as its stream takes it. Doesn't flush the stream.
pub fn tell<E: Output>(messages: &mut E, message: &[u8])
    ensures { HasTold message.now (E.past messages.old) (E.past messages.new) }
{
    let _ = write_all(messages, message);
}

/// The message for an ending: a line, or empty for `Done`. Allocates nothing.
pub fn message_of(ending: Ending) -> Message
    ensures { result.items ≡ ending_message ending }
{
    let mut text = ArrayVec::new();
    match ending {
        Ending::Done => {}
        Ending::BadRequest(number, word) => return refused_request(number, word_text(word)),
        Ending::ReadFault => append(&mut text, b"dmremap: requests: read\n"),
        Ending::WriteFault => append(&mut text, b"dmremap: output: write\n"),
    }
    text
}

/// The message for a refused request: a line with the request's number and a word of at most 16 bytes for the reason.
/// Allocates nothing.
pub fn refused_request(number: u64, word: &[u8]) -> Message
    requires { length word.now ≤ 16 }
    ensures { result.items ≡ refused_request number word.now }
{
    let mut text = ArrayVec::new();
    append(&mut text, b"dmremap: request ");
    append_number(&mut text, number);
    append(&mut text, b": ");
    append(&mut text, word);
    append(&mut text, b"\n");
    text
}

/// The message for earlier requests that are refused, as one line. Allocates nothing.
pub fn earlier_message(fault: EarlierFault) -> Message
    ensures { result.items ≡ earlier_message fault }
{
    let mut text = ArrayVec::new();
    match fault {
        EarlierFault::BadRequest(number, word) => {
            append(&mut text, b"dmremap: before: ");
            append(&mut text, word_text(word));
            append(&mut text, b" at ");
            append_number(&mut text, number);
            append(&mut text, b"\n");
        }
        EarlierFault::Read => append(&mut text, b"dmremap: before: read\n"),
    }
    text
}

/// The word in messages for what is wrong with a request.
fn word_text(word: RequestWord) -> &'static [u8]
    ensures word { result.now ≡ request_word word }
    ensures short { length result.now ≤ 7 }
{
    match word {
        RequestWord::Long => b"long",
        RequestWord::Unended => b"unended",
        RequestWord::Many => b"many",
        RequestWord::Form => b"form",
        RequestWord::Number => b"number",
        RequestWord::Length => b"length",
        RequestWord::Unknown => b"unknown",
    }
}
