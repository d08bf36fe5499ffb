//! How a command exits: its status and its message.
//!
//! A command does its work and returns an `Exit`; only then is the output closed and the message written. A new way to
//! exit is a variant of `Exit`, with a status and a message here and in `specs/Exit.antt`.

ghost use Rattle.dmremap.specs.Prelude.{OnErr, OnOk, false, Exit, exit_after, exit_message, exit_status, is_refused, load_status, name_status, refusal_status, Exits, IsClosedAs, Ended, Refused, WriteFault};
ghost use Rattle.dmremap.specs.declared.exit.Refusal.TheVariants.{Load};
ghost use Rattle.std.specs.Prelude.{◌≡◌, ◌≢◌};

use crate::status::{
    STATUS_BAD_REQUEST, STATUS_DONE, STATUS_MEMORY, STATUS_READ_FAULT, STATUS_REFUSED,
    STATUS_STOPPED, STATUS_WRITE_FAULT,
};
use dm_read::Stop;
use dm_store::StoreMessage;
use dm_stream::{
    EarlierFault, Ending, close_and_tell, earlier_message, message_of, refused_request, tell,
};
use dm_table::{LoadFault, LoadKind, LoadMessage, OutFault, Output, append, memory_message};
use lvm_head::HeadMessage;
use lvm_volume::NameFault;

/// Why a command was refused before it wrote anything.
#[derive(Drop)]
pub(crate) enum Refusal {
    /// The load or the list of paths was refused.
    Load(LoadFault),
    /// The head of a disk was refused, with this message.
    Head(HeadMessage),
    /// An exception store was refused, with this message.
    Store(StoreMessage),
    /// The requests of `--before` were refused.
    Earlier(EarlierFault),
    /// The name can't be built.
    Name(NameFault),
    /// No parts would build the name to be split.
    Split,
    /// `replay` refused the stack, because two of its claims clash.
    Untidy,
    /// No device of the stack has the requested name.
    Device,
    /// The requested sectors go past the end of their device.
    PastEnd,
}

/// How a command exits.
#[derive(Drop)]
pub(crate) enum Exit {
    /// The command was refused, and wrote nothing.
    Refused(Refusal),
    /// The command wrote all of its output, or was ended by a bad request or by a stream that failed.
    Ended(Ending),
    /// The request with this number names no top device; the requests before it were answered.
    NotTop(u64),
    /// Memory ran out at a request; the requests before it were answered.
    Memory,
    /// A sector of a device can't be read; the sectors before it were written.
    Stopped(Stop),
}

impl Refusal {
    /// The exit status of a command that is refused for this reason.
    fn status(&self) -> u8
        ensures { result ≡ refusal_status self.now }
    {
        match self {
            Refusal::Load(fault) => load_status(fault.kind),
            Refusal::Name(fault) => name_status(*fault),
            _ => STATUS_REFUSED,
        }
    }

    /// Writes the message of the refusal, and returns the exit status.
    pub(crate) fn tell<M: Output>(&self, messages: &mut M) -> u8
        ensures { Exits (Refused self.now) result (M.past messages.old) (M.past messages.new) }
    {
        match self {
            Refusal::Load(fault) => tell(messages, fault.message().as_slice()),
            Refusal::Head(message) => tell(messages, message.as_slice()),
            Refusal::Store(message) => tell(messages, message.as_slice()),
            Refusal::Earlier(fault) => tell(messages, earlier_message(*fault).as_slice()),
            Refusal::Name(fault) => tell(messages, fault.message()),
            Refusal::Split => tell(messages, b"dmremap: name: split\n"),
            Refusal::Untidy => tell(messages, b"dmremap: replay: untidy\n"),
            Refusal::Device => tell(messages, b"dmremap: device: unknown\n"),
            Refusal::PastEnd => tell(messages, b"dmremap: device: range\n"),
        }
        self.status()
    }
}

/// The exit status of a load that is refused.
fn load_status(kind: LoadKind) -> u8
    ensures { result ≡ load_status kind }
{
    match kind {
        LoadKind::Memory => STATUS_MEMORY,
        _ => STATUS_REFUSED,
    }
}

/// The exit status for a name that can't be built.
fn name_status(fault: NameFault) -> u8
    ensures { result ≡ name_status fault }
{
    match fault {
        NameFault::Memory => STATUS_MEMORY,
        _ => STATUS_REFUSED,
    }
}

impl Exit {
    /// The exit of a command whose load was refused.
    pub(crate) fn unloaded(fault: LoadFault) -> Exit
        ensures { result ≡ Refused (Load fault) }
    {
        Exit::Refused(Refusal::Load(fault))
    }

    /// The exit of a command that wrote all of its text, or whose write failed.
    pub(crate) fn after(written: Result<(), OutFault>) -> Exit
        ensures { result ≡ exit_after written }
    {
        match written {
            Ok(()) => Exit::Ended(Ending::Done),
            Err(OutFault) => Exit::Ended(Ending::WriteFault),
        }
    }

    /// The exit status of the command.
    pub(crate) fn status(&self) -> u8
        ensures { result ≡ exit_status self.now }
    {
        match self {
            Exit::Refused(refusal) => refusal.status(),
            Exit::Ended(Ending::Done) => STATUS_DONE,
            Exit::Ended(Ending::BadRequest(_, _)) | Exit::NotTop(_) => STATUS_BAD_REQUEST,
            Exit::Ended(Ending::ReadFault) => STATUS_READ_FAULT,
            Exit::Ended(Ending::WriteFault) => STATUS_WRITE_FAULT,
            Exit::Memory => STATUS_MEMORY,
            Exit::Stopped(_) => STATUS_STOPPED,
        }
    }

    /// The message for the exit, unless it is a refusal: one line, or empty if the command did all that was asked.
    fn message(&self) -> LoadMessage
        requires { is_refused self.now ≡ false }
        ensures { result.items ≡ exit_message self.now }
    {
        let mut text = LoadMessage::new();
        match self {
            Exit::Refused(_) => unreachable!(),
            Exit::Ended(ending) => append(&mut text, message_of(*ending).as_slice()),
            Exit::NotTop(number) => {
                append(&mut text, refused_request(*number, b"not top").as_slice());
            }
            Exit::Memory => append(&mut text, memory_message()),
            Exit::Stopped(stop) => append(&mut text, stop.message().as_slice()),
        }
        text
    }

    /// Writes the message for the exit, if there is one, and returns the exit status. Doesn't close the output.
    pub(crate) fn tell<M: Output>(&self, messages: &mut M) -> u8
        ensures { Exits self.now result (M.past messages.old) (M.past messages.new) }
    {
        if let Exit::Refused(refusal) = self {
            return refusal.tell(messages);
        }
        tell(messages, self.message().as_slice());
        self.status()
    }

    /// Whether the command was refused before it wrote anything.
    fn is_refused(&self) -> bool
        ensures { result ≡ is_refused self.now }
    {
        match self {
            Exit::Refused(_) => true,
            _ => false,
        }
    }

    /// The result of the command's writes: an error if one of them failed.
    fn written(&self) -> Result<(), OutFault>
        ensures ok { OnOk result (self.now ≢ Ended WriteFault) }
        ensures err { OnErr result (self.now ≡ Ended WriteFault) }
    {
        match self {
            Exit::Ended(Ending::WriteFault) => Err(OutFault),
            _ => Ok(()),
        }
    }

    /// Closes the output for a command that would exit like this, unless the command was refused. Then writes the
    /// message, if there is one, and returns the exit status.
    pub(crate) fn finish<W: Output, M: Output>(&self, output: &mut W, messages: &mut M) -> u8
        ensures { (exit : Exit) × IsClosedAs self.now (W.past output.old) (W.past output.new) exit
            × Exits exit result (M.past messages.old) (M.past messages.new) }
    {
        if self.is_refused() {
            return self.tell(messages);
        }
        match close_and_tell(self.written(), self.message().as_slice(), output, messages) {
            Ok(()) => self.status(),
            Err(OutFault) => STATUS_WRITE_FAULT,
        }
    }
}
