//! The messages of an IPFIX File, which are read one after the other.
ghost use Rattle.std.specs.Prelude.{◌≡◌, ◌++◌, ◌∷◌, ◌<◌, [], List, ℕ, OnOk, Option, is_some, length};
ghost use Rattle.ipfix_read.specs.Message.{MessageView};
ghost use Rattle.flow_files.specs.Reports.{AreReadSoFar, IsFaultOfCall, IsFresh, ReadsInto, ReadsNext};
ghost use Rattle.flow_files.specs.Readers.{Source};

use crate::bytes_fault::BytesFault;
use crate::fault::RunFault;
use crate::inputs::Source;
use flow_io::Input;
use ipfix_read::{Buffer, Message, Progress, ReadFault, ReadFaultKind, calls_join_file};
use std::alloc::{AllocError, Global};

/// What the messages of a File are added to, one after the other.
pub trait TakesMessages {
    // The first value, these messages with their offsets added to it, and the value with them.
    ghost has_messages: { Self → List (ℕ × MessageView) → Self → Type 0 };

    /// Adds a message that begins at this offset of its File. A File has fewer than 2^32 messages.
    fn take_message(&mut self, message: &Message<'_>, offset: u64) -> Result<(), AllocError>
        requires { (first : Self) × (placed : List (ℕ × MessageView)) × has_messages first placed self.old
            × (length placed < 4294967295) }
        ensures { OnOk result ((first : Self) (placed : List (ℕ × MessageView)) → has_messages first placed self.old
            → has_messages first (placed ++ (offset, message.now) ∷ []) self.new) };
}

// Returns the fault for that of a call for a message of the file with this name.
fn fault_of<'a>(name: &'a str, fault: ReadFault) -> RunFault<'a>
    ensures { IsFaultOfCall name.entry.now fault result }
{
    match fault.kind {
        ReadFaultKind::ReadFault => RunFault::CannotRead(name),
        _ => RunFault::of(name, BytesFault::Flows(fault)),
    }
}

// Reads the next message of a File. Returns `None` at the end. A File that isn't there has no messages.
#[inline(always)]
fn next_message<'a, 'b, R: Input>(
    flows: &mut Option<Source<'a, R>>,
    progress: &mut Progress,
    buffer: &'b mut Buffer,
) -> Result<Option<Message<'b>>, RunFault<'a>>
    ensures reads { (start : Option (Source R)) (placed : List (ℕ × MessageView))
        → AreReadSoFar R.input start placed progress.old flows.old
        → ReadsNext R.input start placed progress.old.offset result progress.new flows.new }
    ensures there { is_some flows.new ≡ is_some flows.old }
{
    // Provides the law that the calls so far and the next one read the whole File.
    calls_join_file();
    let Some(source) = flows else {
        return Ok(None);
    };
    match progress.next(&mut source.reader, buffer) {
        Ok(message) => Ok(message),
        Err(fault) => Err(fault_of(source.name, fault)),
    }
}

/// Reads a File message by message into a buffer, and adds each message with its offset.
#[inline(always)]
pub fn add_messages<'a, R: Input, T: TakesMessages>(
    alloc: Global,
    flows: &mut Option<Source<'a, R>>,
    buffer: &mut Buffer,
    taker: &mut T,
) -> Result<(), RunFault<'a>>
    requires fresh { IsFresh R.input flows.old }
    requires none { T.has_messages taker.old [] taker.old }
    ensures reads { ReadsInto R.input (λ placed _. T.has_messages taker.old placed taker.new)
        flows.old flows.new result }
    ensures there { is_some flows.new ≡ is_some flows.old }
{
    let mut progress = Progress::new(alloc);
    let mut offset = progress.offset();
    while let Some(message) = next_message(flows, &mut progress, &mut *buffer)? {
        taker.take_message(&message, offset)?;
        offset = progress.offset();
    }
    Ok(())
}
