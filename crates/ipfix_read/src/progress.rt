//! Reading a File message by message.
ghost use Rattle.std.specs.Prelude.{◌≡◌, false, IfOk, MatchResult, length, vec_len};
ghost use Rattle.flow_io.specs.Devices.{ReadsInput, has_ended};
ghost use Rattle.std.specs.Result.{result_map_both};
ghost use Rattle.ipfix_templates.specs.InForce.{no_templates};
ghost use Rattle.ipfix_read.specs.Fault.{is_of_reader};
ghost use Rattle.ipfix_read.specs.Messages.{AnswersCall, CountsMessage, Decodes, Gathers, GathersCall, HoldsMessage};
ghost use Rattle.ipfix_read.specs.Messages.{ProgressView, IsAt, front_in};

use crate::fault::{ReadFault, ReadFaultKind};
use crate::message::{MESSAGE_HEADER, Message, header_length, whole_message};
use flow_io::{Input, fill};
use ipfix_templates::TemplateTable;
use std::alloc::{AllocError, Global};
use std::marker::Model;

// The maximum length of a message in bytes.
const LONGEST_MESSAGE: usize = 65_535;

/// The one buffer that messages are read into. It has room for the longest message, and messages borrow from it.
#[derive(Drop)]
pub struct Buffer {
    bytes: Vec<u8>,
    ghost sized: { vec_len bytes ≡ 65535 },
}

impl Buffer {
    /// Allocates the buffer.
    pub fn new(alloc: Global) -> Result<Self, AllocError> {
        let bytes = vec![in alloc; 0u8; LONGEST_MESSAGE]?;
        Ok(Buffer { bytes })
    }

    // Returns the bytes, of which a message that was read is the first part.
    fn bytes(&self) -> &[u8]
        ensures { result.now ≡ self.now.bytes.items }
    {
        self.bytes.as_slice()
    }
}

// Reads the next message, which follows `count` messages, to the start of a buffer, and returns its length: first its
// header, then the rest of the length that the header gives. Returns `None` at the end of the input.
fn gather<R: Input>(
    reader: &mut R,
    count: u32,
    buffer: &mut [u8],
) -> Result<Option<usize>, ReadFaultKind>
    requires { length buffer.old ≡ 65535 }
    ensures gathers { ReadsInput (R.input reader.old) (R.input reader.new)
        (Gathers count (result_map_both (front_in buffer.new) (λ kind. kind) result)
        (has_ended (R.input reader.new))) }
    ensures whole { HoldsMessage count buffer.new result }
    ensures device { (R.input reader.old).failed ≡ false → MatchResult result
        (λ _. (R.input reader.new).failed ≡ false) (λ kind. (R.input reader.new).failed ≡ is_of_reader kind) }
{
    match fill(reader, &mut buffer[..MESSAGE_HEADER])? {
        0 => return Ok(None),
        MESSAGE_HEADER => {}
        _ => return Err(ReadFaultKind::TruncatedHeader),
    }
    let size = header_length(count, &buffer[..MESSAGE_HEADER])?;
    if fill(reader, &mut buffer[MESSAGE_HEADER..size])? < size - MESSAGE_HEADER {
        return Err(ReadFaultKind::TruncatedMessage);
    }
    Ok(Some(size))
}

/// Whether a call for the next message may return one.
#[derive(Clone, Copy)]
pub enum State {
    /// Messages may follow.
    Going,
    /// The end of the File was reached.
    Ended,
    /// A call failed.
    Failed,
}

/// The state between two calls for a message: the templates in force, the offset in the File, the number of messages
/// read, and whether there may be more messages.
#[derive(Drop)]
pub struct Progress {
    alloc: Global,
    table: TemplateTable,
    offset: u64,
    count: u32,
    state: State,
}

impl Model for Progress {
    ghost use Rattle.std.specs.Prelude.{◌*◌, ◌≤◌};
    ghost use Rattle.std.specs.Coded.{codes};
    ghost use Rattle.ipfix_templates.specs.contracts.table.TemplateTable as templates;
    ghost use Rattle.ipfix_read.specs.Messages.{ProgressView};

    ghost Value = { ProgressView };

    ghost coded = { Prim.hlevel (codes, templates.the_row.coded) };

    ghost view = { λ p. record { table = p.table; offset = p.offset; count = p.count; state = p.state } };

    ghost invariant = { λ p. (p.count ≤ 4294967295) × (p.offset ≤ 65535 * p.count) };
}

impl Progress {
    /// Returns the state at the beginning of a File.
    pub fn new(alloc: Global) -> Self
        ensures { IsAt no_templates 0 0 result }
    {
        Progress {
            alloc,
            table: TemplateTable::new(alloc),
            offset: 0,
            count: 0,
            state: State::Going,
        }
    }

    /// Returns the offset in the File at which the next message begins.
    pub fn offset(&self) -> u64
        ensures { result ≡ self.now.offset }
    {
        self.offset
    }

    // Reads the next message to the start of a buffer, and returns its length. Returns `None` at the end of the File,
    // and `Failed` after a fault.
    fn gather<R: Input>(
        &self,
        reader: &mut R,
        buffer: &mut Buffer,
    ) -> Result<Option<usize>, ReadFault>
        ensures call { GathersCall R.input self.now reader.old buffer.new.bytes.items result reader.new }
        ensures whole { HoldsMessage self.now.count buffer.new.bytes.items result }
    {
        match self.state {
            State::Going => gather(reader, self.count, buffer.bytes.as_mut_slice()).map_err(
                |kind| kind.at(self.offset),
            ),
            State::Ended => Ok(None),
            State::Failed => Err(ReadFaultKind::Failed.at(0)),
        }
    }

    /// Returns the next message of the File, which borrows from the buffer. Returns `None` at the end of the File and
    /// in each call after it. The reader is asked for the missing bytes of the message's header, then for the missing
    /// bytes of the message, and for no others.
    ///
    /// # Errors
    ///
    /// Returns the first fault of the File if it is in the message that is read, `ReadFault` if the reader fails before
    /// that fault, or `NoMemory` if an allocation fails. After any of these each call returns `Failed`.
    pub fn next<'b, R: Input>(
        &mut self,
        reader: &mut R,
        buffer: &'b mut Buffer,
    ) -> Result<Option<Message<'b>>, ReadFault>
        ensures call { AnswersCall R.input self.old reader.old result self.new reader.new }

        // `counted` says less than `call`, in a form that is simpler to use.
        ensures counted { CountsMessage self.old result self.new }
    {
        let found = self.gather(reader, &mut *buffer);
        let bytes = buffer.bytes();
        Decoder {
            progress: self,
            bytes,
        }
        .decode(found)
    }
}

// What a message is decoded with: the state between two calls, and the bytes of the buffer, from which the message
// borrows.
struct Decoder<'p, 'b> {
    progress: &'p mut Progress,
    bytes: &'b [u8],
}

impl<'b> Decoder<'_, 'b> {
    // Decodes the message that was read to the start of the buffer, and changes the state to that after it.
    fn decode(
        self,
        found: Result<Option<usize>, ReadFault>,
    ) -> Result<Option<Message<'b>>, ReadFault>
        requires { HoldsMessage self.progress.now.count self.bytes.now found }
        ensures { Decodes self.entry.progress.now self.entry.bytes.now found result self.exit.0.now }
    {
        let Decoder { progress, bytes } = self;
        // The state stays `Failed` unless a message or the end of the File is returned.
        progress.state = State::Failed;
        let size = match found {
            Ok(Some(size)) => size,
            Ok(None) => {
                progress.state = State::Ended;
                return Ok(None);
            }
            Err(fault) => return Err(fault),
        };
        let message = whole_message(
            progress.alloc,
            &mut progress.table,
            &bytes[..size],
            progress.offset,
        )?;
        progress.state = State::Going;
        progress.count += 1;
        progress.offset += size as u64;
        Ok(Some(message))
    }
}

/// What `Messages` keeps between two calls.
#[derive(Drop)]
pub struct Kept {
    /// The state.
    pub progress: Progress,
    /// The bytes of the last message.
    pub buffer: Buffer,
}

impl Kept {
    ghost use Rattle.std.specs.Borrow.{sem};
    ghost use Rattle.ipfix_read.specs.Lending.{LendsProgress};

    // Lends what the next message is decoded with.
    fn decoder(&mut self) -> Decoder<'_, '_>
        ensures* lends { sem 𝓛 (LendsProgress self.entry result) }
        ensures progress { result.progress.now ≡ self.old.progress }
        ensures bytes { result.bytes.now ≡ self.old.buffer.bytes.items }
    {
        let bytes = self.buffer.bytes();
        Decoder {
            progress: &mut self.progress,
            bytes,
        }
    }
}

/// The messages of a File, read from a reader one at a time into one buffer from which the message borrows. What owns
/// memory is a type parameter, so that a caller knows the final state of its reader.
pub struct Messages<'r, R, K: Drop = Kept> {
    /// The reader of the File.
    pub reader: &'r mut R,
    /// What is kept between two calls.
    pub kept: K,
}

impl<R, K: Drop> Drop for Messages<'_, R, K> {
    fn drop(self)
        ensures { self.exit.0.now ≡ self.entry.reader.now }
    {
        let Messages { reader: _, kept: _ } = self;
    }
}

impl<'r, R: Input> Messages<'r, R, Kept> {
    ghost use Rattle.std.specs.Borrow.{sem};
    ghost use Rattle.ipfix_read.specs.Lending.{LeavesMessages, LendsProgressOf};

    /// Returns the messages of the File that the reader will still return. The buffer is allocated, and nothing is
    /// read.
    pub fn new(alloc: Global, reader: &'r mut R) -> Result<Self, AllocError>
        ensures same_reference { IfOk result (λ m. m.reader.ghost_name ≡ reader.entry.ghost_name) }
        ensures reader { IfOk result (λ m. m.reader.now ≡ reader.old) }
        ensures begins { IfOk result (λ m. IsAt no_templates 0 0 m.kept.progress) }
    {
        let kept = Kept {
            progress: Progress::new(alloc),
            buffer: Buffer::new(alloc)?,
        };
        Ok(Messages { reader, kept })
    }

    // Reads the next message to the start of the buffer, and returns its length, as `Progress::gather` does.
    fn gather(&mut self) -> Result<Option<usize>, ReadFault>
        ensures same_reference { self.new.reader.ghost_name ≡ self.old.reader.ghost_name }
        ensures progress { self.new.kept.progress ≡ self.old.kept.progress }
        ensures call { GathersCall R.input self.old.kept.progress self.old.reader.now
            self.new.kept.buffer.bytes.items result self.new.reader.now }
        ensures whole { HoldsMessage self.new.kept.progress.count self.new.kept.buffer.bytes.items result }
    {
        let Kept { progress, buffer } = &mut self.kept;
        progress.gather(&mut *self.reader, buffer)
    }

    // Lends what the next message is decoded with.
    fn decoder(&mut self) -> Decoder<'_, '_>
        ensures* lends { sem 𝓛 (LendsProgressOf R.row self.entry result) }
        ensures progress { result.progress.now ≡ self.old.kept.progress }
        ensures bytes { result.bytes.now ≡ self.old.kept.buffer.bytes.items }
    {
        self.kept.decoder()
    }

    /// Returns the next message, whose values are slices of the buffer. Returns `None` at the end of the File and in
    /// each call after it. The message must be dropped before the next call.
    ///
    /// # Errors
    ///
    /// The errors are those of `Progress::next`.
    pub fn next_message(&mut self) -> Result<Option<Message<'_>>, ReadFault>
        // `leaves` is about `self` once the message is dropped. `found` says less, in a form that callers can use.
        ensures* leaves { sem 𝓛 (LeavesMessages R.row self.entry R.input result) }
        ensures found { (new : ProgressView) × (then : R)
            × AnswersCall R.input self.old.kept.progress self.old.reader.now result new then }
    {
        let found = self.gather();
        self.decoder().decode(found)
    }
}
