//! Writing a text while it is printed.
ghost use Rattle.std.specs.Prelude.{◌≡◌, ◌++◌, ◌+◌, ◌≤◌, [], List, false, length, take, ℕ};
ghost use Rattle.flow_io.specs.declared.buffered.TheConstants.{ROOM};
ghost use Rattle.flow_io.specs.Devices.{Ends, OutputView, WritesText};

use crate::devices::{DeviceFault, Output};
use crate::given::{Given, end, give};
use crate::sink::{Printable, Sink};
use std::convert::Infallible;

// The number of bytes that are held back at most.
const ROOM: usize = 32_768;

/// A writer that is given a text through a buffer. Whether the writer failed is known at the end.
#[derive(Drop)]
pub struct Buffered<'w, W: Output> {
    writer: &'w mut W,
    given: &'w mut Given,
    buffer: &'w mut [u8],
    len: usize,
    ghost works: { (W.output writer.now).failed ≡ false → given.now.lost.bytes ≡ [] },
    ghost within: { (len ≤ ROOM) × (ROOM ≤ length buffer.now) },
}

impl<'w, W: Output> Buffered<'w, W> {
    ghost use Rattle.flow_io.specs.Buffers.{HasBegun, sink_of};

    // Puts a buffer before a writer, which isn't called.
    fn new(writer: &'w mut W, given: &'w mut Given, buffer: &'w mut [u8]) -> Self
        requires works { (W.output writer.old).failed ≡ false }
        requires none { (given.old.taken.bytes ≡ []) × (given.old.lost.bytes ≡ []) }
        requires room { ROOM ≤ length buffer.old }
        ensures same_reference { result.writer.ghost_name ≡ writer.entry.ghost_name }
        ensures began { HasBegun (W.output writer.old) result }
        ensures empty { (sink_of result).printed ≡ [] }
    {
        Buffered {
            writer,
            given,
            buffer,
            len: 0,
        }
    }

    // Holds bytes, for which there is room.
    #[inline(always)]
    fn hold(&mut self, bytes: &[u8], count: usize)
        requires count { count ≤ length bytes.now }
        requires room { self.old.len + length bytes.now ≤ ROOM }
        ensures writer { self.new.writer ≡ self.old.writer }
        ensures given { self.new.given ≡ self.old.given }
        ensures held { take self.new.len self.new.buffer.now
            ≡ take self.old.len self.old.buffer.now ++ take count bytes.now }
    {
        let len = self.len;
        self.buffer[len..len + bytes.len()].copy_from_slice(bytes);
        self.len = len + count;
    }

    // Gives the writer what is held.
    #[inline(never)]
    fn give_held(&mut self)
        ensures printed { (sink_of self.new).printed ≡ (sink_of self.old).printed }
        ensures empty { self.new.len ≡ 0 }
        ensures same_reference { self.new.writer.ghost_name ≡ self.old.writer.ghost_name }
        ensures began { (first : OutputView) → HasBegun first self.old → HasBegun first self.new }
    {
        give(self.writer, self.given, &self.buffer[..self.len]);
        self.len = 0;
    }

    // Gives the writer what is held, and flushes it.
    fn finish(&mut self) -> Result<(), DeviceFault>
        ensures same_reference { self.new.writer.ghost_name ≡ self.old.writer.ghost_name }
        ensures ends { (first : OutputView) → HasBegun first self.old
            → Ends first (W.output self.new.writer.now) (sink_of self.old).printed result }
    {
        self.give_held();
        end(self.writer, self.given)
    }

    // Prints a value, which can't fail here.
    fn print<P: Printable>(&mut self, value: &P)
        requires { P.is_whole value.now }
        ensures printed { (text : List ℕ) × P.is_text value.now text
            × ((sink_of self.new).printed ≡ (sink_of self.old).printed ++ text) }
        ensures same_reference { self.new.writer.ghost_name ≡ self.old.writer.ghost_name }
        ensures began { (first : OutputView) → HasBegun first self.old → HasBegun first self.new }
    {
        match value.print(self) {
            Ok(()) => {}
            Err(never) => match never {},
        }
    }
}

impl<W: Output> Sink for Buffered<'_, W> {
    ghost use Rattle.flow_io.specs.Buffers.{HasBegun, sink_of};

    type Fault = Infallible;

    ghost sink = { sink_of };

    ghost began = { HasBegun };

    #[inline(always)]
    fn push_start(&mut self, given: &[u8], count: usize) -> Result<(), Infallible> {
        if given.len() > ROOM - self.len {
            self.give_held();
            if given.len() > ROOM {
                give(self.writer, self.given, &given[..count]);
                return Ok(());
            }
        }
        self.hold(given, count);
        Ok(())
    }
}

/// Writes the text of a value while it is printed, and then flushes the writer once. Nothing is allocated. If a write
/// fails, the writer has taken a prefix of the text. If the flush fails, the writer has taken all of it.
#[inline(never)]
pub fn write_printed<P: Printable, W: Output>(writer: &mut W, value: &P) -> Result<(), DeviceFault>
    requires writer { (W.output writer.old).failed ≡ false }
    requires value { P.is_whole value.now }
    ensures { WritesText (W.output writer.old) (W.output writer.new) (P.is_text value.now) result }
{
    let mut given = Given::none();
    let mut buffer = [0; ROOM];
    let mut out = Buffered::new(writer, &mut given, &mut buffer);
    out.print(value);
    out.finish()
}
