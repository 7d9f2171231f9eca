//! Reading ahead.
ghost use Rattle.std.specs.Prelude.{◌≡◌, ◌≤◌, ◌++◌, [], IfOk, false, slice_range, vec_len};

use crate::devices::{DeviceFault, Input};
use crate::record::Record;
use std::alloc::{AllocError, Global};

// The number of bytes that the inner reader is asked for at a time.
const CAPACITY: usize = 65_536;

/// A reader that asks an inner one for 64 KB at a time, and returns its bytes in order. The bytes ahead, which it has
/// not returned yet, are those of `buffer` from `start` to `end`.
#[derive(Drop)]
pub struct ReadAhead<R: Input> {
    inner: R,
    buffer: Vec<u8>,
    start: usize,
    end: usize,
    ended: bool,
    returned: Record,
    ghost sized: { vec_len buffer ≡ 65536 },
    ghost ordered: { start ≤ end },
    ghost within: { end ≤ vec_len buffer },
    // What the inner reader has returned is what this one has returned, and then the bytes ahead.
    ghost fetched: { (R.input inner).returned ≡ returned.bytes ++ slice_range buffer.items start end },
}

impl<R: Input> ReadAhead<R> {
    ghost use Rattle.std.specs.Prelude.{◌-◌, length, min, take};
    ghost use Rattle.flow_io.specs.Ahead.{bytes_ahead, input_ahead};
    ghost use Rattle.flow_io.specs.Devices.{FailsOnErr, GivesCount, finds_end, has_ended};

    /// Wraps `inner`, of which nothing was read.
    pub fn new(alloc: Global, inner: R) -> Result<Self, AllocError>
    where
        R: Drop,
        requires { (R.input inner).returned ≡ [] }
        ensures inner { IfOk result (λ reader. reader.inner ≡ inner) }
        ensures fresh { IfOk result (λ reader.
            (reader.ended ≡ false) × (reader.returned.bytes ≡ []) × (reader.start ≡ reader.end)) }
    {
        Ok(ReadAhead {
            buffer: vec![in alloc; 0u8; CAPACITY]?,
            inner,
            start: 0,
            end: 0,
            ended: false,
            returned: Record::new(),
        })
    }

    // Moves the first bytes ahead to the start of the buffer, as many as there are and as fit, and returns their
    // number.
    #[tactic(auto, using(crate::proofs::Moving::moved_ahead))]
    fn take(&mut self, buffer: &mut [u8]) -> usize
        ensures count { result ≡ min (length buffer.new) (self.old.end - self.old.start) }
        ensures moved { bytes_ahead self.old ≡ take result buffer.new ++ bytes_ahead self.new }
        ensures noted { self.new.returned.bytes ≡ self.old.returned.bytes ++ take result buffer.new }
        ensures ended { self.new.ended ≡ self.old.ended }
        ensures inner { self.new.inner ≡ self.old.inner }
    {
        let start = self.start;
        let count = buffer.len().min(self.end - start);
        buffer[..count].copy_from_slice(&self.buffer[start..start + count]);
        self.start = start + count;
        self.returned.note(&buffer[..count]);
        count
    }

    // Reads when no byte is ahead. The inner reader is asked for as many bytes as fit.
    #[inline(never)]
    fn read_on(&mut self, buffer: &mut [u8]) -> Result<usize, DeviceFault>
        requires { self.old.start ≡ self.old.end }
        ensures within { IfOk result (λ count. count ≤ length buffer.new) }
        ensures read { GivesCount (input_ahead R.Input self.old) (input_ahead R.Input self.new) result buffer.new }
        ensures end { has_ended (input_ahead R.Input self.new) ≡ finds_end result buffer.new }
        ensures fails { FailsOnErr (input_ahead R.Input self.old).failed (input_ahead R.Input self.new).failed result }
    {
        self.ended = false;
        if buffer.len() >= CAPACITY {
            // The buffer has room for all that would be read ahead.
            let count = self.inner.read(buffer)?;
            self.ended = count == 0;
            self.returned.note(&buffer[..count]);
            return Ok(count);
        }
        self.start = 0;
        self.end = 0;
        self.end = self.inner.read(self.buffer.as_mut_slice())?;
        let count = self.take(buffer);
        self.ended = count == 0 && !buffer.is_empty();
        Ok(count)
    }
}

impl<R: Input> Input for ReadAhead<R> {
    ghost use Rattle.flow_io.specs.Ahead.{input_ahead};

    ghost input = { input_ahead R.Input };

    // Most reads only move bytes that are ahead. This part is inlined.
    #[inline(always)]
    fn read(&mut self, buffer: &mut [u8]) -> Result<usize, DeviceFault> {
        if self.start == self.end {
            return self.read_on(buffer);
        }
        self.ended = false;
        Ok(self.take(buffer))
    }

    fn failed(&self) -> bool {
        self.inner.failed()
    }
}
