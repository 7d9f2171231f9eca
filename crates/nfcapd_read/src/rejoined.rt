//! A reader of a text whose first bytes were read before.
ghost use Rattle.std.specs.Prelude.{◌≡◌, ◌≤◌, ◌++◌, ◌==◌, ◌&&◌, [], false, true, List, ℕ, length, nat_lt, slice_range};
ghost use Rattle.flow_io.specs.Devices.{has_ended};
ghost use Rattle.nfcapd_read.specs.File.{is_nfcapd};

use flow_io::{DeviceFault, Input, Record};

/// A reader that returns two bytes that were read from an inner one, and then the bytes that follow. The text is no
/// file of nfcapd. The bytes that it has not returned yet are those of `front` from `start` on.
#[derive(Drop)]
pub struct Rejoined<R: Input> {
    inner: R,
    front: [u8; 2],
    start: usize,
    ended: bool,
    returned: Record,
    ghost within: { start ≤ 2 },
    // What the inner reader has returned is what this one has returned, and then the bytes of the front that are left.
    ghost joined: { (R.input inner).returned ≡ returned.bytes ++ slice_range front start 2 },
    // The text isn't one of nfcapd, whatever follows.
    ghost other: { (rest : List ℕ) → is_nfcapd ((R.input inner).returned ++ rest) ≡ false },
    // The last read found the end only if the inner reader has ended.
    ghost over: { ended ≡ true → has_ended (R.input inner) ≡ true },
    // The inner reader is read on, and can fail, only once no byte of the front is left.
    ghost kept: { (R.input inner).failed ≡ true → start ≡ 2 },
}

// Returns whether a read of these many bytes into a buffer found the end.
fn is_end(count: usize, buffer: &[u8]) -> bool
    ensures { result ≡ (count == 0 && nat_lt 0 (length buffer.now)) }
{
    count == 0 && !buffer.is_empty()
}

impl<R: Input> Rejoined<R> {
    ghost use Rattle.std.specs.Prelude.{◌-◌, min, take, IfOk};
    ghost use Rattle.nfcapd_read.specs.Rejoining.{front_left, input_rejoined};
    ghost use Rattle.flow_io.specs.Devices.{FailsOnErr, GivesCount, finds_end};

    /// Wraps `inner`, of which two bytes were read.
    pub fn new(inner: R, front: [u8; 2]) -> Self
    where
        R: Drop,
        requires returned { (R.input inner).returned ≡ front }
        requires works { (R.input inner).failed ≡ false }
        requires other { (rest : List ℕ) → is_nfcapd (front ++ rest) ≡ false }
        ensures inner { result.inner ≡ inner }
        ensures fresh { (result.ended ≡ false) × (result.returned.bytes ≡ []) × (result.start ≡ 0) }
        ensures front { result.front ≡ front }
    {
        Rejoined {
            inner,
            front,
            start: 0,
            ended: false,
            returned: Record::new(),
        }
    }

    // Moves bytes of the front to the start of a buffer, as many as there are and as fit, and returns their number.
    #[tactic(auto, using(flow_io::proofs::Moving::moved_ahead))]
    fn take(&mut self, buffer: &mut [u8]) -> usize
        requires going { self.old.ended ≡ false }
        ensures count { result ≡ min (length buffer.new) (2 - self.old.start) }
        ensures moved { front_left self.old ≡ take result buffer.new ++ front_left self.new }
        ensures noted { self.new.returned.bytes ≡ self.old.returned.bytes ++ take result buffer.new }
        ensures ended { self.new.ended ≡ self.old.ended }
        ensures inner { self.new.inner ≡ self.old.inner }
    {
        let start = self.start;
        let count = buffer.len().min(2 - start);
        buffer[..count].copy_from_slice(&self.front[start..start + count]);
        self.start = start + count;
        self.returned.note(&buffer[..count]);
        count
    }

    // Reads when no byte of the front is left.
    #[inline(always)]
    fn read_on(&mut self, buffer: &mut [u8]) -> Result<usize, DeviceFault>
        requires { self.old.start ≡ 2 }
        ensures within { IfOk result (λ count. count ≤ length buffer.new) }
        ensures read { GivesCount (input_rejoined R.Input self.old) (input_rejoined R.Input self.new) result
            buffer.new }
        ensures end { has_ended (input_rejoined R.Input self.new) ≡ finds_end result buffer.new }
        ensures fails { FailsOnErr (input_rejoined R.Input self.old).failed (input_rejoined R.Input self.new).failed
            result }
    {
        self.ended = false;
        let count = self.inner.read(buffer)?;
        self.ended = is_end(count, buffer);
        self.returned.note(&buffer[..count]);
        Ok(count)
    }
}

impl<R: Input> Input for Rejoined<R> {
    ghost use Rattle.nfcapd_read.specs.Rejoining.{input_rejoined};

    ghost input = { input_rejoined R.Input };

    #[inline(always)]
    fn read(&mut self, buffer: &mut [u8]) -> Result<usize, DeviceFault> {
        if self.start == 2 {
            return self.read_on(buffer);
        }
        self.ended = false;
        Ok(self.take(buffer))
    }

    fn failed(&self) -> bool {
        self.inner.failed()
    }
}
