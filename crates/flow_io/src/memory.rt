//! Readers and writers in memory, for tests.
ghost use Rattle.std.specs.Prelude.{◌≡◌, ◌-◌, ◌≤◌, ◌↔◌, false, [], IfOk, IsErr, drop};
ghost use Rattle.std.specs.Prelude.{length, max, min, nat_eq, suc, unwrap_or, if◌then◌else◌};
ghost use Rattle.std.specs.Result.{result_unwrap_or};
ghost use Rattle.flow_io.specs.Devices.{FailsOnErr, FailsOnShortWrite, GivesCount, Takes, TakesCount};
ghost use Rattle.flow_io.specs.Devices.{finds_end, flush_call, has_ended, Nothing, Write};
ghost use Rattle.flow_io.specs.Memory.{input_in, output_in};

use crate::devices::{DeviceFault, Input, LastCall, Output};
use crate::record::Record;
use arrayvec::ArrayVec;

// Counts a call, and returns `true` if it is the one that is to fail: `failing_call` was 1.
fn is_due(failing_call: &mut u64) -> bool
    ensures due { result ≡ nat_eq failing_call.old 1 }
    ensures counted { failing_call.new ≡ failing_call.old - 1 }
{
    let due = *failing_call == 1;
    *failing_call = failing_call.saturating_sub(1);
    due
}

/// A reader over bytes in memory, for tests. It returns them in pieces, and fails at a chosen call.
#[derive(Drop)]
pub struct MemoryInput<'a> {
    /// The bytes left.
    pub left: &'a [u8],
    /// The maximum that a read returns. 0 counts as 1.
    pub step: usize,
    /// The number of the next call that fails: 1 is the next call, 0 is no call.
    pub failing_call: u64,
    /// Whether a call has failed.
    pub failed: bool,
    /// Whether the last read found the end.
    pub ended: bool,
    /// The bytes read so far.
    pub read: Record,
}

impl<'a> MemoryInput<'a> {
    /// Returns a reader of `bytes` that returns at most `step` of them a call, or 1 if `step` is 0. Call number
    /// `fail_at`, counted from 1, returns `Err`. With `None` or 0 no call fails.
    pub fn new(bytes: &'a [u8], step: usize, fail_at: Option<u64>) -> Self
        ensures left { result.left ≡ bytes.entry }
        ensures settings { (result.step ≡ step) × (result.failing_call ≡ unwrap_or fail_at 0) }
        ensures fresh { (result.failed ≡ false) × (result.ended ≡ false) × (result.read.bytes ≡ []) }
    {
        MemoryInput {
            left: bytes,
            step,
            failing_call: fail_at.unwrap_or(0),
            failed: false,
            ended: false,
            read: Record::new(),
        }
    }
}

impl Input for MemoryInput<'_> {
    ghost input = { input_in };

    fn read(&mut self, buffer: &mut [u8]) -> Result<usize, DeviceFault>
        ensures within { IfOk result (λ count. count ≤ length buffer.new) }
        ensures read { GivesCount (input_in self.old) (input_in self.new) result buffer.new }
        ensures end { has_ended (input_in self.new) ≡ finds_end result buffer.new }
        ensures fails { FailsOnErr self.old.failed self.new.failed result }

        // When the call fails, otherwise how many bytes it returns, and what stays the same.
        ensures err { IsErr result ↔ (self.old.failing_call ≡ 1) }
        ensures count { IfOk result (λ count. count
            ≡ min (max 1 self.old.step) (min (length buffer.old) (length self.old.left.now))) }
        ensures unread { drop (result_unwrap_or result 0) buffer.new ≡ drop (result_unwrap_or result 0) buffer.old }
        ensures step { self.new.step ≡ self.old.step }
        ensures counted { self.new.failing_call ≡ self.old.failing_call - 1 }
    {
        self.ended = false;
        if is_due(&mut self.failing_call) {
            self.failed = true;
            return Err(DeviceFault);
        }
        let count = self.step.max(1).min(buffer.len().min(self.left.len()));
        let (front, rest) = self.left.split_at(count);
        buffer[..count].copy_from_slice(front);
        self.left = rest;
        self.read.note(&buffer[..count]);
        self.ended = count == 0 && !buffer.is_empty();
        Ok(count)
    }

    fn failed(&self) -> bool {
        self.failed
    }
}

/// A writer into memory, for tests, with room for `N` bytes. It takes them in pieces, and fails at a chosen call.
#[derive(Drop)]
pub struct MemoryOutput<const N: usize> {
    /// The bytes taken.
    pub taken: ArrayVec<u8, N>,
    /// The maximum that a write takes. 0 counts as 1.
    pub step: usize,
    /// The number of the next call that fails: 1 is the next call, 0 is no call.
    pub failing_call: u64,
    /// Whether a write that fails returns 0.
    pub zero: bool,
    /// Whether a call has failed.
    pub failed: bool,
    /// The last call.
    pub last_call: LastCall,
    /// A byte for each flush.
    pub flushed: Record,
}

impl<const N: usize> MemoryOutput<N> {
    /// Returns a writer that takes at most `step` bytes a call, or 1 if `step` is 0. Call number `fail_at` of `write`
    /// and `flush` together, counted from 1, returns `Err`. If `zero` is true and the call is a write, it returns 0
    /// instead. With `None` or 0 every call succeeds while there is room.
    pub fn new(step: usize, fail_at: Option<u64>, zero: bool) -> Self
        ensures taken { result.taken.items ≡ [] }
        ensures settings { (result.step ≡ step) × (result.failing_call ≡ unwrap_or fail_at 0) × (result.zero ≡ zero) }
        ensures fresh { (result.failed ≡ false) × (result.last_call ≡ Nothing) × (result.flushed.bytes ≡ []) }
    {
        MemoryOutput {
            taken: ArrayVec::new(),
            step,
            failing_call: fail_at.unwrap_or(0),
            zero,
            failed: false,
            last_call: LastCall::Nothing,
            flushed: Record::new(),
        }
    }

    /// Returns the bytes taken so far.
    pub fn taken(&self) -> &[u8]
        ensures { result.now ≡ self.now.taken.items }
    {
        self.taken.as_slice()
    }
}

impl<const N: usize> Output for MemoryOutput<N> {
    ghost output = { output_in };

    fn write(&mut self, slice: &[u8]) -> Result<usize, DeviceFault>
        ensures within { IfOk result (λ count. count ≤ length slice.now) }
        ensures taken { TakesCount (output_in self.old) (output_in self.new) result slice.now }
        ensures fails { FailsOnShortWrite self.old.failed self.new.failed result slice.now }
        ensures last { self.new.last_call ≡ Write }
        ensures unflushed { (output_in self.new).flushes ≡ (output_in self.old).flushes }

        // When the call fails, otherwise how many bytes it takes, and what stays the same.
        ensures err { IsErr result ↔ ((self.old.failing_call ≡ 1) × (self.old.zero ≡ false)) }
        ensures count { IfOk result (λ count. count ≡ (if nat_eq self.old.failing_call 1 then 0
            else min (max 1 self.old.step) (min (length slice.now) (N - length self.old.taken.items)))) }
        ensures settings { (self.new.step ≡ self.old.step) × (self.new.zero ≡ self.old.zero) }
        ensures counted { self.new.failing_call ≡ self.old.failing_call - 1 }
    {
        let due = is_due(&mut self.failing_call);
        self.last_call = LastCall::Write;
        if due && !self.zero {
            self.failed = true;
            return Err(DeviceFault);
        }
        let most = if due { 0 } else { self.step.max(1) };
        let count = most.min(slice.len().min(self.taken.remaining_capacity()));
        let _fits = self.taken.try_extend_from_slice(&slice[..count]);
        self.failed |= count == 0 && !slice.is_empty();
        Ok(count)
    }

    fn flush(&mut self) -> Result<(), DeviceFault>
        ensures taken { Takes (output_in self.old) (output_in self.new) [] }
        ensures fails { FailsOnErr self.old.failed self.new.failed result }
        ensures last { self.new.last_call ≡ flush_call result }
        ensures flushed { (output_in self.new).flushes ≡ suc (output_in self.old).flushes }
        ensures err { IsErr result ↔ (self.old.failing_call ≡ 1) }
        ensures settings { (self.new.step ≡ self.old.step) × (self.new.zero ≡ self.old.zero) }
        ensures counted { self.new.failing_call ≡ self.old.failing_call - 1 }
    {
        self.flushed.note(&[0]);
        if is_due(&mut self.failing_call) {
            self.failed = true;
            self.last_call = LastCall::FailedFlush;
            return Err(DeviceFault);
        }
        self.last_call = LastCall::Flush;
        Ok(())
    }

    fn failed(&self) -> bool {
        self.failed
    }
}
