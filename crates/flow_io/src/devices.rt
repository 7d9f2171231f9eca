ghost use Rattle.std.specs.Prelude.{◌≡◌, ◌≤◌, [], IfOk, length, suc};
ghost use Rattle.flow_io.specs.Devices.{FailsOnErr, FailsOnShortWrite, InputView, OutputView, GivesCount};
ghost use Rattle.flow_io.specs.Devices.{Takes, TakesCount, finds_end, flush_call, has_ended, Write};

use thiserror::Error;

/// The error of a device, such as a file, a pipe or a terminal, that failed a call.
#[derive(Clone, Copy, Debug, PartialEq, Eq, Error)]
#[error("the device failed")]
pub struct DeviceFault;

/// The last call of a writer.
#[derive(Clone, Copy)]
pub enum LastCall {
    /// There was no call yet.
    Nothing,
    /// A write, whether it succeeded or not.
    Write,
    /// A flush that returned `Ok`.
    Flush,
    /// A flush that returned `Err`.
    FailedFlush,
}

/// A reader that remembers whether it failed.
pub trait Input {
    // Whether a read has failed, and which bytes reads have returned.
    ghost input: { Self → InputView };

    /// Reads into the start of the buffer, and returns the number of bytes read. The number is 0 only at the end of the
    /// input or if the buffer is empty. After an `Err` no byte is lost.
    fn read(&mut self, buffer: &mut [u8]) -> Result<usize, DeviceFault>
        ensures within { IfOk result (λ count. count ≤ length buffer.new) }
        ensures read { GivesCount (input self.old) (input self.new) result buffer.new }
        ensures end { has_ended (input self.new) ≡ finds_end result buffer.new }
        ensures fails { FailsOnErr (input self.old).failed (input self.new).failed result };

    /// Returns `true` if a call of `read` has returned `Err`.
    fn failed(&self) -> bool
        ensures { result ≡ (input self.now).failed };
}

/// A writer that remembers whether it failed, which call was the last one, and how many were flushes.
pub trait Output {
    // Whether a write or a flush has failed, the last call, the number of flushes, and which bytes writes have taken.
    ghost output: { Self → OutputView };

    /// Takes bytes from the start of the slice, and returns their number. After an `Err` no byte of the slice was
    /// taken.
    fn write(&mut self, slice: &[u8]) -> Result<usize, DeviceFault>
        ensures within { IfOk result (λ count. count ≤ length slice.now) }
        ensures taken { TakesCount (output self.old) (output self.new) result slice.now }
        ensures fails { FailsOnShortWrite (output self.old).failed (output self.new).failed result slice.now }
        ensures last { (output self.new).last_call ≡ Write }
        ensures unflushed { (output self.new).flushes ≡ (output self.old).flushes };

    /// Passes on the bytes that the writer holds back. The bytes taken stay as they are.
    fn flush(&mut self) -> Result<(), DeviceFault>
        ensures taken { Takes (output self.old) (output self.new) [] }
        ensures fails { FailsOnErr (output self.old).failed (output self.new).failed result }
        ensures last { (output self.new).last_call ≡ flush_call result }
        ensures flushed { (output self.new).flushes ≡ suc (output self.old).flushes };

    /// Returns `true` if a call of `write` or `flush` has returned `Err`, or if a call of `write` has returned 0 for a
    /// nonempty slice.
    fn failed(&self) -> bool
        ensures { result ≡ (output self.now).failed };
}
