ghost use Rattle.std.specs.Prelude.{◌≡◌, [], false};
ghost use Rattle.flow_io.specs.Devices.{Nothing};
ghost use Rattle.flow_io.specs.Watched.{input_watched, output_watched};

use crate::devices::{DeviceFault, Input, LastCall, Output};
use crate::record::Record;
use std::io::{Read, Write};

/// A reader or writer of std that remembers whether it failed, whether its last read found the end, and which call of
/// it as a writer was the last one. Each call is passed on unchanged. Any error, including an interrupted call, is a
/// `DeviceFault`.
///
/// For contracts it also remembers the bytes that its reads have returned and its writes have taken, and a byte for
/// each flush. If the inner reader or writer reports its bytes, they are the ones that it reports.
#[derive(Drop)]
pub struct Watched<T> {
    inner: T,
    failed: bool,
    ended: bool,
    last_call: LastCall,
    read: Record,
    taken: Record,
    flushed: Record,
}

impl<T> Watched<T> {
    /// Wraps `inner`, which counts as not failed and not called yet.
    pub fn new(inner: T) -> Self
        ensures inner { result.inner ≡ inner }
        ensures fresh { (result.failed ≡ false) × (result.ended ≡ false) × (result.last_call ≡ Nothing) }
        ensures unmoved { (result.read.bytes ≡ []) × (result.taken.bytes ≡ []) × (result.flushed.bytes ≡ []) }
    {
        Watched {
            inner,
            failed: false,
            ended: false,
            last_call: LastCall::Nothing,
            read: Record::new(),
            taken: Record::new(),
            flushed: Record::new(),
        }
    }
}

impl<T: Read> Input for Watched<T> {
    ghost input = { input_watched T.remaining };

    fn read(&mut self, buffer: &mut [u8]) -> Result<usize, DeviceFault> {
        let count = self.inner.read(buffer).map_err(|_| DeviceFault);
        self.failed |= count.is_err();
        self.ended = count == Ok(0) && !buffer.is_empty();
        if let Ok(count) = count {
            self.read.note(&buffer[..count]);
        }
        count
    }

    fn failed(&self) -> bool {
        self.failed
    }
}

impl<T: Write> Output for Watched<T> {
    ghost output = { output_watched T.contents };

    fn write(&mut self, slice: &[u8]) -> Result<usize, DeviceFault> {
        self.last_call = LastCall::Write;
        let count = self.inner.write(slice).map_err(|_| DeviceFault);
        self.failed |= count.is_err() || (count == Ok(0) && !slice.is_empty());
        if let Ok(count) = count {
            self.taken.note(&slice[..count]);
        }
        count
    }

    fn flush(&mut self) -> Result<(), DeviceFault> {
        self.flushed.note(&[0]);
        if self.inner.flush().is_err() {
            self.failed = true;
            self.last_call = LastCall::FailedFlush;
            return Err(DeviceFault);
        }
        self.last_call = LastCall::Flush;
        Ok(())
    }

    fn failed(&self) -> bool {
        self.failed
    }
}
