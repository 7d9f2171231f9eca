//! What a writer was given.
ghost use Rattle.std.specs.Prelude.{◌≡◌, ◌++◌, [], false};
ghost use Rattle.flow_io.specs.Devices.{Ends, OutputView};
ghost use Rattle.flow_io.specs.Sinks.{HasTaken};

use crate::devices::{DeviceFault, Output};
use crate::record::Record;

/// The bytes that a writer was given, for contracts alone: those that it took, and those that were lost.
#[derive(Drop)]
pub struct Given {
    pub(crate) taken: Record,
    pub(crate) lost: Record,
}

impl Given {
    /// Returns no bytes.
    pub(crate) fn none() -> Given
        ensures { (result.taken.bytes ≡ []) × (result.lost.bytes ≡ []) }
    {
        Given {
            taken: Record::new(),
            lost: Record::new(),
        }
    }
}

/// Gives a writer bytes. After a call that failed it isn't called again, and the bytes are lost.
#[inline(never)]
pub(crate) fn give<W: Output>(writer: &mut W, given: &mut Given, bytes: &[u8])
    requires { (W.output writer.old).failed ≡ false → given.old.lost.bytes ≡ [] }
    ensures works { (W.output writer.new).failed ≡ false → given.new.lost.bytes ≡ [] }
    ensures given { given.new.taken.bytes ++ given.new.lost.bytes
        ≡ (given.old.taken.bytes ++ given.old.lost.bytes) ++ bytes.now }
    ensures began { (first : OutputView) → HasTaken first (W.output writer.old) given.old.taken.bytes
        → HasTaken first (W.output writer.new) given.new.taken.bytes }
{
    let mut rest = bytes;
    while !rest.is_empty() && !writer.failed() {
        if let Ok(count) = writer.write(rest) {
            given.taken.note(&rest[..count]);
            rest = &rest[count..];
        }
    }
    given.lost.note(rest);
}

/// Flushes a writer, if it hasn't failed.
pub(crate) fn end<W: Output>(writer: &mut W, given: &Given) -> Result<(), DeviceFault>
    requires { (W.output writer.old).failed ≡ false → given.now.lost.bytes ≡ [] }
    ensures works { (W.output writer.new).failed ≡ false → given.now.lost.bytes ≡ [] }
    ensures ends { (first : OutputView) → HasTaken first (W.output writer.old) given.now.taken.bytes
        → Ends first (W.output writer.new) (given.now.taken.bytes ++ given.now.lost.bytes) result }
{
    if writer.failed() {
        return Err(DeviceFault);
    }
    writer.flush()
}
