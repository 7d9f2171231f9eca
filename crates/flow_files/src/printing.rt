//! Writes a value while it is printed.
ghost use Rattle.std.specs.Prelude.{◌≡◌, false};
ghost use Rattle.flow_files.specs.Reports.{IsTextWritten};

use crate::fault::RunFault;
use flow_io::{DeviceFault, Output, Printable, write_printed};

/// Writes a value while it is printed, and flushes the writer once.
pub fn print_to<'a, P: Printable, W: Output>(writer: &mut W, value: &P) -> Result<(), RunFault<'a>>
    requires writer { (W.output writer.old).failed ≡ false }
    requires value { P.is_whole value.now }
    ensures { IsTextWritten W.output (P.is_text value.now) writer.old writer.new result }
{
    match write_printed(writer, value) {
        Ok(()) => Ok(()),
        Err(DeviceFault) => Err(RunFault::CannotWrite),
    }
}
