//! How a program ends.
ghost use Rattle.std.specs.Prelude.{◌≡◌, Err, false};
ghost use Rattle.std.specs.declared.alloc.Global.{Global};
ghost use Rattle.std.specs.declared.string.String.{String};
ghost use Rattle.flow_files.specs.Ending.{IsReported};
ghost use Rattle.flow_files.specs.Faults.{exit_status_of};
ghost use Rattle.flow_files.specs.Readers.{Usage};
ghost use Rattle.flow_files.specs.declared.usage.UsageFault.TheVariants as usage;

use crate::fault::{RunFault, fault_line, status};
use crate::usage::UsageFault;
use flow_io::{Output, write_whole};
use std::alloc::Global;

/// Writes help to standard output, or the line of a fault of the program with this name to standard error, and flushes
/// it. Returns the exit status, which doesn't depend on whether the stream fails. If the allocation of the line fails,
/// nothing is written.
pub fn end<O: Output, E: Output>(
    alloc: Global,
    program: &str,
    outcome: &Result<(), RunFault<'_>>,
    output: &mut O,
    error: &mut E,
) -> u8
    requires output { (text : String Global) → outcome.now ≡ Err (Usage (usage.Help text))
        → (O.output output.old).failed ≡ false }
    requires error { (E.output error.old).failed ≡ false }
    ensures status { result ≡ exit_status_of outcome.now }
    ensures reported { IsReported O.output E.output program.now outcome.now output.old output.new error.old error.new }
{
    let _ = match outcome {
        Ok(()) => Ok(()),
        Err(RunFault::Usage(UsageFault::Help(text))) => {
            write_whole(output, text.as_str().as_bytes())
        }
        Err(fault) => match fault_line(alloc, program, fault) {
            Ok(line) => write_whole(error, line.as_slice()),
            Err(_) => Ok(()),
        },
    };
    match outcome {
        Ok(()) => 0,
        Err(fault) => status(fault),
    }
}
