//! How the program ends.
ghost use Rattle.std.specs.Prelude.{◌≡◌, Err, false};
ghost use Rattle.std.specs.declared.alloc.Global.{Global};
ghost use Rattle.std.specs.declared.string.String.{String};
ghost use Rattle.flow_files.specs.Ending.{IsReported};
ghost use Rattle.flow_files.specs.Faults.{exit_status_of};
ghost use Rattle.flow_files.specs.declared.fault.RunFault.TheVariants.{Usage};
ghost use Rattle.flow_files.specs.declared.usage.UsageFault.TheVariants as usage;
ghost use Rattle.flowlabel.specs.Definition.{program_name};

use crate::definition::NAME;
use flow_files::RunFault;
use flow_io::Output;
use std::alloc::Global;

/// Writes help to standard output, or the line of a fault to standard error, and flushes it. Returns the exit status,
/// which doesn't depend on whether the stream fails. If the allocation of the line fails, nothing is written.
pub fn end<O: Output, E: Output>(
    alloc: Global,
    outcome: &Result<(), RunFault<'_>>,
    output: &mut O,
    error: &mut E,
) -> u8
    requires output { (text : String Global) → outcome.now ≡ Err (Usage (usage.Help text))
        → (O.output output.old).failed ≡ false }
    requires error { (E.output error.old).failed ≡ false }
    ensures status { result ≡ exit_status_of outcome.now }
    ensures reported { IsReported O.output E.output program_name outcome.now output.old output.new error.old error.new }
{
    flow_files::end(alloc, NAME, outcome, output, error)
}
