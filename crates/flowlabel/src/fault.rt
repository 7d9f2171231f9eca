ghost use Rattle.std.specs.Prelude.{◌≡◌, IfOk};
ghost use Rattle.flow_files.specs.Faults.{fault_text};
ghost use Rattle.flowlabel.specs.Definition.{program_name};

use crate::definition::NAME;
use flow_files::RunFault;
use std::alloc::{AllocError, Global};

/// Returns the line of a fault for standard error, with its line feed: clap's text if clap refuses, nothing for help.
pub fn fault_line(alloc: Global, fault: &RunFault<'_>) -> Result<Vec<u8>, AllocError>
    ensures { IfOk result (λ line. line.items ≡ fault_text program_name fault.now) }
{
    flow_files::fault_line(alloc, NAME, fault)
}
